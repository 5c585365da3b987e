// The stores of an update or of a mend: all worked out first, then listed, or written group by group with a flush after each
// group, and none after one that failed. Assumes what `io` and `std` do.
use crate::image;
use crate::image::Fault;
use crate::say::{Printed, note, print};
use crate::sentences::AreaName;
use crate::statuses::Status;
use block::BlockFields;
use discovery::Copies;
use mend::Rewrite;
use refusal::Reason;
use std::fmt;
use std::fmt::Display;
use std::fs::File;
use std::io::Stdout;
use update::Plan;

// The most stores that an update or a mend has.
const MOST: usize = 2 * (layout::RECORD_LIMIT / image::SECTOR) as usize + 2;

// A store: the number of its sector, where there is such a store, and its bytes.
#[derive(Clone, Copy)]
struct Store {
    sector: Option<u64>,
    bytes: [u8; layout::SECTOR_BYTES],
}

// What is stored: an update with its record's length, or a mend.
#[derive(Clone, Copy)]
pub(crate) enum Work {
    Change(Plan),
    Repair(Result<Option<Rewrite>, Reason>),
}

// All stores of a work.
#[derive(Clone, Copy)]
pub(crate) struct List {
    work: Work,
    stores: [Store; MOST],
}

// A write or a flush failed, which was said.
#[derive(Clone, Copy)]
pub(crate) struct Stopped;

impl Work {
    // How many stores there are.
    fn count(self) -> u64 {
        match self {
            Work::Change(p) => update::count(p),
            Work::Repair(m) => mend::count(m),
        }
    }

    // The group of a store; 4 past the last.
    fn group(self, i: u64) -> u8 {
        match self {
            Work::Change(p) => update::group(p, i),
            Work::Repair(m) => mend::group(m, i),
        }
    }

    // Whether a flush belongs after a store.
    fn flush_after(self, i: u64) -> bool {
        match self {
            Work::Change(p) => update::flush(p, i),
            Work::Repair(m) => mend::flush(m, i),
        }
    }

    // A store by its number; r is the new record.
    fn store(self, c: Copies<'_>, r: &[u8], i: u64) -> Store {
        let mut bytes = [0u8; layout::SECTOR_BYTES];
        let given = match self {
            Work::Change(p) => update::store(p, c, r, i, &mut bytes),
            Work::Repair(m) => mend::store(m, c, i, &mut bytes),
        };
        Store {
            sector: given.ok(),
            bytes,
        }
    }

    // Whether the stores of a group hold a part of the record.
    fn holds_record(self, group: u8) -> bool {
        match self {
            Work::Change(_) => matches!(group, 0 | 2),
            Work::Repair(_) => group == 1,
        }
    }

    // Whether a group is the last store of a mend, which makes an entry unused.
    fn clears_entry(self, group: u8) -> bool {
        matches!(self, Work::Repair(_)) && group == 3
    }

    // The number of a store within its record's sectors.
    fn part(self, i: u64) -> u64 {
        match self {
            Work::Change(p) => {
                let sectors = stores::sectors(p.entry.bytes) as u64;
                if i <= sectors { i } else { i - sectors - 1 }
            }
            Work::Repair(_) => i.saturating_sub(1),
        }
    }
}

// Says what could not be written or flushed.
fn say_stopped<T: Display + Drop>(path: &[u8], what: T, fault: Fault) -> Stopped {
    note(
        path,
        format_args!("{what}: {fault}; nothing was stored after it"),
    );
    Stopped
}

// Writes a sector.
pub(crate) fn write(image: &File, path: &[u8], sector: u64, s: &[u8]) -> Result<(), Stopped> {
    image::write(image, sector, s).map_err(|fault| {
        say_stopped(
            path,
            format_args!("sector {sector} could not be written"),
            fault,
        )
    })
}

// Waits for the device, where that is due.
pub(crate) fn flush(image: &File, path: &[u8], due: bool) -> Result<(), Stopped> {
    if !due {
        return Ok(());
    }
    image::flush(image).map_err(|fault| say_stopped(path, "could not be flushed", fault))
}

impl List {
    // Works all stores of a work out; r is the new record.
    pub(crate) fn of(work: Work, c: Copies<'_>, r: &[u8]) -> List {
        let count = work.count();
        let mut stores = [Store {
            sector: None,
            bytes: [0; layout::SECTOR_BYTES],
        }; MOST];
        for (i, store) in stores.iter_mut().enumerate().take(count as usize) {
            *store = work.store(c, r, i as u64);
        }
        List { work, stores }
    }

    // How many stores there are.
    pub(crate) fn count(&self) -> u64 {
        self.work.count()
    }

    // Whether all of them are there.
    pub(crate) fn is_whole(&self) -> bool {
        let count = self.count() as usize;
        count <= MOST
            && self
                .stores
                .iter()
                .take(count)
                .all(|store| store.sector.is_some())
    }

    // Writes all stores, up to the first that fails, with a flush after the last of each group. A flush comes first, so that what the
    // copies were read from has landed too.
    pub(crate) fn write(&self, image: &File, path: &[u8]) -> Result<(), Stopped> {
        flush(image, path, true)?;
        for (i, store) in self.stores.iter().enumerate().take(self.count() as usize) {
            if let Some(sector) = store.sector {
                write(image, path, sector, &store.bytes)?;
            }
            flush(image, path, self.work.flush_after(i as u64))?;
        }
        Ok(())
    }

    // Prints a line for each store; n is the record's length.
    pub(crate) fn print(&self, out: Stdout, n: u64) -> Printed {
        for (i, store) in self.stores.iter().enumerate().take(self.count() as usize) {
            print_store(out, self.work, i as u64, n, store)?;
        }
        Ok(())
    }

    // The status of what lists it.
    pub(crate) fn status(&self) -> Status {
        Status::unless(self.is_whole(), Status::Failed)
    }
}

// What a stored block says of its entries; where it clears one, which.
#[derive(Clone, Copy)]
struct EntryWords {
    fields: BlockFields,
    clears: bool,
}

impl Display for EntryWords {
    fn fmt<W: fmt::Write>(&self, f: &mut fmt::Formatter<W>) -> fmt::Result {
        let a = self.fields.a.is_some();
        let b = self.fields.b.is_some();
        match (a, b) {
            (false, false) => f.write_str("both entries unused"),
            (true, _) if self.clears => f.write_str("area b unused"),
            (false, _) if self.clears => f.write_str("area a unused"),
            _ => write!(f, "area {} used", AreaName(copy::newest(self.fields))),
        }
    }
}

// The part of a record of n bytes that a store holds, sector j of it.
#[derive(Clone, Copy)]
struct PartWords {
    n: u64,
    j: u64,
}

impl Display for PartWords {
    fn fmt<W: fmt::Write>(&self, f: &mut fmt::Formatter<W>) -> fmt::Result {
        let n = self.n;
        if n <= image::SECTOR {
            return write!(f, "record, {n} bytes");
        }
        let first = image::SECTOR.saturating_mul(self.j);
        let last = first.saturating_add(image::SECTOR).min(n).saturating_sub(1);
        write!(f, "record, bytes {first} to {last}")
    }
}

// Prints the line of a store; n is the record's length.
fn print_store(out: Stdout, work: Work, i: u64, n: u64, store: &Store) -> Printed {
    let group = work.group(i);
    let sector = store.sector.unwrap_or(0);
    if work.holds_record(group) {
        let part = PartWords { n, j: work.part(i) };
        return print(
            out,
            format_args!("store {i} group {group} sector {sector} {part}\n"),
        );
    }
    match block::read(&store.bytes) {
        Ok(b) => {
            let entries = EntryWords {
                fields: b.fields,
                clears: work.clears_entry(group),
            };
            print(
                out,
                format_args!("store {i} group {group} sector {sector} block, {entries}\n"),
            )
        }
        Err(_) => print(
            out,
            format_args!("store {i} group {group} sector {sector} block\n"),
        ),
    }
}
