// The word `format`: two new copies, with a record that has no segments. Without `replace` only on a drive whose two ends are
// readable and zero. Assumes what `io` and `std` do.
ghost use Rattle.std.specs.Prelude.{◌≤◌};

use crate::copies::Copied;
use crate::image::{Drive, Fault};
use crate::say::note;
use crate::sentences::number_of;
use crate::sets::Sectors;
use crate::statuses::Status;
use crate::{after, copies, facts, image, sets};
use block::Time;
use items::Head;
use layout::Device;
use refusal::Reason;
use std::fs::File;

// What is asked for, beside the image.
#[derive(Clone, Copy)]
pub(crate) struct Wanted {
    pub metadata: u64,
    pub reserved: u64,
    pub block: u64,
    pub mark: Option<u32>,
    pub replace: bool,
    pub dry: bool,
    pub now: Time,
    pub pool: [u8; 32],
    pub device: [u8; 32],
}

// The first sector that is not zero, or from which on sectors cannot be read, and why not.
#[derive(Clone, Copy)]
struct Occupied {
    sector: u64,
    fault: Option<Fault>,
}

// How many sectors are looked at at once, where so many are left, and their bytes.
const STRIDE: u64 = 128;

const STRIDE_BYTES: usize = STRIDE as usize * layout::SECTOR_BYTES;

// What a read of bytes from a sector on says.
fn seen(read: Result<(), Fault>, sector: u64, s: &[u8]) -> Result<(), Occupied> {
    if let Err(fault) = read {
        return Err(Occupied {
            sector,
            fault: Some(fault),
        });
    }
    match s.iter().position(|x| *x != 0) {
        None => Ok(()),
        Some(at) => Err(Occupied {
            sector: sector.saturating_add(at as u64 / image::SECTOR),
            fault: None,
        }),
    }
}

// Looks at so many bytes from a sector on.
fn look_at<const BYTES: usize>(image: &File, sector: u64) -> Result<(), Occupied>
    requires { BYTES ≤ 65536 }
{
    let mut s = [0u8; BYTES];
    let read = image::read(image, sector, &mut s);
    seen(read, sector, &s)
}

// Looks at the sectors from first up to, not including, end: at as many as fit at once, then at each of the rest.
fn look_through(image: &File, first: u64, end: u64) -> Result<(), Occupied> {
    let strides = end.saturating_sub(first) / STRIDE;
    // counted, since a range by steps is not proved alone
    for i in 0..strides {
        look_at::<STRIDE_BYTES>(image, first.saturating_add(STRIDE * i))?;
    }
    for sector in first.saturating_add(STRIDE * strides)..end {
        look_at::<{ layout::SECTOR_BYTES }>(image, sector)?;
    }
    Ok(())
}

// Whether the front's block is a pool's.
fn holds_pool(image: &File) -> bool {
    let mut s = [0u8; layout::SECTOR_BYTES];
    let read = image::read(image, 1, &mut s);
    read.is_ok() && block::read(&s).is_ok()
}

// What stands in the way of formatting.
fn there(pool: bool) -> &'static str {
    if pool {
        "a pool is there; show it, keep it with backup, or give the word replace"
    } else {
        "something is there; give the word replace to write over it"
    }
}

// Says why a drive is left alone.
fn refuse_occupied(image: &File, path: &[u8], z: Occupied) -> Status {
    let sector = z.sector;
    let Some(fault) = z.fault else {
        let there = there(holds_pool(image));
        note(path, format_args!("sector {sector} is not empty: {there}"));
        return Status::Refused;
    };
    // past the end by its number
    let reason = fault.error();
    note(
        path,
        format_args!("not done: the sectors from {sector} on cannot be read: {reason}"),
    );
    Status::Failed
}

// Whether the two ends of a device are readable and zero.
fn ends_empty(image: &File, d: Device) -> Result<(), Occupied> {
    look_through(image, 0, layout::data_start(d))?;
    look_through(image, layout::data_end(d), d.sectors)
}

// Writes two new copies and prints what is then found.
fn write(
    drive: Drive<'_>,
    path: &[u8],
    d: Device,
    w: Wanted,
    front: &Copied,
    back: &Copied,
) -> Status {
    let mut set = [0u8; sets::BYTES];
    sets::fill(&mut set, d, front, back);
    let count = sets::count(&set);
    if sets::print_count(drive.out, count).is_err() {
        return facts::nothing_stored(path);
    }
    if w.dry {
        return Status::Well;
    }
    if sets::write_all(drive.image, path, &set).is_err() {
        after::report_failed(path, drive);
        note(path, "not formatted; run it again with the word replace");
        return Status::Failed;
    }
    let said = after::said(path, drive, format_args!("formatted: {}\n", Sectors(count)));
    said.max(after::report(path, drive, true, Some(w.now)))
}

// The head of the new record: of kind 17 where a low water mark is asked for.
fn head_for(block: u32, mark: Option<u32>) -> Head {
    match mark {
        Some(mark) => Head::Marked(block, mark),
        None => Head::Plain(block),
    }
}

// Formats an open image, with a record that has this head and no segments.
fn make(drive: Drive<'_>, path: &[u8], d: Device, h: Head, w: Wanted) -> Status {
    let mut bytes = [0u8; items::MARKED_HEAD_BYTES];
    if let Err(n) = items::begin(&mut bytes, h) {
        let number = number_of(n);
        note(
            path,
            format_args!(
                "refused {number}: the block size has to be a multiple of 128 sectors, from 128 to 2097152"
            ),
        );
        return Status::Refused;
    }
    let r = endian::window(&bytes, 0, items::head_size(h));
    let mut front = copies::BLANK;
    let mut back = copies::BLANK;
    let made = format::format_copies(
        &mut front.bytes,
        &mut back.bytes,
        d,
        &w.pool,
        &w.device,
        w.now,
        r,
    );
    if let Err(n) = made {
        return facts::refuse_record(path, n, r);
    }
    if !w.replace {
        if let Err(z) = ends_empty(drive.image, d) {
            return refuse_occupied(drive.image, path, z);
        }
    }
    write(drive, path, d, w, &front, &back)
}

// The word `format`.
pub(crate) fn run(path: &[u8], drive: Drive<'_>, w: Wanted) -> Status {
    let Ok(metadata) = u32::try_from(w.metadata) else {
        return facts::refuse(path, Reason::MetadataSize);
    };
    let Ok(reserved) = u32::try_from(w.reserved) else {
        return facts::refuse(path, Reason::ReservedSize);
    };
    let d = Device {
        sectors: image::sectors(drive.image),
        metadata,
        reserved,
    };
    let block = u32::try_from(w.block).unwrap_or(0);
    make(drive, path, d, head_for(block, w.mark), w)
}
