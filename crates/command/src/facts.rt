// What is printed of a drive by more than one word: what discovery found, whose pool it is, and what is wrong.
// Assumes what `io` and `std` do.
use crate::copies;
use crate::copies::Look;
use crate::say::{Lost, Printed, note, print, put};
use crate::sentences::{
    AreaName, Before, HoldingWords, Name, RecordRefusal, RefusalWords, TornWords, number_of,
    text_of,
};
use crate::statuses::Status;
use block::{BlockFields, Holding, Reading, Time};
use copy::Present;
use discovery::{Copies, Finding, Found};
use layout::{Area, Side};
use refusal::Reason;
use std::fmt;
use std::fmt::Display;
use std::io::Stdout;

// A copy's later entry, where its area is not whole.
#[derive(Clone, Copy)]
pub(crate) struct Torn {
    pub area: Area,
    pub holding: Holding,
}

// The time of a found record.
pub(crate) fn record_time(r: Finding) -> Time {
    Time {
        seconds: r.seconds,
        nanoseconds: r.nanoseconds,
    }
}

// A copy's later entry, where its area is not whole and it is later than t.
fn later_torn(c: &[u8], t: Time) -> Option<Torn> {
    let q = copy::read_present(c).ok()?;
    torn_in(q.block.fields, q.present, t)
}

// The same of a copy with an accepted block, by its fields and its present record.
pub(crate) fn torn_in(f: BlockFields, p: Option<Present>, t: Time) -> Option<Torn> {
    let area = copy::newest(f);
    let holding = copy::entry_in(f, area)?;
    if copy::current(f, p) || block::time_of(holding) <= t {
        return None;
    }
    Some(Torn { area, holding })
}

// Says of a side that a newer record than the one found was stored there and is torn: what a cut leaves is never so, so the drive has
// lost it.
fn note_torn(look: Look<'_>, loud: bool, side: Side, t: Time) {
    let Some(torn) = later_torn(&look.copy(side).bytes, t) else {
        return;
    };
    let words = TornWords {
        name: Name::from(side),
        area: torn.area,
        holding: torn.holding,
    };
    if loud {
        note(look.path, format_args!("WARNING: {words}"));
    } else {
        note(look.path, words);
    }
}

// The same of both sides, where their areas were read.
pub(crate) fn note_lost(look: Look<'_>, loud: bool, t: Time) {
    if look.sure {
        note_torn(look, loud, Side::Front, t);
        note_torn(look, loud, Side::Back, t);
    }
}

// The time of the found record; 0 where none is found, and as such it is printed, so that it is no Option.
pub(crate) fn found_time(c: Copies<'_>) -> Time {
    match discovery::discover(c) {
        Ok(found) => record_time(found.finding),
        Err(_) => Time {
            seconds: 0,
            nanoseconds: 0,
        },
    }
}

// Says that a word stopped before its first store; its status.
pub(crate) fn nothing_stored(path: &[u8]) -> Status {
    note(path, "nothing was stored");
    Status::Failed
}

// A refusal, on standard error; its status.
pub(crate) fn refuse(path: &[u8], n: Reason) -> Status {
    note(path, RefusalWords(n));
    Status::Refused
}

// The same, of a refusal of the record r.
pub(crate) fn refuse_record(path: &[u8], n: Reason, r: &[u8]) -> Status {
    note(path, RecordRefusal(n, r));
    Status::Refused
}

// Says of an image in which no block is accepted that it is shorter than any pool, where it is.
pub(crate) fn note_short(look: Look<'_>) {
    if look.device.is_none() && look.sectors < layout::LEAST_SECTORS {
        note(
            look.path,
            format_args!(
                "no pool is found; the image has {} sectors, and a pool takes {} (1 GiB) at least",
                look.sectors,
                layout::LEAST_SECTORS
            ),
        );
    }
}

// A refusal by discovery: where no block is accepted in an image that is shorter than any pool, that is said.
pub(crate) fn refuse_found(look: Look<'_>, n: Reason) -> Status {
    note_short(look);
    refuse(look.path, n)
}

// Reads the found record to the start of out; it is lent with what was found.
pub(crate) fn read_found(look: Look<'_>, out: &mut [u8]) -> Result<Found, Reason> {
    discovery::read_found(look.copies(), out)
}

// Reads the found record to the start of out; its bytes, none where none is found.
pub(crate) fn found_record<'a>(look: Look<'_>, out: &'a mut [u8]) -> &'a [u8] {
    let length = read_found(look, out).map_or(0, |found| found.finding.bytes as usize);
    endian::window(out, 0, length)
}

// Says that the found record r is not accepted, where it is refused.
pub(crate) fn note_record(path: &[u8], checked: Result<(), Reason>, r: &[u8]) {
    if let Err(n) = checked {
        note(
            path,
            format_args!("the record is not accepted: {}", RecordRefusal(n, r)),
        );
    }
}

// Says that the copies are not in step, where they are sure.
pub(crate) fn note_step(look: Look<'_>, step: bool) {
    if look.sure && !step {
        note(
            look.path,
            "the copies are not in step; keep them with backup, then mend",
        );
    }
}

// What is wrong with a drive whose record was found, as notes.
pub(crate) fn note_state(look: Look<'_>, step: bool, t: Time) {
    note_lost(look, false, t);
    note_step(look, step);
    let mut bytes = [0u8; copies::RECORD];
    let r = found_record(look, &mut bytes);
    note_record(look.path, record::check(look.numbers(), r), r);
}

// The last field of the line for what is found.
#[derive(Clone, Copy)]
pub(crate) struct OtherWords {
    pub other: Result<BlockFields, Reason>,
    pub unread: bool,
}

impl Display for OtherWords {
    fn fmt<W: fmt::Write>(&self, f: &mut fmt::Formatter<W>) -> fmt::Result {
        if self.unread {
            return f.write_str("unread");
        }
        match self.other {
            Ok(_) => f.write_str("both"),
            Err(n) => write!(f, "{}", number_of(n)),
        }
    }
}

// Prints the line for a record that may not be the newest.
fn print_perhaps(out: Stdout, found: Found, unread: bool) -> Printed {
    let r = found.finding;
    let other = found.other;
    print(
        out,
        format_args!(
            "perhaps {} {} {} {} {} {}\n",
            Name::from(r.side),
            AreaName(r.area),
            r.bytes,
            r.seconds,
            r.nanoseconds,
            OtherWords { other, unread }
        ),
    )
}

// Prints the line for what discovery answers: the dump's, where all that matters was read.
pub(crate) fn print_answer(look: Look<'_>) -> Printed {
    let out = look.drive.out;
    if look.sure {
        let mut line = [0u8; dump_line::LINE_BYTES];
        return match dump_line::line(look.copies(), &mut line) {
            Ok(length) => put(out, endian::window(&line, 0, length)),
            Err(_) => Err(Lost),
        };
    }
    match discovery::discover(look.copies()) {
        Ok(found) => print_perhaps(out, found, look.lacks_block()),
        Err(_) => Ok(()),
    }
}

// Prints the identity that an accepted block says, each line behind the name of its copy, where that is given.
pub(crate) fn print_block(out: Stdout, name: Option<Name>, b: Reading) -> Printed {
    let before = Before(name);
    let d = b.fields.device;
    print(out, format_args!("{before}pool {}\n", text_of(&b.pool)))?;
    print(
        out,
        format_args!("{before}device {}\n", text_of(&b.blockdev)),
    )?;
    print(
        out,
        format_args!(
            "{before}sectors {} metadata {} reserved {}\n",
            d.sectors, d.metadata, d.reserved
        ),
    )
}

// The block of the first copy whose block is accepted.
pub(crate) fn first_block(c: Copies<'_>) -> Result<Reading, Reason> {
    block::read(copy::block_in(c.front)).or_else(|_| block::read(copy::block_in(c.back)))
}

// Prints the identity of the pool.
pub(crate) fn print_identity(look: Look<'_>) -> Printed {
    match first_block(look.copies()) {
        Ok(b) => print_block(look.drive.out, None, b),
        Err(_) => Ok(()),
    }
}

// An area of a copy whose block is accepted: its entry, whether what it uses was read, and whether that is whole.
#[derive(Clone, Copy)]
pub(crate) struct AreaState {
    pub area: Area,
    pub entry: Option<Holding>,
    pub read: bool,
    pub whole: bool,
}

// The state of an area that its entry uses: whole, torn, or not read.
fn state(a: AreaState) -> &'static str {
    match (a.read, a.whole) {
        (false, _) => "unread",
        (true, true) => "whole",
        (true, false) => "torn",
    }
}

// Prints an area of a copy whose block is accepted, and whether it is torn and later than the record that is found.
pub(crate) fn print_area(out: Stdout, name: Name, a: AreaState, found: Option<Time>) -> Printed {
    let area = AreaName(a.area);
    let Some(h) = a.entry else {
        return print(out, format_args!("{name} {area} unused\n"));
    };
    let later = found.is_some_and(|t| t < block::time_of(h));
    let rest = if later && !a.whole {
        ", later than what is found"
    } else {
        ""
    };
    print(
        out,
        format_args!("{name} {area} {} {}{rest}\n", state(a), HoldingWords(h)),
    )
}

// Prints that a copy's block is accepted.
pub(crate) fn print_accepted(out: Stdout, name: Name) -> Printed {
    print(out, format_args!("{name} block accepted\n"))
}

// Prints that a copy's block was not read, or is refused, and that nothing is known of the areas.
pub(crate) fn print_unread(out: Stdout, name: Name) -> Printed {
    print(out, format_args!("{name} block unread\n"))?;
    print_unknown(out, name)
}

pub(crate) fn print_refused(out: Stdout, name: Name, n: Reason) -> Printed {
    print(out, format_args!("{name} block {}\n", RefusalWords(n)))?;
    print_unknown(out, name)
}

fn print_unknown(out: Stdout, name: Name) -> Printed {
    print(out, format_args!("{name} a unknown\n"))?;
    print(out, format_args!("{name} b unknown\n"))
}
