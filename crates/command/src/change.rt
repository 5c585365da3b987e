// The words `update`, `allocate`, `release`, `head` and `mark`: a new record in place of the present one, by an update that survives
// a power cut. Assumes what `io` and `std` do.
use crate::copies::Look;
use crate::say::{note, print};
use crate::sentences::{HeadWords, NoMark, SegmentWords};
use crate::statuses::Status;
use crate::storing::{List, Work};
use crate::{after, copies, facts, files, say};
use block::Time;
use heads::Change;
use items::Head;
use refusal::Reason;
use segments::Segment;
use std::fmt;
use std::fmt::Display;
use std::io::Error;
use std::rt::Files;
use update::Plan;

// The time one nanosecond after t; t where there is none.
fn next_time(t: Time) -> Time {
    if t.nanoseconds < layout::MOST_NANOSECONDS {
        return Time {
            seconds: t.seconds,
            nanoseconds: t.nanoseconds + 1,
        };
    }
    match t.seconds.checked_add(1) {
        Some(seconds) => Time {
            seconds,
            nanoseconds: 0,
        },
        None => t,
    }
}

// The time of a new record: the clock's, or, where that is not later than the present record's, one nanosecond after it.
fn new_time(now: Time, present: Time) -> Time {
    if present < now {
        now
    } else {
        next_time(present)
    }
}

// Whether the copies can be changed at all: all that matters was read.
pub(crate) fn sure(look: Look<'_>) -> bool {
    if !look.sure {
        note(
            look.path,
            "not done: a sector that matters could not be read",
        );
    }
    look.sure
}

// How the record is changed: at what time, and whether its stores are only listed.
#[derive(Clone, Copy)]
pub(crate) struct Way {
    pub now: Time,
    pub dry: bool,
}

// What an update does to the record, as it is said before the number of its stores: a segment more at a position, one less, another
// head, or what a file has.
#[derive(Clone, Copy)]
enum Step {
    Adds(u64, Segment),
    Releases(u64, Segment),
    Head(Head),
    File,
}

impl Display for Step {
    fn fmt<W: fmt::Write>(&self, f: &mut fmt::Formatter<W>) -> fmt::Result {
        match self {
            Step::Adds(i, g) => write!(f, "segment {i} {}\n", SegmentWords(*g)),
            Step::Releases(i, g) => write!(f, "releases {i} {}\n", SegmentWords(*g)),
            Step::Head(h) => write!(f, "head {}\n", HeadWords(*h)),
            Step::File => Ok(()),
        }
    }
}

// The update that puts the record r in place of the present one, or its refusal, which is said.
fn planned(look: Look<'_>, now: Time, r: &[u8]) -> Result<Plan, Status> {
    let t = new_time(now, facts::found_time(look.copies()));
    match update::work_out(look.copies(), t, r) {
        Ok(p) => Ok(p),
        Err(n) => {
            facts::note_short(look);
            Err(facts::refuse_record(look.path, n, r))
        }
    }
}

// Puts a record in place of the present one, or lists the stores that would.
fn apply(look: Look<'_>, way: Way, step: Step, r: &[u8]) -> Status {
    let p = match planned(look, way.now, r) {
        Ok(p) => p,
        Err(status) => return status,
    };
    let list = List::of(Work::Change(p), look.copies(), r);
    let out = look.drive.out;
    let printed = print(out, format_args!("{step}{} stores\n", list.count()));
    if way.dry {
        let listed = printed.and_then(|()| list.print(out, r.len() as u64));
        return Status::printed(listed).max(list.status());
    }
    if printed.is_err() || !list.is_whole() {
        return facts::nothing_stored(look.path);
    }
    after::carried_out(look, &list, "updated", Some(block::time_of(p.entry)))
}

// Reads a file, up to as many bytes as out has; how many.
fn read_file<R: Files>(rt: &R, file: &[u8], out: &mut [u8]) -> Result<usize, Error> {
    let mut f = files::open(rt, file)?;
    say::read_all(&mut f, out)
}

// The word `update`.
pub(crate) fn update_word<R: Files>(rt: &R, look: Look<'_>, way: Way, file: &[u8]) -> Status {
    let mut bytes = [0u8; copies::RECORD + 1];
    let length = match read_file(rt, file, &mut bytes) {
        Ok(length) => length,
        Err(e) => {
            say::fail(file, e);
            return Status::Failed;
        }
    };
    if !sure(look) {
        return Status::Failed;
    }
    let r = endian::window(&bytes, 0, length);
    let status = apply(look, way, Step::File, r);
    if status == Status::Refused && record::check(look.numbers(), r).is_err() {
        note(file, "the record in it is not accepted");
    }
    status
}

// The word `allocate`, of a record that was found.
fn allocate_in(look: Look<'_>, way: Way, kind: u16, sectors: u64, r: &[u8]) -> Status {
    let mut out = [0u8; copies::RECORD];
    match allocation::allocate(look.numbers(), r, kind, sectors, &mut out) {
        Err(n) => facts::refuse_record(look.path, n, r),
        Ok(a) => {
            let g = Segment {
                kind,
                start: a.start,
                sectors,
            };
            let step = Step::Adds(items::count_of(r) as u64, g);
            apply(look, way, step, endian::window(&out, 0, a.length))
        }
    }
}

// The word `release`, of a record that was found.
fn release_in(look: Look<'_>, way: Way, position: u64, r: &[u8]) -> Status {
    let mut out = [0u8; copies::RECORD];
    match allocation::release(look.numbers(), r, position as usize, &mut out) {
        Err(n) => facts::refuse_record(look.path, n, r),
        Ok(length) => {
            let step = Step::Releases(position, items::segment_at(r, position as usize));
            apply(look, way, step, endian::window(&out, 0, length))
        }
    }
}

// The words `head` and `mark`, of a record that was found. Where the record stays as it is, that is said where an update could put
// another in its place.
fn head_in(look: Look<'_>, way: Way, change: Change, r: &[u8]) -> Status {
    let mut out = [0u8; copies::RECORD];
    let length = match heads::rewrite(look.numbers(), r, change, &mut out) {
        Ok(length) => length,
        Err(n) => return refused_head(look, n, r),
    };
    let s = endian::window(&out, 0, length);
    let step = Step::Head(items::head_of(s));
    if r != s {
        return apply(look, way, step, s);
    }
    match planned(look, way.now, s) {
        Ok(_) => Status::printed(print(
            look.drive.out,
            format_args!("{step}the same record: nothing to store\n"),
        )),
        Err(status) => status,
    }
}

// The refusal of another head for the record r. An accepted one is refused with 17 where its head has no low water mark.
fn refused_head(look: Look<'_>, n: Reason, r: &[u8]) -> Status {
    let accepted = record::check(look.numbers(), r).is_ok();
    if accepted && n == Reason::RecordForm {
        note(look.path, NoMark);
        return Status::Refused;
    }
    facts::refuse_record(look.path, n, r)
}

// What is asked of the record: a new segment of a kind and so many sectors, the one at a position given back, or another head.
#[derive(Clone, Copy)]
pub(crate) enum Wish {
    Allocate(u16, u64),
    Release(u64),
    Head(Change),
}

// The words `allocate`, `release`, `head` and `mark`.
pub(crate) fn wish_word(look: Look<'_>, way: Way, wish: Option<Wish>) -> Status {
    if !sure(look) {
        return Status::Failed;
    }
    let mut bytes = [0u8; copies::RECORD];
    let length = match facts::read_found(look, &mut bytes) {
        Ok(found) => found.finding.bytes as usize,
        Err(n) => return facts::refuse_found(look, n),
    };
    let r = endian::window(&bytes, 0, length);
    match wish {
        Some(Wish::Allocate(kind, sectors)) => allocate_in(look, way, kind, sectors, r),
        Some(Wish::Release(position)) => release_in(look, way, position, r),
        Some(Wish::Head(change)) => head_in(look, way, change, r),
        None => Status::Usage,
    }
}
