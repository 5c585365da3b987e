// The word `check`: each copy, each of the four areas, what discovery finds, whether the copies are in step, and what mending would
// do. Only reads. Assumes what `io` and `std` do.
use crate::copies::{Copied, Look};
use crate::facts::AreaState;
use crate::repair::Summary;
use crate::say::{Printed, print};
use crate::sentences::{HeadWords, Name, RecordRefusal, YesNo};
use crate::statuses::Status;
use crate::{copies, facts};
use block::{BlockFields, Time};
use layout::{Area, Side};
use refusal::Reason;
use std::io::Stdout;

// An area of a copy whose block is accepted.
fn area_state(c: &Copied, f: BlockFields, area: Area, whole: bool) -> AreaState {
    let entry = copy::entry_in(f, area);
    let read = entry.is_none_or(|h| c.is_area_read(area, h.bytes));
    AreaState {
        area,
        entry,
        read,
        whole,
    }
}

// Prints a copy: its block and both areas.
fn print_copy(out: Stdout, name: Name, c: &Copied, found: Option<Time>) -> Printed {
    if !c.is_block_read() {
        return facts::print_unread(out, name);
    }
    match copy::read(&c.bytes) {
        Err(n) => facts::print_refused(out, name, n),
        Ok(q) => {
            let f = q.block.fields;
            facts::print_accepted(out, name)?;
            facts::print_area(out, name, area_state(c, f, Area::A, q.a), found)?;
            facts::print_area(out, name, area_state(c, f, Area::B, q.b), found)
        }
    }
}

// Prints whether the found record r is accepted, and how many segments and which head it has.
fn print_record(look: Look<'_>, checked: Result<(), Reason>, r: &[u8]) -> Printed {
    let out = look.drive.out;
    if let Err(n) = checked {
        return print(out, format_args!("record {}\n", RecordRefusal(n, r)));
    }
    let count = record::read_count(look.numbers(), r).unwrap_or(0);
    print(out, format_args!("record accepted, {count} segments\n"))?;
    let head = HeadWords(items::head_of(r));
    print(out, format_args!("head {head}\n"))
}

// Prints whether the copies are in step, and what a mend would do. Where a sector that matters was not read, neither is known.
fn print_step(look: Look<'_>, step: bool) -> Printed {
    let out = look.drive.out;
    if !look.sure {
        return print(
            out,
            "in step unknown\nmend nothing without the word unreadable\n",
        );
    }
    let summary = Summary(mend::work_out(look.copies()));
    print(
        out,
        format_args!("in step {}\nmend {summary}\n", YesNo(step)),
    )
}

// Prints both copies.
fn print_copies(look: Look<'_>, found: Option<Time>) -> Printed {
    print_copy(look.drive.out, Name::from(Side::Front), look.front, found)?;
    print_copy(look.drive.out, Name::from(Side::Back), look.back, found)
}

// Prints all that is known of two copies in which no record is found.
fn print_none(look: Look<'_>) -> Printed {
    print_copies(look, None)?;
    print_step(look, false)
}

// Prints all that is known of two copies in which the record r was found.
fn print_found(
    look: Look<'_>,
    step: bool,
    t: Time,
    checked: Result<(), Reason>,
    r: &[u8],
) -> Printed {
    print_copies(look, Some(t))?;
    facts::print_answer(look)?;
    print_record(look, checked, r)?;
    print_step(look, step)
}

// The same, with what is wrong on standard error.
fn check_found(look: Look<'_>, step: bool, t: Time) -> Status {
    let mut bytes = [0u8; copies::RECORD];
    let r = facts::found_record(look, &mut bytes);
    let checked = record::check(look.numbers(), r);
    let printed = print_found(look, step, t, checked, r);
    facts::note_lost(look, true, t);
    facts::note_step(look, step);
    facts::note_record(look.path, checked, r);
    Status::unless(step && checked.is_ok(), Status::Refused).max(Status::printed(printed))
}

pub(crate) fn run(look: Look<'_>) -> Status {
    let examined = discovery::examine(look.copies());
    let status = match examined.answer {
        Err(n) => {
            let printed = print_none(look);
            facts::refuse_found(look, n).max(Status::printed(printed))
        }
        Ok(found) => check_found(look, examined.step, facts::record_time(found.finding)),
    };
    look.status().max(status)
}
