// After the stores: what is found is read back from the drive and printed. Assumes what `io` and `std` do.
use crate::copies::Look;
use crate::image::Drive;
use crate::say::{Printed, note, print};
use crate::statuses::Status;
use crate::storing::List;
use crate::{copies, facts};
use block::Time;
use discovery::Examined;
use std::fmt::Display;

// What has to be found afterwards: anything, or a record, of a time where one is given, with both copies in step on it.
#[derive(Clone, Copy)]
pub(crate) enum Expected {
    Anything,
    InStep(Option<Time>),
}

// Whether discovery found what was to be found.
fn is_right(v: Examined, e: Expected) -> bool {
    match (e, v.answer) {
        (Expected::Anything, _) => true,
        (Expected::InStep(_), Err(_)) => false,
        (Expected::InStep(None), Ok(_)) => v.step,
        (Expected::InStep(Some(t)), Ok(found)) => {
            v.step && facts::record_time(found.finding) == t
        }
    }
}

// Prints what discovery answered for the copies that were read back.
fn print_state(look: Look<'_>, identity: bool, v: Examined) -> Printed {
    if let Err(n) = v.answer {
        facts::refuse_found(look, n);
        return Ok(());
    }
    facts::print_answer(look)?;
    if identity {
        facts::print_identity(look)?;
    }
    Ok(())
}

// Reads the copies from the drive again and prints what is found. The command's program in C lets go of what is kept of the image in
// memory with each flush, so that it is read from the device.
fn read_back(path: &[u8], drive: Drive<'_>, identity: bool, e: Expected) -> Status {
    let mut front = copies::BLANK;
    let mut back = copies::BLANK;
    let places = copies::read(drive.image, &mut front, &mut back);
    let look = copies::known(path, drive, places, &front, &back);
    copies::note_unread(look);
    let v = discovery::examine(look.copies());
    let printed = print_state(look, identity, v);
    let good = look.sure && is_right(v, e);
    if !good {
        note(
            path,
            "read back: not what was stored, or not in step; look with check",
        );
    }
    Status::printed(printed).max(Status::unless(good, Status::Failed))
}

// Prints what is found after stores that all went well.
pub(crate) fn report(path: &[u8], drive: Drive<'_>, identity: bool, t: Option<Time>) -> Status {
    read_back(path, drive, identity, Expected::InStep(t))
}

// Prints what is found after a store that failed.
pub(crate) fn report_failed(path: &[u8], drive: Drive<'_>) -> Status {
    read_back(path, drive, false, Expected::Anything);
    note(
        path,
        "what is found now is in force; look with check, then mend",
    );
    Status::Failed
}

// Prints what is found after a backup was restored, which need not have been in step.
pub(crate) fn restored(path: &[u8], drive: Drive<'_>) -> Status {
    read_back(path, drive, false, Expected::Anything)
}

// Prints that all was stored; where that fails, says so on standard error.
pub(crate) fn said<T: Display + Drop>(path: &[u8], drive: Drive<'_>, text: T) -> Status {
    let printed = print(drive.out, text);
    if printed.is_err() {
        note(path, "all was stored");
    }
    Status::printed(printed)
}

// Writes the stores of a list, says so with a first word, and prints what is then found: a record of a time, where one is given.
pub(crate) fn carried_out(look: Look<'_>, list: &List, first: &str, t: Option<Time>) -> Status {
    let path = look.path;
    let drive = look.drive;
    if list.write(drive.image, path).is_err() {
        return report_failed(path, drive);
    }
    let said = said(
        path,
        drive,
        format_args!("{first}: {} stores\n", list.count()),
    );
    said.max(report(path, drive, false, t))
}
