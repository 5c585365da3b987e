// The words `record`, `dump`, `backup` and `restore`: bytes out of the drive, and back. A backup is a page of 512 bytes (its name,
// the image's sectors, the checksum of all the rest) and then the set of both copies. Assumes what `io` and `std` do.
use crate::copies::Look;
use crate::say::{complain, note, print, put};
use crate::sentences::DateWords;
use crate::sets::Sectors;
use crate::statuses::Status;
use crate::{after, change, copies, facts, files, say, sets};
use block::Reading;
use discovery::Copies;
use layout::Side;
use refusal::Reason;
use std::fs::OpenFile;
use std::io::{Error, IsTerminal, Read, Stdout, Write};
use std::rt::Files;

// The bytes of a backup's first page, and of all of it.
const PAGE: usize = 512;

const FILE: usize = PAGE + sets::BYTES;

// Where its checksum stands.
const CHECKSUM: usize = 40;

// What a backup begins with.
const TITLE: &[u8] = b"amseokbin backup 1\n";

// Whether standard output can take bytes that are no text: not where it is a terminal.
fn takes_bytes(out: Stdout) -> bool {
    if out.is_terminal() {
        complain(b"amseokbin: what is asked for is no text; send it to a file\n");
        return false;
    }
    true
}

// The word `record`: the present record's bytes.
pub(crate) fn record_word(look: Look<'_>) -> Status {
    let out = look.drive.out;
    if !takes_bytes(out) {
        return Status::Usage;
    }
    let mut bytes = [0u8; copies::RECORD];
    let status = match facts::read_found(look, &mut bytes) {
        Err(n) => facts::refuse_found(look, n),
        Ok(found) => {
            let r = endian::window(&bytes, 0, found.finding.bytes as usize);
            Status::printed(put(out, r))
        }
    };
    look.status().max(status)
}

// Whether the copies have places: a block is accepted.
fn placed(look: Look<'_>) -> bool {
    if look.device.is_none() {
        facts::refuse_found(look, Reason::NoBlock);
        return false;
    }
    true
}

// The word `dump`: both copies' bytes.
pub(crate) fn dump_word(look: Look<'_>) -> Status {
    let out = look.drive.out;
    if !takes_bytes(out) {
        return Status::Usage;
    }
    if !change::sure(look) {
        return Status::Failed;
    }
    if !placed(look) {
        return Status::Refused;
    }
    let front = put(out, &look.front.bytes);
    Status::printed(front.and_then(|()| put(out, &look.back.bytes)))
}

// Writes a backup to an open file, and waits until it has reached its device.
fn write_file<F: Write + OpenFile>(f: &mut F, bytes: &[u8]) -> Result<(), Error> {
    f.write_all(bytes)?;
    f.sync_all()
}

// The same, and closes the file; whether the backup has reached its device. Why not is said.
fn fill_file<F: Write + OpenFile + Drop>(f: F, file: &[u8], bytes: &[u8]) -> bool {
    let mut f = f;
    match write_file(&mut f, bytes) {
        Ok(()) => true,
        Err(e) => {
            say::fail(file, e);
            false
        }
    }
}

// Makes a file with these bytes; one that is there already is left alone, and one that could not be written whole is removed.
fn make_file<R: Files>(rt: &R, file: &[u8], bytes: &[u8]) -> bool {
    match files::create(rt, file) {
        Ok(f) => {
            let filled = fill_file(f, file, bytes);
            if !filled {
                files::remove(rt, file);
            }
            filled
        }
        Err(e) => {
            say::fail(file, e);
            false
        }
    }
}

// The checksum of a backup: of all its bytes but the four that have it, from CHECKSUM on.
fn checksum_of(all: &[u8]) -> u32 {
    let first = checksum::checksum(endian::window(all, 0, CHECKSUM));
    checksum::continued(first, endian::window(all, CHECKSUM + 4, FILE))
}

// Fills the page of a backup whose set stands in its place.
fn seal(all: &mut [u8], sectors: u64) {
    endian::put(all, 0, TITLE);
    endian::write_u64(all, 32, sectors);
    let sum = checksum_of(all);
    endian::write_u32(all, CHECKSUM, sum);
}

// The word `backup`: both copies into a new file.
pub(crate) fn backup_word<R: Files>(rt: &R, look: Look<'_>, file: &[u8]) -> Status {
    if !placed(look) {
        return look.status().max(Status::Refused);
    }
    let mut all = [0u8; FILE];
    sets::fill(&mut all[PAGE..], look.numbers(), look.front, look.back);
    seal(&mut all, look.sectors);
    if !make_file(rt, file, &all) {
        return Status::Failed;
    }
    let count = sets::count(&all[PAGE..]);
    let printed = print(look.drive.out, format_args!("saved: {}\n", Sectors(count)));
    let whole = count == sets::ENTRIES;
    if !whole {
        note(
            look.path,
            "the sectors that could not be read are not in the backup",
        );
    }
    Status::printed(printed).max(Status::unless(whole, Status::Failed))
}

// Reads an open file to out, and one byte more: whether out was filled and nothing more came.
fn fills<F: Read>(f: &mut F, out: &mut [u8]) -> Result<bool, Error> {
    let mut more = [0u8; 1];
    let length = say::read_all(f, out)?;
    Ok(f.read(&mut more)? == 0 && length == out.len())
}

// Opens a file and reads it so.
fn read_file<R: Files>(rt: &R, file: &[u8], out: &mut [u8]) -> Result<bool, Error> {
    let mut f = files::open(rt, file)?;
    fills(&mut f, out)
}

// Reads a file that is a backup by its size, its name and its checksum; what is wrong with it is said.
fn read_backup<R: Files>(rt: &R, file: &[u8], all: &mut [u8]) -> Result<(), Status> {
    match read_file(rt, file, all) {
        Err(e) => {
            say::fail(file, e);
            return Err(Status::Failed);
        }
        Ok(false) => {
            note(file, "is no backup: it has another size");
            return Err(Status::Refused);
        }
        Ok(true) => {}
    }
    if endian::window(all, 0, TITLE.len()) != TITLE
        || endian::read_u32(all, CHECKSUM) != checksum_of(all)
    {
        note(
            file,
            "is no backup, or is damaged: its name or its checksum differs",
        );
        return Err(Status::Refused);
    }
    Ok(())
}

// The first accepted block of a backup.
fn backup_block(set: &[u8]) -> Result<Reading, Reason> {
    block::read(sets::bytes_at(set, sets::FRONT_BLOCK)).or_else(|_| block::read(sets::bytes_at(
        set,
        sets::BACK_BLOCK,
    )))
}

// Whether the drive is of the backup's pool: both have an accepted block, of one pool and device.
fn is_same_pool(look: Look<'_>, backup: Result<Reading, Reason>) -> bool {
    match (backup, facts::first_block(look.copies())) {
        (Ok(a), Ok(b)) => discovery::same_uuids(a, b),
        _ => false,
    }
}

// Whether a backup may be written to the image: it is the same pool's, or it is told to replace what is there; and its sectors are those
// of its own copies, and lie within the image. Why not is said.
fn may_restore(look: Look<'_>, replace: bool, file: &[u8], set: &[u8]) -> Result<(), Status> {
    let block = backup_block(set);
    if !replace && !is_same_pool(look, block) {
        note(
            look.path,
            "has no accepted block of the backup's pool; give the word replace to write over it",
        );
        return Err(look.status().max(Status::Refused));
    }
    let Ok(b) = block else {
        note(file, "is no backup: neither of its blocks is accepted");
        return Err(Status::Refused);
    };
    let d = b.fields.device;
    if !sets::placed(set, d) {
        note(
            file,
            "is no backup: its sectors are not where its block says",
        );
        return Err(Status::Refused);
    }
    if look.sectors < d.sectors {
        note(
            look.path,
            "is shorter than the drive that the backup was made of",
        );
        return Err(Status::Refused);
    }
    Ok(())
}

// Says where the drive's record is newer than the backup's, and so is given up.
fn note_older(look: Look<'_>, set: &[u8]) {
    let mut front = [0u8; copies::BYTES];
    let mut back = [0u8; copies::BYTES];
    sets::read_copy(set, Side::Front, &mut front);
    sets::read_copy(set, Side::Back, &mut back);
    let t = facts::found_time(look.copies());
    let u = facts::found_time(Copies {
        front: &front,
        back: &back,
    });
    if u < t {
        note(
            look.path,
            format_args!(
                "gives up the drive's record of {} for the backup's of {}",
                DateWords(t),
                DateWords(u)
            ),
        );
    }
}

// Writes the set of a backup and prints what is then found.
fn restore_set(look: Look<'_>, dry: bool, set: &[u8]) -> Status {
    let path = look.path;
    let drive = look.drive;
    let count = sets::count(set);
    if count != sets::ENTRIES {
        note(
            path,
            "the backup lacks sectors that could not be read then; they stay as they are",
        );
    }
    if sets::print_count(drive.out, count).is_err() {
        return facts::nothing_stored(path);
    }
    if dry {
        return Status::Well;
    }
    if sets::write_all(drive.image, path, set).is_err() {
        return after::report_failed(path, drive);
    }
    let said = after::said(path, drive, format_args!("restored: {}\n", Sectors(count)));
    said.max(after::restored(path, drive))
}

// Reads a backup that may be restored to the image; else it is said why not.
fn backup_to_restore<R: Files>(
    rt: &R,
    look: Look<'_>,
    replace: bool,
    file: &[u8],
    all: &mut [u8],
) -> Result<(), Status> {
    read_backup(rt, file, all)?;
    may_restore(look, replace, file, endian::window(all, PAGE, sets::BYTES))
}

// The word `restore`: both copies as a backup has them.
pub(crate) fn restore_word<R: Files>(
    rt: &R,
    look: Look<'_>,
    dry: bool,
    replace: bool,
    file: &[u8],
) -> Status {
    let mut all = [0u8; FILE];
    if let Err(status) = backup_to_restore(rt, look, replace, file, &mut all) {
        return status;
    }
    let set = &all[PAGE..];
    note_older(look, set);
    restore_set(look, dry, set)
}
