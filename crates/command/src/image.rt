// Sectors of an image that is an open file: read, written and flushed, each call checked. Assumes what `std` does.
use crate::say;
use crate::say::{ErrorNumber, Short};
use std::fmt;
use std::fs::File;
use std::io::{Error, Seek, SeekFrom, Stdout};
use std::os::unix::fs::FileExt;

// An open image, and standard output, where what is found in it is printed.
#[derive(Clone, Copy)]
pub(crate) struct Drive<'a> {
    pub image: &'a File,
    pub out: Stdout,
}

// Why a sector was not read or written, or the device not flushed: it lies past the image's end, or a call failed with an error.
#[derive(Clone, Copy, PartialEq, Eq)]
pub(crate) enum Fault {
    Ended,
    Failed(ErrorNumber),
}

// The number of a fault past the image's end. No error has it.
const ENDED: u64 = 255;

impl Fault {
    // A number in which 0 is no fault.
    pub(crate) fn number(self) -> u64 {
        match self {
            Fault::Ended => ENDED,
            Fault::Failed(e) => e.0,
        }
    }

    // The same as an error's number.
    pub(crate) fn error(self) -> ErrorNumber {
        ErrorNumber(self.number())
    }

    // The fault with a number.
    pub(crate) fn numbered(n: u64) -> Option<Fault> {
        match n {
            0 => None,
            ENDED => Some(Fault::Ended),
            _ => Some(Fault::Failed(ErrorNumber(n))),
        }
    }
}

// An error that has no number is one past the end.
impl From<Error> for Fault {
    fn from(e: Error) -> Fault {
        Fault::numbered(ErrorNumber::of(&e).0).unwrap_or(Fault::Ended)
    }
}

impl fmt::Display for Fault {
    fn fmt<W: fmt::Write>(&self, f: &mut fmt::Formatter<W>) -> fmt::Result {
        match self {
            Fault::Ended => f.write_str("past the image's end"),
            Fault::Failed(e) => write!(f, "{e}"),
        }
    }
}

// The bytes of a sector.
pub(crate) const SECTOR: u64 = layout::SECTOR_BYTES as u64;

// The last sector whose bytes, and the 65,536 after its first, a file's position can name.
const LAST: u64 = 18014398509481855;

// Where a sector begins in the image, and `done` bytes further on; nothing where no position names that.
fn place(sector: u64, done: usize) -> Option<u64> {
    if LAST < sector || 65535 < done {
        return None;
    }
    Some(sector * SECTOR + done as u64)
}

// How many whole sectors the image has; 0 where that cannot be told.
pub(crate) fn sectors(image: &File) -> u64 {
    let mut image = image;
    image.seek(SeekFrom::End(0)).map_or(0, |n| n / SECTOR)
}

// What became of a transfer.
fn moved(transfer: Result<(), Short>) -> Result<(), Fault> {
    match transfer {
        Ok(()) => Ok(()),
        Err(Short::Ended(_) | Short::Interrupted) => Err(Fault::Ended),
        Err(Short::Failed(e)) => Err(Fault::from(e)),
    }
}

// Reads from a sector on until out is full.
pub(crate) fn read(image: &File, sector: u64, out: &mut [u8]) -> Result<(), Fault> {
    moved(say::transfer(out.len(), |done| {
        match (place(sector, done), out.get_mut(done..)) {
            (Some(at), Some(rest)) => image.read_at(rest, at),
            _ => Ok(0),
        }
    }))
}

// Writes from a sector on.
pub(crate) fn write(image: &File, sector: u64, s: &[u8]) -> Result<(), Fault> {
    moved(say::transfer(s.len(), |done| {
        match (place(sector, done), s.get(done..)) {
            (Some(at), Some(rest)) => image.write_at(rest, at),
            _ => Ok(0),
        }
    }))
}

// Waits until what was written has reached the device. A call that a signal interrupts is tried again by `std`.
pub(crate) fn flush(image: &File) -> Result<(), Fault> {
    Ok(image.sync_all()?)
}
