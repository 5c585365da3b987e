// Lines on standard output and standard error, and transfers that take more than one call. Assumes what `io` and `std` do.
use std::fmt;
use std::fmt::{Display, InlineText};
use std::io::{Error, ErrorKind, Print, Read, Stdout};

// How often one transfer is taken up again, after a call that moved a part or that a signal interrupted.
pub(crate) const TURNS: u64 = 100000;

// The number of the error of a call that a signal interrupted.
const INTERRUPTED: i32 = 4;

// The descriptor of standard error.
const ERRORS: i32 = 2;

// A line in the making: none is longer.
pub(crate) type Line = InlineText<256>;

// Not everything was printed. Where standard output failed, that was said.
#[derive(Clone, Copy)]
pub(crate) struct Lost;

pub(crate) type Printed = Result<(), Lost>;

// Why a transfer ended before all was moved: a call moved nothing, after so many bytes; each call was interrupted; or one failed.
#[derive(Drop)]
pub(crate) enum Short {
    Ended(usize),
    Interrupted,
    Failed(Error),
}

// The number of an error; 0 where it has none.
#[derive(Clone, Copy, PartialEq, Eq)]
pub(crate) struct ErrorNumber(pub u64);

impl ErrorNumber {
    pub(crate) fn of(e: &Error) -> ErrorNumber {
        ErrorNumber(
            e.raw_os_error()
                .map_or(0, |n| u64::try_from(n).unwrap_or(0)),
        )
    }
}

// The words for an error number.
impl Display for ErrorNumber {
    fn fmt<W: fmt::Write>(&self, f: &mut fmt::Formatter<W>) -> fmt::Result {
        // the system's numbers, of which there are more than these
        match self.0 {
            1 => f.write_str("Operation not permitted"),
            4 => f.write_str("Interrupted system call"),
            5 => f.write_str("Input/output error"),
            9 => f.write_str("Bad file descriptor"),
            11 => f.write_str("Resource temporarily unavailable"),
            21 => f.write_str("Is a directory"),
            27 => f.write_str("File too large"),
            28 => f.write_str("No space left on device"),
            30 => f.write_str("Read-only file system"),
            32 => f.write_str("Broken pipe"),
            n => write!(f, "error {n}"),
        }
    }
}

// The error of a call that was interrupted each time that it was tried.
pub(crate) fn given_up() -> Error {
    Error::from_raw_os_error(INTERRUPTED)
}

// Whether a call that failed so is to be tried again: a signal interrupted it.
pub(crate) fn interrupted(e: &Error) -> bool {
    e.kind() == ErrorKind::Interrupted
}

// Moves so many bytes by as many calls as that takes; each is told how many were moved before it.
pub(crate) fn transfer<F: FnMut(usize) -> Result<usize, Error>>(
    bytes: usize,
    mut call: F,
) -> Result<(), Short>
    requires { F.IsAlwaysCallable call }
{
    let mut done = 0usize;
    // a count, since a call may be interrupted without end
    for _ in 0..TURNS {
        if bytes <= done {
            return Ok(());
        }
        match call(done) {
            Ok(0) => return Err(Short::Ended(done)),
            Ok(more) => done = done.saturating_add(more),
            Err(e) => {
                if !interrupted(&e) {
                    return Err(Short::Failed(e));
                }
            }
        }
    }
    if bytes <= done {
        return Ok(());
    }
    Err(Short::Interrupted)
}

// Writes all of s to standard output.
fn write_all(to: Stdout, s: &[u8]) -> Result<(), ErrorNumber> {
    let moved = transfer(s.len(), |done| {
        to.write_some(s.get(done..).unwrap_or(&[]))
    });
    match moved {
        Ok(()) => Ok(()),
        Err(Short::Ended(_)) => Err(ErrorNumber(0)),
        Err(Short::Interrupted) => Err(ErrorNumber::of(&given_up())),
        Err(Short::Failed(e)) => Err(ErrorNumber::of(&e)),
    }
}

// Reads until out is full or the file ends; how many bytes, or the error of a read that failed.
pub(crate) fn read_all<F: Read>(file: &mut F, out: &mut [u8]) -> Result<usize, Error> {
    let bytes = out.len();
    let moved = transfer(bytes, |done| {
        file.read(out.get_mut(done..).unwrap_or(&mut []))
    });
    match moved {
        Ok(()) => Ok(bytes),
        Err(Short::Ended(done)) => Ok(done),
        Err(Short::Interrupted) => Err(given_up()),
        Err(Short::Failed(e)) => Err(e),
    }
}

// Bytes on standard error. Where that fails there is nobody to tell.
pub(crate) fn complain(s: &[u8]) {
    io::write_all(ERRORS, s);
}

// The same of a text.
pub(crate) fn complain_text<T: Display + Drop>(text: T) {
    let line: Line = InlineText::of(text);
    complain(line.as_str().as_bytes());
}

// A line on standard error about the image, or another file, at a path.
pub(crate) fn note<T: Display + Drop>(path: &[u8], text: T) {
    complain(path);
    complain(b": ");
    complain_text(format_args!("{text}\n"));
}

// A line on standard error about a file at a path: the words of the error of a call that failed, without its number.
pub(crate) fn fail(path: &[u8], e: Error) {
    let all: InlineText<96> = InlineText::of(e);
    let text = all.as_str();
    let words = text
        .split_once(" (os error ")
        .map_or(text, |(words, _)| words);
    complain(path);
    complain(b": ");
    complain(words.as_bytes());
    complain(b"\n");
}

// Bytes on standard output. What cannot be written is said.
pub(crate) fn put(to: Stdout, s: &[u8]) -> Printed {
    match write_all(to, s) {
        Ok(()) => Ok(()),
        Err(e) => {
            complain_text(format_args!("amseokbin: standard output could not be written: {e}\n"));
            Err(Lost)
        }
    }
}

// The same of a text.
pub(crate) fn print<T: Display + Drop>(to: Stdout, text: T) -> Printed {
    let line: Line = InlineText::of(text);
    put(to, line.as_str().as_bytes())
}
