// Files by their names: read, made and removed. `std` takes a name that is text; where the command line's is none, the name below stands for it, and
// command/main.c, which has the command line, puts the argument's own bytes in its place. Assumes what `std` does.
use std::fs;
use std::fs::OpenOptions;
use std::io::Error;
use std::rt::Files;

// In place of a name that is no text.
const NO_TEXT: &str = "the file whose name is no text";

// The name of a file as text.
fn name(file: &[u8]) -> &str {
    std::str::from_utf8(file).unwrap_or(NO_TEXT)
}

// Opens a file for reading.
pub(crate) fn open<R: Files>(rt: &R, file: &[u8]) -> Result<R::File, Error> {
    fs::open(rt, name(file))
}

// Makes a file; one that is there already is left alone.
pub(crate) fn create<R: Files>(rt: &R, file: &[u8]) -> Result<R::File, Error> {
    let mut how = OpenOptions::new();
    how.write(true).create_new(true);
    how.open(rt, name(file))
}

// Removes a file. Where that fails it stays.
pub(crate) fn remove<R: Files>(rt: &R, file: &[u8]) {
    let _ = fs::remove_file(rt, name(file));
}
