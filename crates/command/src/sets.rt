// A set of sectors in memory: both copies, 80 entries, each the sector's number, its mark and its 512 bytes. Formatting and
// restoring write one to the drive, a backup keeps one in a file, whose bytes it is. Assumes what `io` and `std` do.
use crate::copies::Copied;
use crate::say::{Printed, print};
use crate::storing::Stopped;
use crate::{copies, storing};
use layout::{Device, Side};
use std::fmt;
use std::fmt::Display;
use std::fs::File;
use std::io::Stdout;

// Entries, the bytes of one, and the bytes of a set.
pub(crate) const ENTRIES: usize = 2 * copies::SECTORS;

const STRIDE: usize = 16 + layout::SECTOR_BYTES;

pub(crate) const BYTES: usize = ENTRIES * STRIDE;

// The entries of the two blocks.
pub(crate) const FRONT_BLOCK: usize = 1;

pub(crate) const BACK_BLOCK: usize = copies::SECTORS + 1;

// The side and the number of the sector that an entry has.
fn place(k: usize) -> (Side, usize) {
    match k.checked_sub(copies::SECTORS) {
        None => (Side::Front, k),
        Some(i) => (Side::Back, i),
    }
}

// The sector of an entry on a device.
fn sector_on(d: Device, k: usize) -> u64 {
    let (side, i) = place(k);
    sectors::sector_at(side, d, i)
}

// Fills entry k of the set of two copies of a device.
fn put_entry(entry: &mut [u8], k: usize, d: Device, front: &Copied, back: &Copied) {
    let (side, i) = place(k);
    let copy = match side {
        Side::Front => front,
        Side::Back => back,
    };
    endian::write_u64(entry, 0, sector_on(d, k));
    endian::write_u64(entry, 8, copy.mark(i));
    endian::put(entry, 16, copy.sector(i));
}

// The set of both copies of a device: the front's sectors, then the back's.
pub(crate) fn fill(set: &mut [u8], d: Device, front: &Copied, back: &Copied) {
    for (k, entry) in set.chunks_exact_mut(STRIDE).enumerate() {
        put_entry(entry, k, d, front, back);
    }
}

// An entry of a set, by its number.
fn entry(set: &[u8], k: usize) -> &[u8] {
    set.chunks_exact(STRIDE).nth(k).unwrap_or(&[])
}

// The sector of an entry, its bytes, and whether they were read.
fn sector_of(entry: &[u8]) -> u64 {
    endian::read_u64(entry, 0)
}

fn bytes_of(entry: &[u8]) -> &[u8] {
    endian::window(entry, 16, layout::SECTOR_BYTES)
}

fn was_read(entry: &[u8]) -> bool {
    endian::read_u64(entry, 8) == 0
}

// The bytes of an entry, by its number.
pub(crate) fn bytes_at(set: &[u8], k: usize) -> &[u8] {
    bytes_of(entry(set, k))
}

// Fills a copy with the bytes of a side's entries.
pub(crate) fn read_copy(set: &[u8], side: Side, copy: &mut [u8]) {
    let first = match side {
        Side::Front => 0,
        Side::Back => copies::SECTORS,
    };
    let sectors = copy.chunks_exact_mut(layout::SECTOR_BYTES);
    for (sector, entry) in sectors.zip(set.chunks_exact(STRIDE).skip(first)) {
        endian::put(sector, 0, bytes_of(entry));
    }
}

// Whether each entry's sector is the one that a device with these numbers has there.
pub(crate) fn placed(set: &[u8], d: Device) -> bool {
    set.chunks_exact(STRIDE)
        .enumerate()
        .all(|(k, entry)| sector_of(entry) == sector_on(d, k))
}

// Writes a set to the drive, in the order of formatting's stores, each entry that was read, with a flush where one is due, up to the
// first write or flush that fails.
pub(crate) fn write_all(image: &File, path: &[u8], set: &[u8]) -> Result<(), Stopped> {
    // the library says by its number what a step is
    for step in 0..ENTRIES as u64 {
        let entry = entry(set, format::position(step));
        if was_read(entry) {
            storing::write(image, path, sector_of(entry), bytes_of(entry))?;
        }
        storing::flush(image, path, format::flush(step))?;
    }
    Ok(())
}

// How many entries were read.
pub(crate) fn count(set: &[u8]) -> usize {
    set.chunks_exact(STRIDE)
        .filter(|entry| was_read(entry))
        .count()
}

// A number of sectors.
#[derive(Clone, Copy)]
pub(crate) struct Sectors(pub usize);

impl Display for Sectors {
    fn fmt<W: fmt::Write>(&self, f: &mut fmt::Formatter<W>) -> fmt::Result {
        write!(f, "{} sectors", self.0)
    }
}

// Prints the first line of a word that writes a set.
pub(crate) fn print_count(out: Stdout, n: usize) -> Printed {
    print(out, format_args!("{} to write\n", Sectors(n)))
}
