// The two copies of a drive's metadata, read sector by sector, with a mark for each sector that could not be read: `sectors` says
// which of them matter, and that what discovery answers does not depend on the others. Assumes what `io` and `std` do.
use crate::image;
use crate::image::{Drive, Fault};
use crate::say::note;
use crate::statuses::Status;
use discovery::Copies;
use layout::{Area, Device, Side};
use sectors::CopyRead;
use std::fs::File;

// The sectors of a header, the most bytes of a record, and the bytes and the sectors of a copy.
const HEADER: usize = layout::HEADER_SECTORS as usize;

pub(crate) const RECORD: usize = layout::RECORD_LIMIT as usize;

pub(crate) const BYTES: usize = layout::COPY_BYTES;

pub(crate) const SECTORS: usize = BYTES / layout::SECTOR_BYTES;

// What stands in place of a sector that was not read. `sectors` says that it does not matter where the copies are sure.
const FILLER: u8 = 0xa5;

// A copy as it was read: its bytes, and a mark for each sector, 0 where it was read, else the number of the fault. Bytes and marks are
// lent to the library as they are.
#[derive(Drop)]
pub(crate) struct Copied {
    pub bytes: [u8; BYTES],
    pub marks: [u8; SECTORS],
}

// A copy of which nothing was read.
pub(crate) const BLANK: Copied = Copied {
    bytes: [0; BYTES],
    marks: [0; SECTORS],
};

impl Copied {
    // As it is lent.
    pub(crate) fn lent(&self) -> CopyRead<'_> {
        CopyRead {
            bytes: &self.bytes,
            marks: &self.marks,
        }
    }

    // Whether its block was read.
    pub(crate) fn is_block_read(&self) -> bool {
        self.marks[1] == 0
    }

    // The block, where it was read and is accepted.
    fn block(&self) -> Option<block::Reading> {
        if !self.is_block_read() {
            return None;
        }
        block::read(copy::block_in(&self.bytes)).ok()
    }

    // The mark of a sector, by its number.
    pub(crate) fn mark(&self, i: usize) -> u64 {
        self.marks
            .get(i)
            .map_or(Fault::Ended.number(), |mark| *mark as u64)
    }

    // The bytes of a sector, by its number.
    pub(crate) fn sector(&self, i: usize) -> &[u8] {
        self.bytes
            .chunks_exact(layout::SECTOR_BYTES)
            .nth(i)
            .unwrap_or(&[])
    }

    // Whether the sectors that a record of so many bytes fills in an area were read.
    pub(crate) fn is_area_read(&self, x: Area, bytes: u32) -> bool {
        let first = layout::area_offset(x) / layout::SECTOR_BYTES;
        self.marks
            .get(first..)
            .and_then(|marks| marks.get(..stores::sectors(bytes) as usize))
            .is_some_and(|marks| marks.iter().all(|mark| *mark == 0))
    }
}

// What is known of an open image with a name: its sectors, the device numbers by which its copies were found (none where no block is
// accepted), whether all that matters to discovery was read, and its copies.
#[derive(Clone, Copy)]
pub(crate) struct Look<'a> {
    pub path: &'a [u8],
    pub drive: Drive<'a>,
    pub sectors: u64,
    pub device: Option<Device>,
    pub sure: bool,
    pub front: &'a Copied,
    pub back: &'a Copied,
}

impl<'a> Look<'a> {
    // The device numbers that records are checked by; by those of no device none is accepted.
    pub(crate) fn numbers(self) -> Device {
        self.device.unwrap_or(Device {
            sectors: 0,
            metadata: 0,
            reserved: 0,
        })
    }

    // The bytes of both copies.
    pub(crate) fn copies(self) -> Copies<'a> {
        Copies {
            front: &self.front.bytes,
            back: &self.back.bytes,
        }
    }

    // The copy of a side.
    pub(crate) fn copy(self, side: Side) -> &'a Copied {
        match side {
            Side::Front => self.front,
            Side::Back => self.back,
        }
    }

    // Whether the block of a copy was not read.
    pub(crate) fn lacks_block(self) -> bool {
        !self.front.is_block_read() || !self.back.is_block_read()
    }

    // The status of having read it.
    pub(crate) fn status(self) -> Status {
        Status::unless(self.sure, Status::Failed)
    }
}

// The sectors of an image, and the device numbers by which its copies were read.
#[derive(Clone, Copy)]
pub(crate) struct Places {
    sectors: u64,
    device: Option<Device>,
}

// Sectors that could not be read, all for one reason.
#[derive(Clone, Copy)]
struct Unread {
    first: u64,
    last: u64,
    fault: Fault,
}

// The mark of a sector.
fn mark_of(read: Result<(), Fault>) -> u8 {
    match read {
        Ok(()) => 0,
        Err(fault) => fault.number().min(255) as u8,
    }
}

// Reads the sectors of a side's copy from number `first` up to, not including, `end`.
fn read_part(image: &File, side: Side, d: Device, first: usize, end: usize, copy: &mut Copied) {
    let sectors = copy.bytes.chunks_exact_mut(layout::SECTOR_BYTES);
    for (i, (sector, mark)) in sectors
        .zip(copy.marks.iter_mut())
        .enumerate()
        .take(end)
        .skip(first)
    {
        let read = image::read(image, sectors::sector_at(side, d, i), sector);
        if read.is_err() {
            sector.fill(FILLER);
        }
        *mark = mark_of(read);
    }
}

// The device numbers by which the copies of an image of n sectors are read: d, or, where no block is accepted, its two ends.
fn numbers_for(n: u64, d: Option<Device>) -> Device {
    d.unwrap_or(Device {
        sectors: n.max(HEADER as u64),
        metadata: 0,
        reserved: 0,
    })
}

// Reads both copies of an open image, each sector once: the front's header, the header at the image's end where the front's block is not
// accepted, then the rest at the places that the accepted block gives. A block at the end counts only where it says that the device
// ends there. Where none is accepted the headers are all.
pub(crate) fn read(image: &File, front: &mut Copied, back: &mut Copied) -> Places {
    let n = image::sectors(image);
    let ends = numbers_for(n, None);
    read_part(image, Side::Front, ends, 0, HEADER, front);
    let first = front.block();
    let read = if first.is_none() { HEADER } else { 0 };
    read_part(image, Side::Back, ends, 0, read, back);
    let device = match first {
        Some(b) => Some(b.fields.device),
        None => back
            .block()
            .map(|b| b.fields.device)
            .filter(|d| d.sectors == n),
    };
    let d = numbers_for(n, device);
    let end = if device.is_some() { SECTORS } else { HEADER };
    read_part(image, Side::Front, d, HEADER, end, front);
    read_part(image, Side::Back, d, read, end, back);
    Places { sectors: n, device }
}

// What is known of an open image whose copies were read.
pub(crate) fn known<'a>(
    path: &'a [u8],
    drive: Drive<'a>,
    places: Places,
    front: &'a Copied,
    back: &'a Copied,
) -> Look<'a> {
    Look {
        path,
        drive,
        sectors: places.sectors,
        device: places.device,
        sure: sectors::settled(front.lent(), back.lent()),
        front,
        back,
    }
}

// The line for sectors that could not be read, where there are any.
fn note_part(path: &[u8], part: Option<Unread>) {
    match part {
        None => {}
        Some(u) if u.first == u.last => {
            note(
                path,
                format_args!("sector {} cannot be read: {}", u.first, u.fault),
            );
        }
        Some(u) => note(
            path,
            format_args!(
                "sectors {} to {} cannot be read: {}",
                u.first, u.last, u.fault
            ),
        ),
    }
}

// The sectors that could not be read, with one more; where that begins others, the line for those before.
fn longer(path: &[u8], part: Option<Unread>, sector: u64, fault: Fault) -> Unread {
    match part {
        Some(u) if u.fault == fault && u.last.checked_add(1) == Some(sector) => Unread {
            last: sector,
            ..u
        },
        _ => {
            note_part(path, part);
            Unread {
                first: sector,
                last: sector,
                fault,
            }
        }
    }
}

// A line for each part of a side's sectors that could not be read.
fn note_marks(path: &[u8], side: Side, d: Device, marks: &[u8]) {
    let mut part = None;
    for (i, mark) in marks.iter().enumerate() {
        if let Some(fault) = Fault::numbered(*mark as u64) {
            let sector = sectors::sector_at(side, d, i);
            part = Some(longer(path, part, sector, fault));
        }
    }
    note_part(path, part);
}

// Says which sectors could not be read, and, where one of them matters, that what is found may not be the newest.
pub(crate) fn note_unread(look: Look<'_>) {
    let d = numbers_for(look.sectors, look.device);
    note_marks(look.path, Side::Front, d, &look.front.marks);
    // the two ends of a very short image are the same sectors
    if 16 <= d.sectors {
        note_marks(look.path, Side::Back, d, &look.back.marks);
    }
    if !look.sure {
        note(
            look.path,
            "what is found may not be the newest: a sector that matters could not be read",
        );
    }
}
