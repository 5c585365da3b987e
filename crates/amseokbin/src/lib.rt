// What C calls: include/amseokbin.h, function by function. Each takes C's numbers, structs and slices, calls a library, and gives its
// answer as a struct of the header, by value: first the refusal; where that has a number every other field is zero.
#![tactic(auto)]

mod blocks;
mod copies;
mod formats;
mod mends;
mod moves;
mod pieces;
mod records;
mod room;
mod storing;
mod updates;

ghost use Rattle.std.specs.Prelude.{◌≡◌};
ghost use Rattle.checksum.specs.Crc.{checksum, continued};
ghost use Rattle.refusal.specs.Reasons.{refusal_in};
ghost use Rattle.refusal.specs.Words.{words_of};
ghost use Rattle.block.specs.Entry.{later_than};

use block::{Holding, Time};
use layout::{Device, DeviceMap};
use receive::Received;
use refusal::{Reason, Refusal, Words};
use runs::Run;
use segments::Segment;

// A signature block: device numbers, the entries of areas a and b, an unused one with zero in all its fields, and the UUIDs of the
// pool and of the block device.
#[repr(C)]
#[derive(Clone, Copy)]
pub struct Block {
    pub device: Device,
    pub a: Holding,
    pub b: Holding,
    pub pool: [u8; 32],
    pub blockdev: [u8; 32],
}

// The sectors of the two signature blocks.
#[repr(C)]
#[derive(Clone, Copy)]
pub struct BlocksAnswer {
    pub refusal: Refusal,
    pub front: u64,
    pub back: u64,
}

#[repr(C)]
#[derive(Clone, Copy)]
pub struct PlacesAnswer {
    pub refusal: Refusal,
    pub map: DeviceMap,
}

#[repr(C)]
#[derive(Clone, Copy)]
pub struct BlockAnswer {
    pub refusal: Refusal,
    pub block: Block,
}

// A copy: its block, whether its areas are whole, and its present record: 0 for none, 1 for area a, 2 for area b.
#[repr(C)]
#[derive(Clone, Copy)]
pub struct CopyAnswer {
    pub refusal: Refusal,
    pub block: Block,
    pub a: bool,
    pub b: bool,
    pub present: u8,
}

// The state of a copy in pieces from here on, whether a piece was taken or refused.
#[repr(C)]
#[derive(Clone, Copy)]
pub struct ReceiveAnswer {
    pub refusal: Refusal,
    pub received: Received,
}

// A found record, 0 or the other copy's refusal number, and the block of the copy that has it.
#[repr(C)]
#[derive(Clone, Copy)]
pub struct FoundAnswer {
    pub refusal: Refusal,
    pub side: u8,
    pub area: u8,
    pub other: u8,
    pub bytes: u32,
    pub time: Time,
    pub block: Block,
}

#[repr(C)]
#[derive(Clone, Copy)]
pub struct StepAnswer {
    pub refusal: Refusal,
    pub step: bool,
}

// A store: its sector, and whether a flush belongs after it.
#[repr(C)]
#[derive(Clone, Copy)]
pub struct StoreAnswer {
    pub refusal: Refusal,
    pub sector: u64,
    pub flush: bool,
}

// An update's plan: what the new entry says, and the area of each copy that the record goes to, 0 for a, anything else for b.
#[repr(C)]
#[derive(Clone, Copy)]
pub struct UpdatePlan {
    pub entry: Holding,
    pub front: u8,
    pub back: u8,
}

#[repr(C)]
#[derive(Clone, Copy)]
pub struct UpdateAnswer {
    pub refusal: Refusal,
    pub plan: UpdatePlan,
}

// A mend's plan: the record's length, whether there is anything to store, the side whose copy is kept, the area of that copy with the
// record, and whether there is a last store. 0 is no, the front, area a; anything else yes, the back, area b.
#[repr(C)]
#[derive(Clone, Copy)]
pub struct MendPlan {
    pub bytes: u32,
    pub needed: u8,
    pub kept: u8,
    pub area: u8,
    pub last: u8,
}

#[repr(C)]
#[derive(Clone, Copy)]
pub struct MendAnswer {
    pub refusal: Refusal,
    pub plan: MendPlan,
}

// The kind of a record's head, its data block size and low water mark, and the record's number of segments.
#[repr(C)]
#[derive(Clone, Copy)]
pub struct HeadAnswer {
    pub refusal: Refusal,
    pub kind: u16,
    pub size: u32,
    pub mark: u32,
    pub segments: u64,
}

#[repr(C)]
#[derive(Clone, Copy)]
pub struct SegmentAnswer {
    pub refusal: Refusal,
    pub segment: Segment,
}

#[repr(C)]
#[derive(Clone, Copy)]
pub struct CountAnswer {
    pub refusal: Refusal,
    pub count: u64,
}

// A record's length in bytes.
#[repr(C)]
#[derive(Clone, Copy)]
pub struct LengthAnswer {
    pub refusal: Refusal,
    pub length: u64,
}

// Free sectors.
#[repr(C)]
#[derive(Clone, Copy)]
pub struct TotalAnswer {
    pub refusal: Refusal,
    pub sectors: u64,
}

#[repr(C)]
#[derive(Clone, Copy)]
pub struct RunAnswer {
    pub refusal: Refusal,
    pub run: Run,
}

// A new segment's first sector, and the new record's length in bytes.
#[repr(C)]
#[derive(Clone, Copy)]
pub struct AllocationAnswer {
    pub refusal: Refusal,
    pub start: u64,
    pub length: u64,
}

// The refusal in an answer that has no other value; number 0 where there is none.
fn refusal_in(a: Result<(), Reason>) -> Refusal
    ensures { result ≡ refusal_in a }
{
    match a {
        Ok(()) => refusal::plain(0),
        Err(r) => Refusal::from(r),
    }
}

// The version, as the header's AMSEOKBIN_VERSION has it: the major number times 65,536, and the minor number.
#[unsafe(no_mangle)]
pub extern "C" fn amseokbin_version() -> u32
    ensures { result ≡ 4 }
{
    4
}

// What a refusal number says.
#[unsafe(no_mangle)]
pub extern "C" fn amseokbin_refusal_words(number: u8) -> Words
    ensures { result ≡ words_of number }
{
    refusal::words_of(number)
}

// The layout's CRC32 of a slice.
#[unsafe(no_mangle)]
pub extern "C" fn amseokbin_checksum(bytes: &[u8]) -> u32
    ensures { result ≡ checksum bytes.now }
{
    checksum::checksum(bytes)
}

// The CRC32 of bytes whose CRC32 is `before` with these after them.
#[unsafe(no_mangle)]
pub extern "C" fn amseokbin_checksum_continued(before: u32, bytes: &[u8]) -> u32
    ensures { result ≡ continued before bytes.now }
{
    checksum::continued(before, bytes)
}

// Whether a time is later than another.
#[unsafe(no_mangle)]
#[tactic(auto, using(block::proofs::Times::later_derived))]
pub extern "C" fn amseokbin_later(time: Time, than: Time) -> bool
    ensures { result ≡ later_than time than }
{
    than < time
}
