// One copy of the metadata, as it is lent: the header's 8 sectors, with the signature block in sector 1, then as much of each
// area as a record can fill. What reading it answers, which of its areas are whole, and its present record.
#![tactic(auto)]

ghost use Rattle.std.specs.Prelude.{◌≡◌};
ghost use Rattle.block.specs.Block.{uuid_from, pool_of, blockdev_of, fields_of};
ghost use Rattle.block.specs.Writing.{holding_of};
ghost use Rattle.copy.specs.Copy.{block_in, Chosen, entry_in, other_area, other_side, whole_entry, whole, newer, newest, record_at, current, present, present_by, mapped, sized_reading, copy_reading, present_reading_of};

use block::{BlockFields, Holding, Reading};
use layout::{Area, Side};
use refusal::Reason;

// A copy's present record: the area that holds it and what its entry says.
#[derive(Clone, Copy)]
pub struct Present {
    pub area: Area,
    pub holding: Holding,
}

// What reading an accepted copy answers: its block's fields, whether areas a and b are whole, and its present record.
#[derive(Clone, Copy)]
pub struct CopyReading {
    pub block: Reading,
    pub a: bool,
    pub b: bool,
    pub present: Option<Present>,
}

// The part of that which says what is present.
#[derive(Clone, Copy)]
pub struct PresentReading {
    pub block: Reading,
    pub present: Option<Present>,
}

// The entry of an area.
pub fn entry_in(f: BlockFields, x: Area) -> Option<Holding>
    ensures { result ≡ entry_in f x }
{
    match x {
        Area::A => f.a,
        Area::B => f.b,
    }
}

// The other area.
pub fn other_area(x: Area) -> Area
    ensures { result ≡ other_area x }
{
    match x {
        Area::A => Area::B,
        Area::B => Area::A,
    }
}

// The other side.
// Beside `other_area`, as a match for each of the two enums is shorter than a trait with two impls.
pub fn other_side(s: Side) -> Side
    ensures { result ≡ other_side s }
{
    match s {
        Side::Front => Side::Back,
        Side::Back => Side::Front,
    }
}

// The bytes of a copy's signature block, or as many of them as there are.
pub fn block_in(c: &[u8]) -> &[u8]
    ensures { result.now ≡ block_in c.now }
{
    endian::window(c, layout::BLOCK_OFFSET, layout::SECTOR_BYTES)
}

// The numbers of a copy's signature block, whether it is accepted or not.
pub fn fields_in(c: &[u8]) -> BlockFields
    ensures { result ≡ fields_of (block_in c.now) }
{
    block::fields(block_in(c))
}

// The pool's UUID in a copy's signature block, whether it is accepted or not.
pub fn pool_in(c: &[u8]) -> [u8; 32]
    ensures { result ≡ uuid_from (pool_of (block_in c.now)) }
{
    block::uuid_at(block_in(c), 32)
}

// The block device's. Two functions of a line each, so that no caller knows an offset.
pub fn blockdev_in(c: &[u8]) -> [u8; 32]
    ensures { result ≡ uuid_from (blockdev_of (block_in c.now)) }
{
    block::uuid_at(block_in(c), 64)
}

// Whether e is used, and d is unused or of an earlier time.
#[tactic(auto, using(block::proofs::Times::later_derived))]
fn newer(e: Option<Holding>, d: Option<Holding>) -> bool
    ensures { result ≡ newer e d }
{
    match (e, d) {
        (None, _) => false,
        (Some(_), None) => true,
        (Some(h), Some(k)) => block::time_of(k) < block::time_of(h),
    }
}

// The area of the used entry with the later time.
#[tactic(auto, unfolding(crate::specs::Copy::newest))]
pub fn newest(f: BlockFields) -> Area
    ensures { result ≡ newest f }
{
    if newer(f.b, f.a) {
        return Area::B;
    }
    Area::A
}

// Whether a present record is that of the entry with the later time.
pub fn current(f: BlockFields, p: Option<Present>) -> bool
    ensures { result ≡ current f p }
{
    match p {
        None => false,
        Some(p) => p.area == newest(f),
    }
}

// Whether an area is whole: its entry is used, and the area's first used bytes have the entry's checksum.
fn whole_entry(c: &[u8], x: Area, e: Option<Holding>) -> bool
    ensures { result ≡ whole_entry c.now x e }
{
    match e {
        None => false,
        Some(h) => checksum::checksum(endian::window(c, layout::area_offset(x), h.bytes as usize))
            == h.checksum,
    }
}

// The same of the entry that the block's fields have for it.
fn whole(c: &[u8], f: BlockFields, x: Area) -> bool
    ensures { result ≡ whole c.now f x }
{
    whole_entry(c, x, entry_in(f, x))
}

// The record that an area's entry says.
fn present_at(f: BlockFields, x: Area) -> Present
    ensures { result ≡ record_at x (holding_of (entry_in f x)) }
{
    Present {
        area: x,
        holding: block::holding_of(entry_in(f, x)),
    }
}

// The present record of a copy, whose block has these fields: its whole area with the later time, by a test whether an area is whole. The
// older area is not tested where the newer one is whole.
fn choose<W: Fn(Area) -> bool>(f: BlockFields, whole: W) -> Option<Present>
    requires { W.IsAlwaysCallable whole }
    ensures { Chosen (W.post whole) f result }
{
    let x = newest(f);
    if whole(x) {
        return Some(present_at(f, x));
    }
    let y = other_area(x);
    if whole(y) {
        return Some(present_at(f, y));
    }
    None
}

// The present record of a copy, whose block has these fields.
#[tactic(auto, unfolding(crate::specs::Copy::present))]
fn present_of(c: &[u8], f: BlockFields) -> Option<Present>
    ensures { result ≡ present c.now f }
{
    choose(f, |x| whole(c, f, x))
}

// The present record, where it is known which of the areas a and b are whole.
pub fn present_by(f: BlockFields, a: bool, b: bool) -> Option<Present>
    ensures { result ≡ present_by f a b }
{
    choose(f, |x| match x {
        Area::A => a,
        Area::B => b,
    })
}

// What reading a copy's block answers; 1 for a slice that is no copy by its size.
#[tactic(auto, unfolding(crate::specs::Copy::sized_reading))]
fn read_block(c: &[u8]) -> Result<Reading, Reason>
    ensures { result ≡ sized_reading c.now }
{
    if c.len() != layout::copy_bytes() {
        return Err(Reason::SliceSize);
    }
    block::read(block_in(c))
}

// Reads a copy: its block's fields or the lowest of 1 to 9 that applies, the wholeness of each area, and the present record.
#[tactic(auto, using(crate::proofs::Readings::by_whole), unfolding(crate::specs::Copy::copy_reading))]
pub fn read(c: &[u8]) -> Result<CopyReading, Reason>
    ensures { result ≡ copy_reading c.now }
{
    let block = read_block(c)?;
    let a = whole(c, block.fields, Area::A);
    let b = whole(c, block.fields, Area::B);
    Ok(CopyReading {
        block,
        a,
        b,
        present: present_by(block.fields, a, b),
    })
}

// The same block and present record, without the checksum of an area that does not decide it.
#[tactic(auto, using(crate::proofs::Readings::by_whole), unfolding(crate::specs::Copy::copy_reading))]
pub fn read_present(c: &[u8]) -> Result<PresentReading, Reason>
    ensures { result ≡ mapped present_reading_of (copy_reading c.now) }
{
    let block = read_block(c)?;
    Ok(PresentReading {
        block,
        present: present_of(c, block.fields),
    })
}
