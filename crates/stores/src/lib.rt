// What stores are made of: a record's sectors, a signature block with the UUIDs of a copy's, and a record laid into a lent copy. Updating,
// formatting and mending stand on this.
#![tactic(auto, unfolding(refusal::specs::Tests::first, crate::specs::Stores::sectors_of))]

ghost use Rattle.std.specs.Prelude.{◌≡◌, length};
ghost use Rattle.endian.specs.Bytes.{zeros, splice};
ghost use Rattle.refusal.specs.Reasons.{answer};
ghost use Rattle.refusal.specs.Tests.{first};
ghost use Rattle.stores.specs.Stores.{sectors_of, with_entry};
ghost use Rattle.stores.specs.Given.{plan_tests, sector_in, block_answer, block_bytes, block_given, block_left, part_answer, part_bytes, part_given, part_left, lay_tests, laid};

use block::{BlockFields, Holding};
use discovery::Copies;
use layout::{Area, Device};
use refusal::Reason;

// What is stored on one side: the record from sector `area` on, then at sector `block` a block with these numbers.
#[derive(Clone, Copy)]
pub struct Part {
    pub area: u64,
    pub block: u64,
    pub fields: BlockFields,
}

// How many sectors a record of n bytes fills.
pub fn sectors(n: u32) -> u32
    ensures { result ≡ sectors_of n }
{
    n.div_ceil(layout::SECTOR_BYTES as u32)
}

// A block's numbers with one entry changed.
pub fn with_entry(f: BlockFields, x: Area, e: Option<Holding>) -> BlockFields
    ensures { result ≡ with_entry f x e }
{
    match x {
        Area::A => BlockFields { a: e, ..f },
        Area::B => BlockFields { b: e, ..f },
    }
}

// The tests of store i of a plan for a record of n bytes with k stores, before those of what it writes: 1 unless both are copies by
// their size and room for 512 bytes is lent, 15 where the record that is lent or kept has a length m that no record has, 1 where m is not
// the plan's n, 23 past the last store, then 4, 7 or 8 for the device numbers d of the copy that the store is worked out from.
// Seven parameters and no struct: each of the two callers has them from other places, and would name each once more to make one.
pub fn check_store(
    c: Copies<'_>,
    room: usize,
    m: u64,
    n: u32,
    i: u64,
    k: u64,
    d: Device,
) -> Result<(), Reason>
    ensures { result ≡ answer (first (plan_tests c.entry.front.now c.entry.back.now room m n i k d)) tt }
{
    let sized = c.sized() & (room == layout::SECTOR_BYTES);
    if !sized {
        return Err(Reason::SliceSize);
    }
    if !layout::length_allowed(m) {
        return Err(Reason::RecordLength);
    }
    if m != n as u64 {
        return Err(Reason::SliceSize);
    }
    if k <= i {
        return Err(Reason::NoStore);
    }
    layout::check(d)
}

// A record from the start of out on, and zeros after it; zeros where it has no room.
fn fill(out: &mut [u8], r: &[u8])
    ensures { out.new ≡ splice (zeros (length out.old)) 0 r.now }
{
    endian::clear(out);
    endian::put(out, 0, r);
}

// A block with these numbers and the UUIDs of a copy's block, into out, which goes to sector `at`. A block that the writer
// refuses gives its reason; then out stays.
fn write_block(at: u64, g: BlockFields, c: &[u8], out: &mut [u8]) -> Result<u64, Reason>
    ensures value { result ≡ block_answer at g c.now out.old }
    ensures out_after { out.new ≡ block_bytes g c.now out.old }
{
    let s = copy::block_in(c);
    block::write(out, endian::window(s, 32, 32), endian::window(s, 64, 32), g)?;
    Ok(at)
}

// A block with these numbers and the UUIDs of a copy's block, into out, which goes to sector `at`. 1 unless c is a copy by its size and
// 512 bytes are lent; a block that the writer refuses gives its reason. Then out stays.
pub fn put_block(at: u64, g: BlockFields, c: &[u8], out: &mut [u8]) -> Result<u64, Reason>
    ensures value { result ≡ block_given at g c.now out.old }
    ensures out_after { out.new ≡ block_left g c.now out.old }
{
    if c.len() != layout::copy_bytes() {
        return Err(Reason::SliceSize);
    }
    write_block(at, g, c, out)
}

// Store j of one side's k + 1: the record's sector j, and after its k sectors the block, with the UUIDs of the copy's block.
// 23 for a sector past 2^64 - 1; a block that the writer refuses gives its reason. Then out stays.
fn part_store(p: Part, k: u32, c: &[u8], r: &[u8], j: u64, out: &mut [u8]) -> Result<u64, Reason>
    ensures value { result ≡ part_answer p k c.now j out.old }
    ensures out_after { out.new ≡ part_bytes p k c.now r.now j out.old }
{
    if j < k as u64 {
        let at = p.area.checked_add(j).ok_or(Reason::NoStore)?;
        fill(
            out,
            endian::window(r, layout::SECTOR_BYTES * (j as usize), layout::SECTOR_BYTES),
        );
        return Ok(at);
    }
    write_block(p.block, p.fields, c, out)
}

// The same for a caller's slices: 1 unless c is a copy by its size and 512 bytes are lent, 15 for a length that no record has, 23
// past the block.
pub fn put_part(p: Part, k: u32, c: &[u8], r: &[u8], j: u64, out: &mut [u8]) -> Result<u64, Reason>
    ensures value { result ≡ part_given p k c.now r.now j out.old }
    ensures out_after { out.new ≡ part_left p k c.now r.now j out.old }
{
    let sized = (c.len() == layout::copy_bytes()) & (out.len() == layout::SECTOR_BYTES);
    if !sized {
        return Err(Reason::SliceSize);
    }
    if !layout::length_allowed(r.len() as u64) {
        return Err(Reason::RecordLength);
    }
    if (k as u64) < j {
        return Err(Reason::NoStore);
    }
    part_store(p, k, c, r, j, out)
}

// Lays a record into an area of a lent copy, its last sector filled with zeros; nothing before or after those sectors
// changes. 1 unless the slice is a copy by its size, 15 for a length that no record has; then the copy stays.
#[tactic(auto, unfolding(refusal::specs::Tests::first, crate::specs::Stores::sectors_of, crate::specs::Given::laid))]
pub fn lay(c: &mut [u8], x: Area, r: &[u8]) -> Result<(), Reason>
    ensures value { result ≡ answer (first (lay_tests c.old r.now)) tt }
    ensures c_after { c.new ≡ laid c.old x r.now }
{
    if c.len() != layout::copy_bytes() {
        return Err(Reason::SliceSize);
    }
    if !layout::length_allowed(r.len() as u64) {
        return Err(Reason::RecordLength);
    }
    let at = layout::area_offset(x);
    let n = r.len().div_ceil(layout::SECTOR_BYTES) * layout::SECTOR_BYTES;
    fill(&mut c[at..at + n], r);
    Ok(())
}
