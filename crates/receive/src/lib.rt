// One copy received in pieces, cut anywhere: a state that is handed on by value, a call that takes a piece, a call that ends. A piece is
// not needed again: of the areas nothing is kept but the checksums of what came.
#![tactic(auto)]

ghost use Rattle.std.specs.Prelude.{◌≡◌};
ghost use Rattle.receive.specs.Receive.{part, block_with, used_in, sum_with, fresh, fits_in, taking, told, state_after, sum_right, taken_reading, ending};

use block::{Holding, Reading};
use copy::CopyReading;
use layout::Area;
use refusal::Reason;

// The most used bytes of an area.
const AREA_BYTES: usize = layout::RECORD_LIMIT as usize;

// The state between two pieces.
#[repr(C)]
#[derive(Clone, Copy)]
pub struct Received {
    // How many of the copy's bytes were taken.
    pub taken: usize,
    // Its signature block: each of its bytes that was taken, in its place.
    pub block: [u8; layout::SECTOR_BYTES],
    // The checksum of what was taken of the used bytes of area a, and of area b.
    pub a: u32,
    pub b: u32,
}

// Of a piece that begins at byte `at` of the copy: its bytes that are among the copy's n bytes from `from` on.
#[tactic(auto, unfolding(crate::specs::Receive::part))]
fn part(piece: &[u8], at: usize, from: usize, n: usize) -> &[u8]
    ensures { result.now ≡ part piece.now at from n }
{
    endian::window(
        piece,
        from.saturating_sub(at),
        n.saturating_sub(at.saturating_sub(from)),
    )
}

// Lays what the piece has of the signature block into it.
#[tactic(auto, unfolding(crate::specs::Receive::block_with))]
fn put_block(block: &mut [u8; layout::SECTOR_BYTES], at: usize, piece: &[u8])
    ensures { block.new ≡ block_with block.old at piece.now }
{
    endian::put(
        block,
        at.saturating_sub(layout::BLOCK_OFFSET),
        part(piece, at, layout::BLOCK_OFFSET, layout::SECTOR_BYTES),
    );
}

// The used bytes of an area, by its entry in the block; 0 where the entry says a length that no record has.
#[tactic(auto, unfolding(crate::specs::Receive::used_in))]
fn used_in(block: &[u8], x: Area) -> usize
    ensures { result ≡ used_in block.now x }
{
    let h = block::holding_of(copy::entry_in(block::fields(block), x));
    if !layout::length_allowed(h.bytes as u64) {
        return 0;
    }
    h.bytes as usize
}

// The checksum of an area's used bytes, with what the piece has of them. It does not read the entry where the piece has nothing of the area.
#[tactic(auto, unfolding(crate::specs::Receive::sum_with))]
fn sum_with(sum: u32, block: &[u8], at: usize, piece: &[u8], x: Area) -> u32
    ensures { result ≡ sum_with sum block.now at piece.now x }
{
    let from = layout::area_offset(x);
    let all = part(piece, at, from, AREA_BYTES);
    if all.is_empty() {
        return sum;
    }
    checksum::continued(sum, part(piece, at, from, used_in(block, x)))
}

// Whether a piece of n bytes does not pass the copy's end, `at` bytes of which were taken.
#[tactic(auto, unfolding(crate::specs::Receive::fits_in, layout::specs::Places::copy_bytes, layout::specs::Limits::record_limit))]
fn fits_in(at: usize, n: usize) -> bool
    ensures { result ≡ fits_in at n }
{
    match at.checked_add(n) {
        Some(end) => end <= layout::copy_bytes(),
        None => false,
    }
}

// The state before the first piece.
#[tactic(auto, unfolding(crate::specs::Receive::fresh, endian::specs::Bytes::zeros))]
pub fn begin() -> Received
    ensures { result ≡ fresh }
{
    Received {
        taken: 0,
        block: [0u8; layout::SECTOR_BYTES],
        a: 0,
        b: 0,
    }
}

// Takes a piece: the state goes on by it, in place. One that passes the copy's end is refused with 1 and not taken, and the state stays as it was.
#[tactic(auto, unfolding(crate::specs::Receive::taking, crate::specs::Receive::advanced))]
pub fn take(s: &mut Received, piece: &[u8]) -> Result<(), Reason>
    ensures value { result ≡ told (taking s.old piece.now) }
    ensures s_after { s.new ≡ state_after s.old piece.now }
{
    if !fits_in(s.taken, piece.len()) {
        return Err(Reason::SliceSize);
    }
    let taken = s.taken + piece.len();
    put_block(&mut s.block, s.taken, piece);
    s.a = sum_with(s.a, &s.block, s.taken, piece, Area::A);
    s.b = sum_with(s.b, &s.block, s.taken, piece, Area::B);
    s.taken = taken;
    Ok(())
}

// The same of a state by value: answers the state from here on. Where the piece is refused its caller keeps the state that it has.
pub fn piece(s: Received, piece: &[u8]) -> Result<Received, Reason>
    ensures { result ≡ taking s piece.now }
{
    let mut next = s;
    take(&mut next, piece)?;
    Ok(next)
}

// Whether an area is whole, whose used bytes have this checksum.
fn sum_right(sum: u32, e: Option<Holding>) -> bool
    ensures { result ≡ sum_right sum e }
{
    match e {
        None => false,
        Some(h) => sum == h.checksum,
    }
}

// What reading the block says; 1 where other than a copy's bytes were taken.
fn read_block(s: Received) -> Result<Reading, Reason>
    ensures { result ≡ taken_reading s }
{
    if s.taken == layout::copy_bytes() {
        block::read(&s.block)
    } else {
        Err(Reason::SliceSize)
    }
}

// What the pieces that were taken say, as `copy::read` says it of them at once: 1 where other than a copy's bytes were taken.
#[tactic(auto, unfolding(crate::specs::Receive::ending))]
pub fn end(s: Received) -> Result<CopyReading, Reason>
    ensures { result ≡ ending s }
{
    let block = read_block(s)?;
    let a = sum_right(s.a, block.fields.a);
    let b = sum_right(s.b, block.fields.b);
    Ok(CopyReading {
        block,
        a,
        b,
        present: copy::present_by(block.fields, a, b),
    })
}
