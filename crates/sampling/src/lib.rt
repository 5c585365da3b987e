// What the sample programs share: their input, patches and segments laid into bytes, pieces of lines, and printing. Every call is total. What is
// read and printed passes through system calls, of which no contract can speak. Assumes what `io` and `libc` do.
#![tactic(auto)]

mod lines;

ghost use Rattle.std.specs.Prelude.{◌≡◌, [], ◌∷◌, ◌≤◌, length};
ghost use Rattle.io.specs.Counts.{IsPrefixLen};
ghost use Rattle.items.specs.declared.Head.TheVariants.{Plain};
ghost use Rattle.items.specs.Making.{record_of};
ghost use Rattle.sampling.specs.Laying.{past, patches_end, patched, segment_put, input_bytes};

use items::Head;
pub use lines::{beside, long_hex, number, print, refusal, say, short_hex, sum};
use segments::Segment;

// Standard input.
const IN: i32 = 0;

// The most bytes of input.
pub const INPUT_BYTES: usize = 131072;

// Standard input: the first `used` of the bytes. An array and a length, since there is no heap.
#[derive(Clone, Copy)]
pub struct Input {
    pub bytes: [u8; INPUT_BYTES],
    pub used: usize,
}

// As many zeros as there is room for input.
fn zeros() -> [u8; INPUT_BYTES]
    ensures { input_bytes ≡ length result }
{
    [0; INPUT_BYTES]
}

// Reads standard input, as much of it as there is room for.
pub fn fetch() -> Input
    ensures { (length result.bytes ≡ input_bytes) × IsPrefixLen result.used result.bytes }
{
    let mut bytes = zeros();
    let used = io::read_full(IN, &mut bytes);
    Input { bytes, used }
}

// The place n bytes after `at` in s, or the end of s where it has fewer; a place past the end stays.
#[tactic(auto, unfolding(crate::specs::Laying::past))]
fn past(s: &[u8], at: usize, n: usize) -> usize
    ensures { result ≡ past s.now at n }
{
    at.max(at.saturating_add(n).min(s.len()))
}

// Lays `count` patches, the first at `from` of s, over d, and answers where they end. A patch is its offset in d and its length, two
// bytes each, and its bytes; one that does not fit into d is left out.
pub fn patch(s: &[u8], from: usize, count: u16, d: &mut [u8]) -> usize
    ensures value { result ≡ patches_end s.now from count }
    ensures lower_bound { from ≤ result }
    ensures d_after { d.new ≡ patched s.now from count d.old }
{
    let mut at = from;
    for _ in 0..count {
        let p = endian::window(s, at, s.len());
        let n = endian::read_u16(p, 2) as usize;
        let offset = endian::read_u16(p, 0) as usize;
        endian::put(d, offset, endian::window(p, 4, n));
        at = past(s, at, 4 + n);
    }
    at
}

// Puts a segment at a position of the record that s begins with; where it has no room there, nothing.
pub fn put_segment(s: &mut [u8], position: usize, kind: u16, start: u64, sectors: u64)
    ensures { s.new ≡ segment_put s.old position (record { kind = kind; start = start; sectors = sectors }) }
{
    let g = Segment {
        kind,
        start,
        sectors,
    };
    let at = items::place_in(s, position);
    let _ = items::put_segment(s, at, g);
}

// The bytes of a record with one segment, and with two.
pub const ONE_BYTES: usize = items::HEAD_BYTES + items::ITEM_BYTES;

pub const TWO_BYTES: usize = ONE_BYTES + items::ITEM_BYTES;

// `one` and `two` are not one function over how many: the array's size would be a computed const argument, which the language has not.
// A record with one segment and the block size 128.
pub fn one(kind: u16, start: u64, sectors: u64) -> [u8; ONE_BYTES]
    ensures { result ≡ record_of (Plain 128) (record { kind = kind; start = start; sectors = sectors } ∷ []) }
{
    let mut s = [0u8; ONE_BYTES];
    let _ = items::begin(&mut s, Head::Plain(128));
    put_segment(&mut s, 0, kind, start, sectors);
    s
}

// A record with two data segments and the block size 128.
pub fn two(start: u64, sectors: u64, start2: u64, sectors2: u64) -> [u8; TWO_BYTES]
    ensures { result ≡ record_of (Plain 128) (record { kind = 2; start = start; sectors = sectors } ∷ record { kind = 2; start = start2; sectors = sectors2 } ∷ []) }
{
    let mut s = [0u8; TWO_BYTES];
    let _ = items::begin(&mut s, Head::Plain(128));
    put_segment(&mut s, 0, 2, start, sectors);
    put_segment(&mut s, 1, 2, start2, sectors2);
    s
}
