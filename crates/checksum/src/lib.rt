// The CRC32 of the Stratis 0.6 layout (docs/FORMAT.md, 'Checksum'), over any slice, whole or in pieces.
// Eight bytes a step by table lookup (slicing by 8). Four lookups wait for the register; the others do not, and go first.
#![tactic(auto)]

ghost use Rattle.std.specs.Prelude.{◌≡◌, ◌%◌, length};
ghost use Rattle.shifts.specs.Shifts.{shifts};
ghost use Rattle.checksum.specs.Crc.{absorb, register, checksum, continued};

// What is left of x once 64 bits have gone: its own 32, and 32 behind them.
fn far_word(x: u32) -> u32
    ensures { result ≡ shifts 64 x }
{
    let high = shifts::byte_48(x / 65536) ^ shifts::byte_40(x / 16777216);
    shifts::byte_64(x) ^ (shifts::byte_56(x / 256) ^ high)
}

// What is left of x once its 32 bits have gone.
fn near_word(x: u32) -> u32
    ensures { result ≡ shifts 32 x }
{
    let high = shifts::byte_16(x / 65536) ^ shifts::byte_8(x / 16777216);
    shifts::byte_32(x) ^ (shifts::byte_24(x / 256) ^ high)
}

// The register after eight bytes. The lookups of the last four do not wait for c, so they go first.
fn eight(c: u32, s: &[u8; 8]) -> u32
    ensures { result ≡ register c s.now }
{
    let last = near_word(endian::read_u32(s, 4));
    far_word(c ^ endian::read_u32(s, 0)) ^ last
}

// The register after one byte.
fn one(c: u32, b: u8) -> u32
    ensures { result ≡ absorb c b }
{
    let x = c ^ (b as u32);
    shifts::half_8(x) ^ (shifts::half_4(x / 16) ^ (x / 256))
}

// The register after all of s: eight bytes a step, and the last ones byte by byte.
fn run(c: u32, s: &[u8]) -> u32
    ensures { result ≡ register c s.now }
{
    let (eights, ones) = s.as_chunks::<8>();
    let mut r = c;
    for e in eights {
        r = eight(r, e);
    }
    for b in ones {
        r = one(r, *b);
    }
    r
}

// The checksum of s.
pub fn checksum(s: &[u8]) -> u32
    ensures { result ≡ checksum s.now }
{
    run(0xFFFF_FFFF, s) ^ 0xFFFF_FFFF
}

// Given c, the checksum of some bytes: the checksum of those with s after them. Of no bytes c is 0.
pub fn continued(c: u32, s: &[u8]) -> u32
    ensures { result ≡ continued c s.now }
{
    run(c ^ 0xFFFF_FFFF, s) ^ 0xFFFF_FFFF
}
