// Bytes in a slice: little-endian numbers of 2, 4 and 8 bytes, parts, copies and comparisons, at any offset.
// Every call is total: nothing is asked of the slice or of the offset.
#![tactic(auto)]

ghost use Rattle.std.specs.Prelude.{◌≡◌, ◌+◌, ◌^◌, ◌≤◌, ◌<◌, IsTrue, length};
ghost use Rattle.endian.specs.Bytes.{le, to_le, window, splice, fits, same, zeros};

// The part of s of n bytes from `at` on, or as many of them as there are.
#[tactic(auto, unfolding(crate::specs::Bytes::window))]
pub fn window(s: &[u8], at: usize, n: usize) -> &[u8]
    ensures { result.now ≡ window s.now at n }
{
    let rest = &s[at.min(s.len())..];
    &rest[..n.min(rest.len())]
}

// Whether n bytes from `at` on lie within s.
#[tactic(auto, unfolding(crate::specs::Bytes::fits))]
fn fits(s: &[u8], at: usize, n: usize) -> bool
    ensures value { result ≡ fits s.now at n }
    ensures room { IsTrue result → at + n ≤ length s.now }
{
    at <= s.len() && n <= s.len() - at
}

// The number that the bytes of s make, of which there are at most 8.
fn number(s: &[u8]) -> u64
    requires { length s.now ≤ 8 }
    ensures { result ≡ le s.now }
{
    let mut r: u64 = 0;
    for b in s.iter().rev() {
        r = r * 256 + *b as u64;
    }
    r
}

// The number of the n bytes at `at`. Where they are all there the loop has n turns, which a compiler unrolls.
fn read(s: &[u8], at: usize, n: usize) -> u64
    requires { n ≤ 8 }
    ensures value { result ≡ le (window s.now at n) }
    ensures upper_bound { result < 256 ^ n }
{
    if fits(s, at, n) {
        return number(&s[at..at + n]);
    }
    number(window(s, at, n))
}

// Three functions and not one over a trait: its impls, one a type, would have as many methods, and a law besides; so with the writes below.
// The number of 2 bytes at `at`. Bytes past the end count as zero, here and below.
pub fn read_u16(s: &[u8], at: usize) -> u16
    ensures { result ≡ le (window s.now at 2) }
{
    read(s, at, 2) as u16
}

// The number of 4 bytes at `at`.
pub fn read_u32(s: &[u8], at: usize) -> u32
    ensures { result ≡ le (window s.now at 4) }
{
    read(s, at, 4) as u32
}

// The number of 8 bytes at `at`.
pub fn read_u64(s: &[u8], at: usize) -> u64
    ensures { result ≡ le (window s.now at 8) }
{
    read(s, at, 8)
}

// Fills s with the lowest bytes of v.
fn fill(s: &mut [u8], v: u64)
    ensures { s.new ≡ to_le (length s.old) v }
{
    let mut x = v;
    for b in s {
        *b = (x % 256) as u8;
        x = x / 256;
    }
}

// Stores the n lowest bytes of v at `at`, or nothing where they do not fit; answers whether they do.
fn write(s: &mut [u8], at: usize, n: usize, v: u64) -> bool
    ensures value { result ≡ fits s.old at n }
    ensures s_after { s.new ≡ splice s.old at (to_le n v) }
{
    let room = fits(s, at, n);
    if room {
        fill(&mut s[at..at + n], v);
    }
    room
}

// Stores v at `at`, lowest byte first, or nothing where 2 bytes do not fit there; answers whether they do.
pub fn write_u16(s: &mut [u8], at: usize, v: u16) -> bool
    ensures value { result ≡ fits s.old at 2 }
    ensures s_after { s.new ≡ splice s.old at (to_le 2 v) }
{
    write(s, at, 2, v as u64)
}

// The same with 4 bytes.
pub fn write_u32(s: &mut [u8], at: usize, v: u32) -> bool
    ensures value { result ≡ fits s.old at 4 }
    ensures s_after { s.new ≡ splice s.old at (to_le 4 v) }
{
    write(s, at, 4, v as u64)
}

// The same with 8 bytes.
pub fn write_u64(s: &mut [u8], at: usize, v: u64) -> bool
    ensures value { result ≡ fits s.old at 8 }
    ensures s_after { s.new ≡ splice s.old at (to_le 8 v) }
{
    write(s, at, 8, v)
}

// Whether a and b have the same bytes.
pub fn same(a: &[u8], b: &[u8]) -> bool
    ensures { result ≡ same a.now b.now }
{
    a == b
}

// Fills all of s with the bytes of v, of which there are as many. A `for` over places, which becomes `memcpy`: `copy_from_slice` becomes `memmove`,
// which the archive for C would need beside it.
fn fill_from(s: &mut [u8], v: &[u8])
    requires { length s.old ≡ length v.now }
    ensures { s.new ≡ v.now }
{
    for i in 0..s.len() {
        s[i] = v[i];
    }
}

// Stores the bytes of v at `at`, or nothing where they do not fit; answers whether they do.
pub fn put(s: &mut [u8], at: usize, v: &[u8]) -> bool
    ensures value { result ≡ fits s.old at (length v.now) }
    ensures s_after { s.new ≡ splice s.old at v.now }
{
    let room = fits(s, at, v.len());
    if room {
        fill_from(&mut s[at..at + v.len()], v);
    }
    room
}

// Makes every byte of s zero.
#[tactic(auto, unfolding(crate::specs::Bytes::zeros))]
pub fn clear(s: &mut [u8])
    ensures { s.new ≡ zeros (length s.old) }
{
    s.fill(0);
}
