// Words of a command line, read from bytes: numbers, sizes, kinds of segments and UUIDs.
// Every call is total.
#![tactic(auto)]

ghost use Rattle.std.specs.Prelude.{◌≡◌, ◌||◌, map, length};
ghost use Rattle.endian.specs.Bytes.{same};
ghost use Rattle.words.specs.Words.{digit_of, number_of, unit_of, sectors_of, kind_of, dash, dashed, joined, lower, hex_uuid, uuid_of};

// What the decimal digit c stands for.
#[tactic(auto, unfolding(crate::specs::Words::digit_of))]
fn digit(c: u8) -> Option<u64>
    ensures { result ≡ digit_of c }
{
    match c {
        b'0'..=b'9' => Some((c - b'0') as u64),
        _ => None,
    }
}

// The number that a word says: decimal digits alone, one at least, below 2^64. The library's `parse` takes a plus sign before them.
pub fn number(s: &[u8]) -> Option<u64>
    ensures { result ≡ number_of s.now }
{
    if s.is_empty() {
        return None;
    }
    let mut v: u64 = 0;
    for c in s {
        let d = digit(*c)?;
        v = v.checked_mul(10)?.checked_add(d)?;
    }
    Some(v)
}

// The sectors in the unit that a letter names.
#[tactic(auto, unfolding(crate::specs::Words::unit_of))]
fn unit(c: u8) -> Option<u64>
    ensures { result ≡ unit_of c }
{
    match c {
        b'K' => Some(2),
        b'M' => Some(2048),
        b'G' => Some(2097152),
        b'T' => Some(2147483648),
        _ => None,
    }
}

// The sectors that a size says: a number of sectors, or a number with K, M, G or T behind it.
#[tactic(auto, unfolding(crate::specs::Words::size_of, crate::specs::Words::times_of, crate::specs::Words::number_of))]
pub fn sectors(s: &[u8]) -> Option<u64>
    ensures { result ≡ sectors_of s.now }
{
    let (last, front) = s.split_last()?;
    match unit(*last) {
        Some(u) => number(front)?.checked_mul(u),
        None => number(s),
    }
}

// Whether a word is one of two.
fn either(s: &[u8], a: &[u8], b: &[u8]) -> bool
    ensures { result ≡ (same s.now a.now || same s.now b.now) }
{
    endian::same(s, a) | endian::same(s, b)
}

// The kind of a segment by its name or its number. Of a `match` on the words the goals, one for each byte that differs, were not proved.
#[tactic(auto, unfolding(crate::specs::Words::kind_of))]
pub fn kind(s: &[u8]) -> Option<u16>
    ensures { result ≡ kind_of s.now }
{
    if either(s, b"thin-metadata", b"1") {
        Some(1)
    } else if either(s, b"thin-data", b"2") {
        Some(2)
    } else if either(s, b"spare", b"3") {
        Some(3)
    } else if either(s, b"metadata-volume", b"4") {
        Some(4)
    } else {
        None
    }
}

// Whether s has a dash at i.
#[tactic(auto, using(crate::proofs::Words::no_dash), unfolding(crate::specs::Words::dash))]
fn dash(s: &[u8], i: usize) -> bool
    ensures { result ≡ dash s.now i }
{
    i < s.len() && s[i] == b'-'
}

// Whether a word is as long as a UUID with dashes and has them where they belong.
#[tactic(auto, unfolding(crate::specs::Words::dashed))]
fn dashed(s: &[u8]) -> bool
    ensures { result ≡ dashed s.now }
{
    (s.len() == 36) & ((dash(s, 8) & dash(s, 13)) & (dash(s, 18) & dash(s, 23)))
}

// The 32 others of 36 characters.
fn joined(s: &[u8]) -> [u8; 32]
    requires { length s.now ≡ 36 }
    ensures { result ≡ joined s.now }
{
    let mut d = [0u8; 32];
    endian::put(&mut d, 0, endian::window(s, 0, 8));
    endian::put(&mut d, 8, endian::window(s, 9, 4));
    endian::put(&mut d, 12, endian::window(s, 14, 4));
    endian::put(&mut d, 16, endian::window(s, 19, 4));
    endian::put(&mut d, 20, endian::window(s, 24, 12));
    d
}

// A capital A to F small, any other character as it is.
#[tactic(auto, unfolding(crate::specs::Words::lower))]
fn lower(c: u8) -> u8
    ensures { result ≡ lower c }
{
    match c {
        b'A'..=b'F' => c + 32,
        _ => c,
    }
}

// Each of the characters small. Of `d.map(lower)` the goal was not proved.
fn lowered(d: [u8; 32]) -> [u8; 32]
    ensures { result ≡ map lower d }
{
    let mut l = d;
    for c in &mut l {
        *c = lower(*c);
    }
    l
}

// The UUID of 32 characters, where all are hex digits.
#[tactic(auto, unfolding(crate::specs::Words::hex_uuid))]
fn hex_uuid(d: [u8; 32]) -> Option<[u8; 32]>
    ensures { result ≡ hex_uuid (map lower d) }
{
    let l = lowered(d);
    if block::all_hex(&l) { Some(l) } else { None }
}

// The UUID that a word says, its letters small: 32 hex digits, or 36 characters with dashes after the 8th, 12th, 16th and 20th digit.
pub fn uuid(s: &[u8]) -> Option<[u8; 32]>
    ensures { result ≡ uuid_of s.now }
{
    if dashed(s) {
        return hex_uuid(joined(s));
    }
    if s.len() != 32 {
        return None;
    }
    let mut d = [0u8; 32];
    endian::put(&mut d, 0, s);
    hex_uuid(d)
}
