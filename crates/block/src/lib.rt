// The signature block: 512 bytes that say how large the device is, whose it is, and what its metadata areas hold.
// Read from any slice, and written from its fields.
#![tactic(auto)]

ghost use Rattle.std.specs.Prelude.{◌≡◌, ◌+◌, ◌≤◌, length};
ghost use Rattle.endian.specs.Bytes.{window, same, all_pass};
ghost use Rattle.refusal.specs.Reasons.{answer};
ghost use Rattle.refusal.specs.Tests.{first};
ghost use Rattle.block.specs.Block.{is_hex, uuid_from, all_zero, zero_fields, checksum_right, signature_bytes, pool_of, blockdev_of, entry_at, fields_of, limit_tests, read_tests, reading};
ghost use Rattle.block.specs.Writing.{holding_of, sealed, write_tests, written};
ghost use Rattle.block.specs.Laid.{entry_laid, body_laid};
ghost use Rattle.block.specs.Entry.{time_of, entry_of, entry_allowed, different_times, entries_allowed};

use layout::Device;
use refusal::Reason;

// A time, in seconds and nanoseconds: the derived order is by seconds, then nanoseconds.
#[repr(C)]
#[derive(Clone, Copy, PartialEq, Eq, PartialOrd, Ord)]
pub struct Time {
    pub seconds: u64,
    // Of the second that has begun.
    pub nanoseconds: u32,
}

// What a used area entry says of its area: the record's time, its bytes and their checksum. The default has zero in every field.
#[repr(C)]
#[derive(Clone, Copy, PartialEq, Eq, Default)]
pub struct Holding {
    pub seconds: u64,
    pub nanoseconds: u32,
    pub bytes: u32,
    pub checksum: u32,
}

// The numbers of a block: the device's, and the entries of its two areas, none where an area is unused.
#[derive(Clone, Copy)]
pub struct BlockFields {
    pub device: Device,
    pub a: Option<Holding>,
    pub b: Option<Holding>,
}

// What reading an accepted block answers: its numbers, and the UUIDs of the pool and of the block device.
#[derive(Clone, Copy)]
pub struct Reading {
    pub fields: BlockFields,
    pub pool: [u8; 32],
    pub blockdev: [u8; 32],
}

// The time of what an area holds.
pub fn time_of(h: Holding) -> Time
    ensures { result ≡ time_of h }
{
    Time {
        seconds: h.seconds,
        nanoseconds: h.nanoseconds,
    }
}

// The entry with these four fields: unused where all four are zero.
#[tactic(auto, unfolding(crate::specs::Entry::entry_of))]
pub fn entry_of(seconds: u64, nanoseconds: u32, bytes: u32, checksum: u32) -> Option<Holding>
    ensures { result ≡ entry_of seconds nanoseconds bytes checksum }
{
    let h = Holding {
        seconds,
        nanoseconds,
        bytes,
        checksum,
    };
    if h == Holding::default() {
        return None;
    }
    Some(h)
}

// Whether an entry is within its limits.
fn entry_allowed(e: Option<Holding>) -> bool
    ensures { result ≡ entry_allowed e }
{
    match e {
        None => true,
        Some(h) => layout::length_allowed(h.bytes as u64)
            & (h.nanoseconds <= layout::MOST_NANOSECONDS),
    }
}

// Whether two entries may stand in one block: each within its limits, and two used ones of different times.
fn entries_allowed(a: Option<Holding>, b: Option<Holding>) -> bool
    ensures { result ≡ entries_allowed a b }
{
    entry_allowed(a) & (entry_allowed(b) & differ(a, b))
}

// Whether two entries are not both used with one time.
#[tactic(auto, unfolding(crate::specs::Entry::same_time))]
fn differ(a: Option<Holding>, b: Option<Holding>) -> bool
    ensures { result ≡ different_times a b }
{
    let (Some(h), Some(k)) = (a, b) else {
        return true;
    };
    time_of(h) != time_of(k)
}

// Whether x is a digit, 0-9 or a-f.
fn is_hex(x: u8) -> bool
    ensures { result ≡ is_hex x }
{
    matches!(x, b'0'..=b'9' | b'a'..=b'f')
}

// Whether all bytes of s are such digits.
pub fn all_hex(s: &[u8]) -> bool
    ensures { result ≡ all_pass is_hex s.now }
{
    // No `all`: it stops at the first that is none, and takes 700 instructions more for the two UUIDs of a block.
    let mut hex = true;
    for x in s {
        hex = hex & is_hex(*x);
    }
    hex
}

// Whether all bytes of s are zero. They are read eight to a number; the last number may have fewer bytes.
// An index that steps by eight: over `chunks(8)` reading a block takes some 450 instructions more.
fn all_zero(s: &[u8]) -> bool
    ensures { result ≡ all_zero s.now }
{
    let mut zero = true;
    let mut i = 0;
    while i < s.len() {
        zero = zero & (endian::read_u64(s, i) == 0);
        i += 8;
    }
    zero
}

// Whether the flags and the zero fields of s are zero. The last, 344 bytes of a block, is read as 43 numbers.
fn zero_fields(s: &[u8]) -> bool
    ensures { result ≡ zero_fields s.now }
{
    let last = all_zero(endian::window(s, 148, 12)) & all_zero(endian::window(s, 168, 344));
    all_zero(endian::window(s, 28, 4)) & (all_zero(endian::window(s, 116, 12)) & last)
}

// The 16 signature bytes.
#[tactic(auto, unfolding(crate::specs::Block::signature_bytes))]
fn signature() -> [u8; 16]
    ensures { result ≡ signature_bytes }
{
    [
        0x21u8, 0x53, 0x74, 0x72, 0x61, 0x30, 0x74, 0x69, 0x73, 0x86, 0xff, 0x02, 0x5e, 0x41, 0x72,
        0x68,
    ]
}

// Whether the 16 signature bytes are in their place.
fn signature_right(s: &[u8]) -> bool
    ensures { result ≡ same (window s.now 4 16) signature_bytes }
{
    endian::same(endian::window(s, 4, 16), &signature())
}

// Whether the block's checksum is that of the bytes that it covers.
fn checksum_right(s: &[u8]) -> bool
    ensures { result ≡ checksum_right s.now }
{
    endian::read_u32(s, 0) == checksum::checksum(endian::window(s, 4, 508))
}

// The area entry at an offset.
fn entry_at(s: &[u8], at: usize) -> Option<Holding>
    requires { at ≤ 512 }
    ensures { result ≡ entry_at s.now at }
{
    let seconds = endian::read_u64(s, at);
    let nanoseconds = endian::read_u32(s, at + 8);
    let bytes = endian::read_u32(s, at + 12);
    entry_of(seconds, nanoseconds, bytes, endian::read_u32(s, at + 16))
}

// The numbers of a block, whether it is accepted or not.
pub fn fields(s: &[u8]) -> BlockFields
    ensures { result ≡ fields_of s.now }
{
    let device = Device {
        sectors: endian::read_u64(s, 20),
        metadata: endian::read_u32(s, 160),
        reserved: endian::read_u32(s, 164),
    };
    BlockFields {
        device,
        a: entry_at(s, 96),
        b: entry_at(s, 128),
    }
}

// The first limit, 6 to 9, that UUIDs and fields break.
#[tactic(auto, unfolding(refusal::specs::Tests::first))]
fn check_limits(pool: &[u8], blockdev: &[u8], f: BlockFields) -> Result<(), Reason>
    ensures { result ≡ answer (first (limit_tests pool.now blockdev.now f)) tt }
{
    let hex = all_hex(pool) & all_hex(blockdev);
    if !hex {
        return Err(Reason::UuidByte);
    }
    if !layout::metadata_allowed(f.device.metadata) {
        return Err(Reason::MetadataSize);
    }
    if !layout::reserved_allowed(f.device.reserved) {
        return Err(Reason::ReservedSize);
    }
    if !entries_allowed(f.a, f.b) {
        return Err(Reason::AreaEntry);
    }
    Ok(())
}

// The first test, 1 to 9, that a block with the numbers f fails.
#[tactic(auto, unfolding(refusal::specs::Tests::first))]
fn check_read(s: &[u8], f: BlockFields) -> Result<(), Reason>
    requires { f ≡ fields_of s.now }
    ensures { result ≡ answer (first (read_tests s.now)) tt }
{
    if s.len() != layout::SECTOR_BYTES {
        return Err(Reason::SliceSize);
    }
    if !signature_right(s) {
        return Err(Reason::Signature);
    }
    if !checksum_right(s) {
        return Err(Reason::BlockChecksum);
    }
    if !layout::size_allowed(f.device.sectors) {
        return Err(Reason::DeviceSize);
    }
    if !zero_fields(s) {
        return Err(Reason::NotZero);
    }
    check_limits(endian::window(s, 32, 32), endian::window(s, 64, 32), f)
}

// A UUID of a block: the 32 bytes at an offset, with zeros where the block is cut short.
#[tactic(auto, unfolding(crate::specs::Block::uuid_from, endian::specs::Bytes::zeros))]
pub fn uuid_at(s: &[u8], at: usize) -> [u8; 32]
    ensures { result ≡ uuid_from (window s.now at 32) }
{
    let mut r = [0u8; 32];
    endian::put(&mut r, 0, endian::window(s, at, 32));
    r
}

// Reads a signature block: its fields, or the lowest of 1 to 9 that applies.
#[tactic(auto, using(crate::proofs::Readings::pool_read, crate::proofs::Readings::blockdev_read), unfolding(crate::specs::Block::reading))]
pub fn read(s: &[u8]) -> Result<Reading, Reason>
    ensures { result ≡ reading s.now }
{
    let fields = fields(s);
    check_read(s, fields)?;
    Ok(Reading {
        fields,
        pool: uuid_at(s, 32),
        blockdev: uuid_at(s, 64),
    })
}

// The four numbers of an entry; of an unused one all zero.
pub fn holding_of(e: Option<Holding>) -> Holding
    ensures { result ≡ holding_of e }
{
    e.unwrap_or_default()
}

// Stores an entry's four numbers at an offset.
#[tactic(auto, unfolding(crate::specs::Laid::entry_laid))]
fn put_entry(out: &mut [u8], at: usize, e: Option<Holding>)
    requires { at ≤ 512 }
    ensures { out.new ≡ entry_laid out.old at (holding_of e) }
{
    let h = holding_of(e);
    endian::write_u64(out, at, h.seconds);
    endian::write_u32(out, at + 8, h.nanoseconds);
    endian::write_u32(out, at + 12, h.bytes);
    endian::write_u32(out, at + 16, h.checksum);
}

// Stores the block's fields into zeros, all but the checksum.
#[tactic(auto, unfolding(crate::specs::Laid::body_laid))]
fn put_fields(out: &mut [u8], pool: &[u8], blockdev: &[u8], f: BlockFields)
    ensures { out.new ≡ body_laid (length out.old) pool.now blockdev.now f }
{
    endian::clear(out);
    endian::put(out, 4, &signature());
    endian::write_u64(out, 20, f.device.sectors);
    endian::put(out, 32, pool);
    endian::put(out, 64, blockdev);
    put_entry(out, 96, f.a);
    put_entry(out, 128, f.b);
    endian::write_u32(out, 160, f.device.metadata);
    endian::write_u32(out, 164, f.device.reserved);
}

// Stores the checksum of bytes 4 to 511 at the start.
#[tactic(auto, unfolding(crate::specs::Writing::sealed))]
fn seal(b: &mut [u8])
    ensures { b.new ≡ sealed b.old }
{
    let c = checksum::checksum(endian::window(b, 4, 508));
    endian::write_u32(b, 0, c);
}

// The first test, 1, 4, 6 to 9, that fails.
#[tactic(auto, unfolding(refusal::specs::Tests::first))]
fn check_write(out: &[u8], pool: &[u8], blockdev: &[u8], f: BlockFields) -> Result<(), Reason>
    ensures { result ≡ answer (first (write_tests out.now pool.now blockdev.now f)) tt }
{
    let whole = (out.len() == layout::SECTOR_BYTES) & ((pool.len() == 32) & (blockdev.len() == 32));
    if !whole {
        return Err(Reason::SliceSize);
    }
    if !layout::size_allowed(f.device.sectors) {
        return Err(Reason::DeviceSize);
    }
    check_limits(pool, blockdev, f)
}

// Writes a signature block with these fields into out, or changes nothing and answers what a reader would refuse. The UUIDs are slices of any
// length, 1 where it is not 32 (decision 10); an array would ask more of the caller.
#[tactic(auto, unfolding(crate::specs::Writing::written))]
pub fn write(out: &mut [u8], pool: &[u8], blockdev: &[u8], f: BlockFields) -> Result<(), Reason>
    ensures value { result ≡ answer (first (write_tests out.old pool.now blockdev.now f)) tt }
    ensures out_after { out.new ≡ written out.old pool.now blockdev.now f }
{
    check_write(out, pool, blockdev, f)?;
    put_fields(out, pool, blockdev, f);
    seal(out);
    Ok(())
}
