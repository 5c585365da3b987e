// Where things lie on a device, from its three numbers: S sectors in all, L of the metadata areas of a copy (L / 2 each), R of
// reserved space. The sizes of what lies there, and their limits.
// Sectors are u64, and nothing wraps for any S.
#![tactic(auto)]

ghost use Rattle.std.specs.Prelude.{◌≡◌, ◌-◌};
ghost use Rattle.refusal.specs.Reasons.{answer};
ghost use Rattle.refusal.specs.Tests.{first};
ghost use Rattle.layout.specs.Limits.{size_allowed, metadata_allowed, reserved_allowed, length_allowed, device_tests};
ghost use Rattle.layout.specs.Places.{block_sector, area_sector, data_start, data_end, area_offset, copy_bytes, located, blocks_located};

use refusal::Reason;

pub const SECTOR_BYTES: usize = 512;

// Added to a number of bytes, it rounds that up to whole sectors.
pub const ROUND_UP: usize = SECTOR_BYTES - 1;

// The sectors of the smallest device.
pub const LEAST_SECTORS: u64 = 2097152;

// A copy's header.
pub const HEADER_SECTORS: u64 = 8;

pub const HEADER_BYTES: usize = HEADER_SECTORS as usize * SECTOR_BYTES;

// Where the signature block begins and ends in a copy as it is lent, in bytes: the header's sector 1.
pub const BLOCK_OFFSET: usize = SECTOR_BYTES;

pub const BLOCK_END: usize = BLOCK_OFFSET + SECTOR_BYTES;

// The most bytes of a record.
pub const RECORD_LIMIT: u64 = 8192;

// A copy as it is lent: the header, then as much of each area as a record can fill.
pub const COPY_BYTES: usize = HEADER_BYTES + 2 * RECORD_LIMIT as usize;

// A dump: the front copy, then the back.
pub const DUMP_BYTES: usize = 2 * COPY_BYTES;

// The most nanoseconds of a time.
pub const MOST_NANOSECONDS: u32 = 999999999;

// The device's numbers, as the signature block has them.
#[repr(C)]
#[derive(Clone, Copy, PartialEq, Eq)]
pub struct Device {
    // S, in sectors.
    pub sectors: u64,
    // L, in sectors.
    pub metadata: u32,
    // R, in sectors.
    pub reserved: u32,
}

// The two copies of the metadata.
#[derive(Clone, Copy, PartialEq, Eq)]
pub enum Side {
    Front,
    Back,
}

// The two metadata areas of a copy.
#[derive(Clone, Copy, PartialEq, Eq)]
pub enum Area {
    A,
    B,
}

// First sectors of a copy's parts.
#[repr(C)]
#[derive(Clone, Copy, PartialEq, Eq)]
pub struct CopyMap {
    pub header: u64,
    pub block: u64,
    pub a: u64,
    pub b: u64,
    pub reserved: u64,
}

// Both copies, and the data range: from start up to, not including, end.
#[repr(C)]
#[derive(Clone, Copy, PartialEq, Eq)]
pub struct DeviceMap {
    pub front: CopyMap,
    pub back: CopyMap,
    pub start: u64,
    pub end: u64,
}

// The sectors of the front's signature block and of the back's.
#[derive(Clone, Copy, PartialEq, Eq)]
pub struct BlockSectors {
    pub front: u64,
    pub back: u64,
}

// Whether S is allowed.
pub fn size_allowed(s: u64) -> bool
    ensures { result ≡ size_allowed s }
{
    LEAST_SECTORS <= s
}

// Whether L is allowed.
pub fn metadata_allowed(l: u32) -> bool
    ensures { result ≡ metadata_allowed l }
{
    (l % 2 == 0) & ((2040 <= l) & (l <= 16384))
}

// Whether R is allowed.
pub fn reserved_allowed(r: u32) -> bool
    ensures { result ≡ reserved_allowed r }
{
    r <= 65536
}

// Whether a record may have n bytes.
pub fn length_allowed(n: u64) -> bool
    ensures { result ≡ length_allowed n }
{
    (1 <= n) & (n <= RECORD_LIMIT)
}

// The reason why device numbers are not allowed, of 4, 7 or 8 the lowest that applies.
#[tactic(auto, unfolding(refusal::specs::Tests::first))]
pub fn check(d: Device) -> Result<(), Reason>
    ensures { result ≡ answer (first (device_tests d)) tt }
{
    if !size_allowed(d.sectors) {
        return Err(Reason::DeviceSize);
    }
    if !metadata_allowed(d.metadata) {
        return Err(Reason::MetadataSize);
    }
    if !reserved_allowed(d.reserved) {
        return Err(Reason::ReservedSize);
    }
    Ok(())
}

// The sector of a copy's signature block; of any numbers, with differences that stop at 0.
pub fn block_sector(side: Side, d: Device) -> u64
    ensures { result ≡ block_sector side d }
{
    match side {
        Side::Front => 1,
        Side::Back => d.sectors.saturating_sub(7),
    }
}

// The first sector of a metadata area of a copy; of any numbers, with differences that stop at 0.
pub fn area_sector(side: Side, area: Area, d: Device) -> u64
    ensures { result ≡ area_sector side area d }
{
    let l = d.metadata as u64;
    match side {
        Side::Front => match area {
            Area::A => HEADER_SECTORS,
            Area::B => HEADER_SECTORS + l / 2,
        },
        Side::Back => match area {
            Area::A => d.sectors.saturating_sub(HEADER_SECTORS).saturating_sub(l),
            Area::B => d
                .sectors
                .saturating_sub(HEADER_SECTORS)
                .saturating_sub(l / 2),
        },
    }
}

// Where an area begins in a copy as it is lent, in bytes.
pub fn area_offset(x: Area) -> usize
    ensures { result ≡ area_offset x }
{
    match x {
        Area::A => HEADER_BYTES,
        Area::B => HEADER_BYTES + RECORD_LIMIT as usize,
    }
}

// The bytes of a copy as it is lent.
pub fn copy_bytes() -> usize
    ensures { result ≡ copy_bytes }
{
    COPY_BYTES
}

// The first data sector; of any numbers.
pub fn data_start(d: Device) -> u64
    ensures { result ≡ data_start d }
{
    HEADER_SECTORS + d.metadata as u64 + d.reserved as u64
}

// The first sector past the data range; of any numbers, with differences that stop at 0.
pub fn data_end(d: Device) -> u64
    ensures { result ≡ data_end d }
{
    d.sectors
        .saturating_sub(HEADER_SECTORS)
        .saturating_sub(d.metadata as u64)
        .saturating_sub(d.reserved as u64)
}

// The places of both copies and the data range, or why the device numbers are not allowed.
pub fn locate(d: Device) -> Result<DeviceMap, Reason>
    ensures { result ≡ located d }
{
    check(d)?;
    let l = d.metadata as u64;
    let front = CopyMap {
        header: 0,
        block: block_sector(Side::Front, d),
        a: area_sector(Side::Front, Area::A, d),
        b: area_sector(Side::Front, Area::B, d),
        reserved: HEADER_SECTORS + l,
    };
    let back = CopyMap {
        header: d.sectors.saturating_sub(HEADER_SECTORS),
        block: block_sector(Side::Back, d),
        a: area_sector(Side::Back, Area::A, d),
        b: area_sector(Side::Back, Area::B, d),
        reserved: data_end(d),
    };
    Ok(DeviceMap {
        front,
        back,
        start: data_start(d),
        end: data_end(d),
    })
}

// Where the two signature blocks lie on a device of S sectors, or 4: what is known before any block has been read.
pub fn locate_blocks(sectors: u64) -> Result<BlockSectors, Reason>
    ensures { result ≡ blocks_located sectors }
{
    if !size_allowed(sectors) {
        return Err(Reason::DeviceSize);
    }
    let d = Device {
        sectors,
        metadata: 0,
        reserved: 0,
    };
    Ok(BlockSectors {
        front: block_sector(Side::Front, d),
        back: block_sector(Side::Back, d),
    })
}
