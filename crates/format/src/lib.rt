// Formatting: both copies of a device's metadata filled anew, with a first record in area a; and the stores that write both
// to a device. The copies are lent as discovery takes them.
#![tactic(auto, unfolding(refusal::specs::Refusals::plain_but, refusal::specs::Tests::first, layout::specs::Limits::length_allowed, layout::specs::Limits::record_limit, layout::specs::Places::area_offset, layout::specs::Places::copy_bytes, record::specs::Accept::named, sectors::specs::Sectors::area_start, sectors::specs::Sectors::copy_sectors, crate::specs::Format::format_number, crate::specs::Writing::areas_sectors, crate::specs::Writing::by_group, crate::specs::Writing::store_count))]

ghost use Rattle.std.specs.Prelude.{◌≡◌, true, ◌<◌, length, Some, None};
ghost use Rattle.layout.specs.Limits.{length_allowed, sector_bytes};
ghost use Rattle.layout.specs.Places.{copy_bytes};
ghost use Rattle.record.specs.Accept.{answered};
ghost use Rattle.discovery.specs.Discovery.{sized};
ghost use Rattle.sectors.specs.Sectors.{copy_sectors, sector_at};
ghost use Rattle.sectors.specs.Demand.{nth_sector};
ghost use Rattle.format.specs.Format.{format_number, first_fields, formatted};
ghost use Rattle.format.specs.Filling.{filled};
ghost use Rattle.format.specs.declared.Part.TheVariants as Part;
ghost use Rattle.format.specs.Writing.{by_group, store_count, position_of, group_at, flush_after, sector_on, bytes_on, store_answer, store_left};

use block::{BlockFields, Holding, Time};
use discovery::Copies;
use layout::{Area, Device, Side};
use refusal::Reason;

// The sectors of a copy, of its header and of its two areas.
const SECTORS: u64 = (layout::COPY_BYTES / layout::SECTOR_BYTES) as u64;

const HEADER: u64 = layout::HEADER_SECTORS;

const AREAS: u64 = SECTORS - HEADER;

// The stores before the front's header, and all.
const FRONT_HEADER: u64 = SECTORS + AREAS;

const STORES: u64 = 2 * SECTORS;

// Why formatting two copies is refused: 1, 4, 6 to 9, 15 or 17 to 19, the lowest that applies, 19 with the two segments that clash.
fn check(
    c: Copies<'_>,
    d: Device,
    pool: &[u8],
    blockdev: &[u8],
    t: Time,
    r: &[u8],
) -> Result<(), Reason>
    ensures { result ≡ answered (format_number c.entry.front.now c.entry.back.now d pool.now blockdev.now t r.now) r.now tt }
{
    let sized = c.sized() & ((pool.len() == 32) & (blockdev.len() == 32));
    if !sized {
        return Err(Reason::SliceSize);
    }
    if !layout::size_allowed(d.sectors) {
        return Err(Reason::DeviceSize);
    }
    let hex = block::all_hex(pool) & block::all_hex(blockdev);
    if !hex {
        return Err(Reason::UuidByte);
    }
    if !layout::metadata_allowed(d.metadata) {
        return Err(Reason::MetadataSize);
    }
    if !layout::reserved_allowed(d.reserved) {
        return Err(Reason::ReservedSize);
    }
    let within = t.nanoseconds <= layout::MOST_NANOSECONDS;
    if !within {
        return Err(Reason::AreaEntry);
    }
    record::check_content(d, r)
}

// The block's numbers: area a holds the record, area b is unused.
fn first_fields(d: Device, t: Time, r: &[u8]) -> BlockFields
    requires { length_allowed (length r.now) ≡ true }
    ensures { result ≡ first_fields d t r.now }
{
    let h = Holding {
        seconds: t.seconds,
        nanoseconds: t.nanoseconds,
        bytes: r.len() as u32,
        checksum: checksum::checksum(r),
    };
    BlockFields {
        device: d,
        a: Some(h),
        b: None,
    }
}

// Fills one copy: zeros, the block into sector 1, the record into area a. What would refuse either was tested before.
fn fill(c: &mut [u8], pool: &[u8], blockdev: &[u8], x: BlockFields, r: &[u8])
    requires { length c.old ≡ copy_bytes }
    ensures { c.new ≡ filled pool.now blockdev.now x r.now }
{
    endian::clear(c);
    let _ = block::write(
        &mut c[layout::BLOCK_OFFSET..layout::BLOCK_END],
        pool,
        blockdev,
        x,
    );
    let _ = stores::lay(c, Area::A, r);
}

// Formats the two copies of a device with these numbers and UUIDs, with a record and its time; or changes nothing and answers why not. Both are
// lent to be changed, which `Copies` are not.
#[tactic(auto, unfolding(crate::specs::Format::formatted))]
pub fn format_copies(
    f: &mut [u8],
    b: &mut [u8],
    d: Device,
    pool: &[u8],
    blockdev: &[u8],
    t: Time,
    r: &[u8],
) -> Result<(), Reason>
    ensures value { result ≡ answered (format_number f.old b.old d pool.now blockdev.now t r.now) r.now tt }
    ensures f_after { f.new ≡ formatted f.old f.old b.old d pool.now blockdev.now t r.now }
    ensures b_after { b.new ≡ formatted b.old f.old b.old d pool.now blockdev.now t r.now }
{
    let c = Copies { front: f, back: b };
    check(c, d, pool, blockdev, t, r)?;
    let x = first_fields(d, t, r);
    fill(f, pool, blockdev, x, r);
    fill(b, pool, blockdev, x, r);
    Ok(())
}

// How many stores write both copies: every sector of each.
pub fn count() -> u64
    ensures { result ≡ store_count }
{
    STORES
}

// The parts of both copies in the order in which they are stored, with a flush after each.
#[derive(Clone, Copy)]
enum Part {
    BackAreas,
    BackHeader,
    FrontAreas,
    FrontHeader,
}

// The part that store i writes; none past the last store.
fn part_of(i: u64) -> Option<Part>
    ensures { result ≡ by_group i (Some Part.BackAreas) (Some Part.BackHeader) (Some Part.FrontAreas) (Some Part.FrontHeader) None }
{
    if i < AREAS {
        return Some(Part::BackAreas);
    }
    if i < SECTORS {
        return Some(Part::BackHeader);
    }
    if i < FRONT_HEADER {
        return Some(Part::FrontAreas);
    }
    if i < STORES {
        return Some(Part::FrontHeader);
    }
    None
}

// Which sector of both copies store i is, the front copy's sectors counted first, then the back's: the back's areas are stored first, then its
// header, then the front's areas and its header. As many as there are past the last store.
pub fn position(i: u64) -> usize
    ensures { result ≡ position_of i }
{
    let p = match part_of(i) {
        Some(Part::BackAreas) => SECTORS + HEADER + i,
        Some(Part::BackHeader) => SECTORS + (i - AREAS),
        Some(Part::FrontAreas) => HEADER + (i - SECTORS),
        Some(Part::FrontHeader) => i - FRONT_HEADER,
        None => STORES,
    };
    p as usize
}

// The group of store i: 0 the back's areas, 1 the back's header, 2 the front's areas, 3 the front's header; 4 past the last store. A
// flush belongs after the last store of each group. By number: C and `Demand.Writes` count the groups so.
pub fn group(i: u64) -> u8
    ensures { result ≡ group_at i }
{
    match part_of(i) {
        Some(Part::BackAreas) => 0,
        Some(Part::BackHeader) => 1,
        Some(Part::FrontAreas) => 2,
        Some(Part::FrontHeader) => 3,
        None => 4,
    }
}

// Whether a flush belongs after store i: it is the last of its group. Not past the last store.
pub fn flush(i: u64) -> bool
    ensures { result ≡ flush_after i }
{
    i < STORES && group(i) != group(i + 1)
}

// Sector k of a side's copy into out; the sector of the device that it goes to.
#[tactic(auto, unfolding(layout::specs::Limits::record_limit, layout::specs::Places::copy_bytes, sectors::specs::Sectors::copy_sectors))]
fn put_sector(side: Side, d: Device, c: &[u8], k: usize, out: &mut [u8]) -> u64
    requires c_size { length c.now ≡ copy_bytes }
    requires k_bound { k < copy_sectors }
    requires out_size { length out.old ≡ sector_bytes }
    ensures value { result ≡ sector_at side d k }
    ensures out_after { out.new ≡ nth_sector c.now k }
{
    endian::put(
        out,
        0,
        endian::window(c, layout::SECTOR_BYTES * k, layout::SECTOR_BYTES),
    );
    sectors::sector_at(side, d, k)
}

// The bytes of store i into out; the sector of the device that they go to.
fn put_store(d: Device, c: Copies<'_>, i: u64, out: &mut [u8]) -> u64
    requires c_size { sized c.front.now c.back.now ≡ true }
    requires i_bound { i < store_count }
    requires out_size { length out.old ≡ sector_bytes }
    ensures value { result ≡ sector_on d (position_of i) }
    ensures out_after { out.new ≡ bytes_on c.entry.front.now c.entry.back.now (position_of i) }
{
    let p = position(i);
    if p < SECTORS as usize {
        return put_sector(Side::Front, d, c.front, p, out);
    }
    put_sector(Side::Back, d, c.back, p - SECTORS as usize, out)
}

// The store with number i, counted from 0, that writes two copies as they are lent to a device with these numbers: its 512 bytes into out, its
// sector as the answer. 1 for a slice of another size; 4, 7 or 8 for device numbers that are not allowed; 23 past the last store. Then out
// stays.
#[tactic(auto, unfolding(refusal::specs::Tests::first, layout::specs::Limits::record_limit, layout::specs::Places::copy_bytes, sectors::specs::Sectors::copy_sectors, crate::specs::Writing::store_count))]
pub fn store(d: Device, c: Copies<'_>, i: u64, out: &mut [u8]) -> Result<u64, Reason>
    ensures value { result ≡ store_answer d c.entry.front.now c.entry.back.now i out.old }
    ensures out_after { out.new ≡ store_left d c.entry.front.now c.entry.back.now i out.old }
{
    let sized = c.sized() & (out.len() == layout::SECTOR_BYTES);
    if !sized {
        return Err(Reason::SliceSize);
    }
    layout::check(d)?;
    if STORES <= i {
        return Err(Reason::NoStore);
    }
    Ok(put_store(d, c, i, out))
}
