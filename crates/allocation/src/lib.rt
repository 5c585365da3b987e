// The free room of a device with a segment record: free runs, allocation, release. Every call checks the device numbers and
// the record first, once, and then walks the segments in their order.
#![tactic(auto, unfolding(record::specs::Accept::named, record::specs::Accept::checked, refusal::specs::Refusals::plain_but, refusal::specs::Tests::first))]

mod walk;

ghost use Rattle.std.specs.Prelude.{◌≡◌, ◌+◌, ◌^◌, ◌≤◌, ◌<◌, length, take, drop};
ghost use Rattle.endian.specs.Bytes.{splice};
ghost use Rattle.segments.specs.Sectors.{allocated};
ghost use Rattle.items.specs.Head.{item_bytes};
ghost use Rattle.items.specs.Items.{segments_in, segments};
ghost use Rattle.allocation.specs.Walking.{walked, meant, left};
ghost use Rattle.allocation.specs.Answers.{runs_answer, run_answer, total_answer, fit_answer, table_answer, table_left, numbers_answer, numbers_left};
ghost use Rattle.allocation.specs.Change.{allocate_answer, allocate_left, release_answer, release_left};

use layout::Device;
use refusal::Reason;
use runs::Run;
use segments::{Range, Segment};
use walk::Gaps;

// What is allocated: the new segment's first sector, and the new record's length in bytes.
#[derive(Clone, Copy, PartialEq, Eq)]
pub struct Allocation {
    pub start: u64,
    pub length: usize,
}

// The gaps that the segments of a record leave in a range, where `at` begins with their positions in their order.
fn gaps_in<'a>(s: &'a [u8], at: &'a [u16; items::MOST_SEGMENTS], r: Range) -> Gaps<'a>
    ensures all { left result ≡ walked r (segments s.now) (meant s.now at.now) }
    ensures few { length (left result) < 2 ^ 64 }
{
    let t = items::items_of(s);
    Gaps::new(t, &at[..items::MOST_SEGMENTS.min(items::count_in(t))], r)
}

// The number of free runs.
pub fn count_runs(d: Device, s: &[u8]) -> Result<u64, Reason>
    ensures { result ≡ runs_answer d s.now }
{
    let at = record::check_in_order(d, s)?;
    Ok(gaps_in(s, &at, items::data_range(d)).number() as u64)
}

// Free run number k, counted from 0 and ascending; a run of no sectors at 0 where there is none.
pub fn run_at(d: Device, s: &[u8], k: u64) -> Result<Run, Reason>
    ensures { result ≡ run_answer d s.now k }
{
    let at = record::check_in_order(d, s)?;
    Ok(gaps_in(s, &at, items::data_range(d)).run(k as usize))
}

// The sum of the segments' lengths.
fn allocated_of(t: &[u8]) -> u64
    requires { allocated (segments_in t.now) < 2 ^ 64 }
    ensures { result ≡ allocated (segments_in t.now) }
{
    let mut sum: u64 = 0;
    for i in 0..items::count_in(t) {
        sum += items::segment_in(t, i).sectors;
    }
    sum
}

// The number of free sectors.
pub fn free_total(d: Device, s: &[u8]) -> Result<u64, Reason>
    ensures { result ≡ total_answer d s.now }
{
    record::check(d, s)?;
    let data = layout::data_end(d) - layout::data_start(d);
    Ok(data - allocated_of(items::items_of(s)))
}

// The free run of lowest start that has m sectors or more.
pub fn first_fit(d: Device, s: &[u8], m: u64) -> Result<Run, Reason>
    ensures { result ≡ fit_answer d s.now m }
{
    let at = record::check_in_order(d, s)?;
    if m < 1 {
        return Err(Reason::SegmentPlace);
    }
    gaps_in(s, &at, items::data_range(d))
        .fit(m)
        .ok_or(Reason::NoRoom)
}

// What `allocate` answers where w bytes are lent.
fn allocation_of(d: Device, s: &[u8], kind: u16, m: u64, w: usize) -> Result<Allocation, Reason>
    ensures { result ≡ allocate_answer d s.now kind m w }
{
    let at = record::check_in_order(d, s)?;
    let h = items::head_of(s);
    if !items::allowed(h, kind) {
        return Err(Reason::RecordForm);
    }
    if m < 1 {
        return Err(Reason::SegmentPlace);
    }
    if items::most_segments(h) <= items::count_of(s) {
        return Err(Reason::RecordFull);
    }
    let Some(r) = gaps_in(s, &at, items::range_for(d, h, kind)).fit(m) else {
        return Err(Reason::NoRoom);
    };
    if w < s.len() + items::ITEM_BYTES {
        return Err(Reason::SliceSize);
    }
    Ok(Allocation {
        start: r.start,
        length: s.len() + items::ITEM_BYTES,
    })
}

// Allocates m sectors for a segment of this kind: the new record is written to the start of out.
pub fn allocate(
    d: Device,
    s: &[u8],
    kind: u16,
    m: u64,
    out: &mut [u8],
) -> Result<Allocation, Reason>
    ensures value { result ≡ allocate_answer d s.now kind m (length out.old) }
    ensures out_after { out.new ≡ allocate_left d s.now kind m out.old }
{
    let a = allocation_of(d, s, kind, m, out.len())?;
    endian::put(out, 0, s);
    let g = Segment {
        kind,
        start: a.start,
        sectors: m,
    };
    // There is room for it.
    let _ = items::put_segment(out, s.len(), g);
    Ok(a)
}

// What `release` answers where w bytes are lent.
fn released_of(d: Device, s: &[u8], position: usize, w: usize) -> Result<usize, Reason>
    ensures { result ≡ release_answer d s.now position w }
{
    record::check(d, s)?;
    if items::count_of(s) <= position {
        return Err(Reason::NoSegment);
    }
    if w < s.len() - items::ITEM_BYTES {
        return Err(Reason::SliceSize);
    }
    Ok(s.len() - items::ITEM_BYTES)
}

// Lays s over the start of out, without the item at `at`.
fn lay_without(out: &mut [u8], s: &[u8], at: usize)
    requires { at + item_bytes ≤ length s.now }
    ensures { out.new ≡ splice (splice out.old 0 (take at s.now)) at (drop (at + item_bytes) s.now) }
{
    endian::put(out, 0, &s[..at]);
    endian::put(out, at, &s[at + items::ITEM_BYTES..]);
}

// Releases the segment at a position: the new record is written to the start of out.
pub fn release(d: Device, s: &[u8], position: usize, out: &mut [u8]) -> Result<usize, Reason>
    ensures value { result ≡ release_answer d s.now position (length out.old) }
    ensures out_after { out.new ≡ release_left d s.now position out.old }
{
    let length = released_of(d, s, position, out.len())?;
    lay_without(out, s, items::place_in(s, position));
    Ok(length)
}

// Writes every free run to a table of numbers, ascending: a start and a length for each. The numbers past them stay.
pub fn free_run_numbers(d: Device, s: &[u8], table: &mut [u64]) -> Result<u64, Reason>
    ensures value { result ≡ numbers_answer d s.now (length table.old) }
    ensures table_after { table.new ≡ numbers_left d s.now table.old }
{
    let at = record::check_in_order(d, s)?;
    let gaps = gaps_in(s, &at, items::data_range(d));
    let n = gaps.number();
    if table.len() / 2 < n {
        return Err(Reason::SliceSize);
    }
    gaps.fill_numbers(table);
    Ok(n as u64)
}

// Writes every free run to the table's first entries, ascending; the entries past them stay.
pub fn free_runs(d: Device, s: &[u8], table: &mut [Run]) -> Result<u64, Reason>
    ensures value { result ≡ table_answer d s.now (length table.old) }
    ensures table_after { table.new ≡ table_left d s.now table.old }
{
    let at = record::check_in_order(d, s)?;
    let gaps = gaps_in(s, &at, items::data_range(d));
    let n = gaps.number();
    if table.len() < n {
        return Err(Reason::SliceSize);
    }
    gaps.fill(table);
    Ok(n as u64)
}

// The same with the device numbers as plain parameters.
pub fn free_runs_of(
    sectors: u64,
    metadata: u32,
    reserved: u32,
    s: &[u8],
    table: &mut [Run],
) -> Result<u64, Reason>
    ensures value { result ≡ table_answer (record { sectors = sectors; metadata = metadata; reserved = reserved }) s.now (length table.old) }
    ensures table_after { table.new ≡ table_left (record { sectors = sectors; metadata = metadata; reserved = reserved }) s.now table.old }
{
    let d = Device {
        sectors,
        metadata,
        reserved,
    };
    free_runs(d, s, table)
}
