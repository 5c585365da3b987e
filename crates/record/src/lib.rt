// The segment record: checked against a device's numbers, and read.
#![tactic(auto, unfolding(crate::specs::Accept::all_in_range, crate::specs::Accept::named, crate::specs::Accept::checked, refusal::specs::Refusals::plain_but, refusal::specs::Tests::first, crate::specs::Answers::handed_on, crate::specs::Answers::all_values))]

ghost use Rattle.std.specs.Prelude.{◌≡◌, [], ◌++◌, ◌+◌, ◌*◌, ◌≤◌, length, take, drop};
ghost use Rattle.refusal.specs.Tests.{first};
ghost use Rattle.items.specs.Items.{segments, segments_in};
ghost use Rattle.record.specs.Accept.{all_in_range, content_tests, record_tests, answered, checked, clash_reason};
ghost use Rattle.record.specs.Answers.{segment_answer, count_answer, head_answer, segments_answer, segments_left, all_values};

use items::Head;
use layout::Device;
use order::Clash;
use refusal::Reason;
use segments::Segment;

// Whether every segment is not empty and lies wholly in the range that its kind may lie in.
fn all_in_range(d: Device, h: Head, t: &[u8]) -> bool
    ensures { result ≡ all_in_range d h (segments_in t.now) }
{
    for i in 0..items::count_in(t) {
        let g = items::segment_in(t, i);
        if !segments::in_range(items::range_for(d, h, g.kind), g) {
            return false;
        }
    }
    true
}

// Why a record is refused whose segments have no order: two of them clash, or one is empty.
fn clash_reason(clash: Option<Clash>) -> Reason
    ensures { result ≡ clash_reason clash }
{
    match clash {
        Some(c) => Reason::SegmentClash(c.first as u64, c.second as u64),
        None => Reason::SegmentPlace,
    }
}

// The positions of the segments in their order, of a record on a device whose numbers are allowed. It is refused by its length, its form, a
// segment's place, or two segments that clash, the first that applies.
// The hint lets a caller that wants no positions go without a copy of them.
#[inline(always)]
fn content_in_order(d: Device, s: &[u8]) -> Result<[u16; items::MOST_SEGMENTS], Reason>
    ensures { result ≡ checked (first (content_tests d s.now)) s.now }
{
    if !layout::length_allowed(s.len() as u64) {
        return Err(Reason::RecordLength);
    }
    if !items::well_formed(d, s) {
        return Err(Reason::RecordForm);
    }
    let t = items::items_of(s);
    if !all_in_range(d, items::head_of(s), t) {
        return Err(Reason::SegmentPlace);
    }
    // In place: `order::order_of(t).map_err(clash_reason)` copies the positions three times more.
    let mut at = [0u16; items::MOST_SEGMENTS];
    match order::arrange(t, &mut at) {
        Ok(()) => Ok(at),
        Err(c) => Err(clash_reason(c)),
    }
}

// The check of device numbers and a record: the positions of its segments in their order. It is refused by the device numbers, then by the
// record's length, its form, a segment's place, or two segments that clash, the first that applies.
pub fn check_in_order(d: Device, s: &[u8]) -> Result<[u16; items::MOST_SEGMENTS], Reason>
    ensures { result ≡ checked (first (record_tests d s.now)) s.now }
{
    layout::check(d)?;
    content_in_order(d, s)
}

// The check of a record's content alone: the device numbers are not tested here.
pub fn check_content(d: Device, s: &[u8]) -> Result<(), Reason>
    ensures { result ≡ answered (first (content_tests d s.now)) s.now tt }
{
    content_in_order(d, s)?;
    Ok(())
}

// The check of device numbers and a record. They stay two parameters, here and in `allocation`: in one struct a call reads
// `run_at(Record { device, content }, k)` and its clause `run_answer r.device r.entry.content.now k`.
pub fn check(d: Device, s: &[u8]) -> Result<(), Reason>
    ensures { result ≡ answered (first (record_tests d s.now)) s.now tt }
{
    layout::check(d)?;
    content_in_order(d, s)?;
    Ok(())
}

// The segment at a position, counted from 0.
pub fn read_segment(d: Device, s: &[u8], position: usize) -> Result<Segment, Reason>
    ensures { result ≡ segment_answer d s.now position }
{
    check(d, s)?;
    if items::count_of(s) <= position {
        return Err(Reason::NoSegment);
    }
    Ok(items::segment_at(s, position))
}

// The number of segments.
pub fn read_count(d: Device, s: &[u8]) -> Result<usize, Reason>
    ensures { result ≡ count_answer d s.now }
{
    check(d, s)?;
    Ok(items::count_of(s))
}

// The head.
pub fn read_head(d: Device, s: &[u8]) -> Result<Head, Reason>
    ensures { result ≡ head_answer d s.now }
{
    check(d, s)?;
    Ok(items::head_of(s))
}

// Writes n segments from a position on to the start of a table: kind, start and length for each.
fn put_segments(t: &[u8], position: usize, n: usize, table: &mut [u64])
    requires { (position + n ≤ length (segments_in t.now)) × (3 * n ≤ length table.old) }
    ensures { table.new ≡ all_values (take n (drop position (segments_in t.now))) ++ drop (3 * n) table.old }
{
    for i in 0..n {
        let g = items::segment_in(t, position + i);
        table[3 * i] = g.kind as u64;
        table[3 * i + 1] = g.start;
        table[3 * i + 2] = g.sectors;
    }
}

// The segments from a position on, one check for all of them: as many as the table has room for, three numbers for each. None where
// there is none left.
pub fn read_segments(
    d: Device,
    s: &[u8],
    position: usize,
    table: &mut [u64],
) -> Result<usize, Reason>
    ensures value { result ≡ segments_answer d s.now position (length table.old) }
    ensures table_after { table.new ≡ segments_left d s.now position table.old }
{
    check(d, s)?;
    let t = items::items_of(s);
    let many = items::count_in(t);
    if many <= position {
        return Ok(0);
    }
    if table.len() < 3 {
        return Err(Reason::SliceSize);
    }
    let k = (table.len() / 3).min(many - position);
    put_segments(t, position, k, table);
    Ok(k)
}
