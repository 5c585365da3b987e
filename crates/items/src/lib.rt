// The items of a segment record: a head, then segments, each with its length first, then its kind. Read and made; what depends on
// the head's kind is here, and what changes it in `heads`.
#![tactic(auto, unfolding(crate::specs::Head::item_of, crate::specs::Head::head_of, crate::specs::Head::head_kind, crate::specs::Head::head_size, crate::specs::Head::head_bytes, crate::specs::Head::block_size, crate::specs::Head::low_water, crate::specs::Head::head_allowed, crate::specs::Head::head_right, crate::specs::Head::allows, crate::specs::Head::range_for, crate::specs::Head::most_segments, crate::specs::Items::items_of, crate::specs::Items::segment_of, crate::specs::Items::item_right, crate::specs::Items::framed, crate::specs::Items::well_formed, crate::specs::Making::segment_bytes, crate::specs::Making::place, crate::specs::Making::begins, refusal::specs::Tests::first, endian::specs::Bytes::fits, endian::specs::Bytes::splice))]

ghost use Rattle.std.specs.Prelude.{◌≡◌, ◌*◌, ◌/◌, ◌<◌, ◌≤◌, min, length};
ghost use Rattle.refusal.specs.Tests.{first};
ghost use Rattle.refusal.specs.Reasons.{answer};
ghost use Rattle.endian.specs.Bytes.{le, window, splice};
ghost use Rattle.search.specs.Search.{every};
ghost use Rattle.segments.specs.Segments.{nth};
ghost use Rattle.items.specs.declared.Head.TheVariants.{Plain, Marked};
ghost use Rattle.items.specs.Head.{item_of, is_segment, head_of, head_kind, head_size, head_bytes, block_size, low_water, block_size_allowed, mark_allowed, head_allowed, head_right, allows, data_range, range_for, item_bytes, most_segments};
ghost use Rattle.items.specs.Items.{items_of, segment_of, segments_in, segments, item_right, framed, well_formed};
ghost use Rattle.items.specs.Making.{segment_bytes, place, room_tests, begin_tests, begun, begins, put_answer, put_left};

use layout::Device;
use refusal::Reason;
use segments::{Range, Segment};

// Bytes of a segment's item.
pub const ITEM_BYTES: usize = 20;

// Bytes of a head of kind 16, the smallest head.
pub const HEAD_BYTES: usize = 8;

// Bytes of a head of kind 17.
pub const MARKED_HEAD_BYTES: usize = 12;

// The kinds of heads.
pub const PLAIN_KIND: u16 = 16;

pub const MARKED_KIND: u16 = 17;

// The most segments that any record has.
pub const MOST_SEGMENTS: usize = (layout::RECORD_LIMIT as usize - HEAD_BYTES) / ITEM_BYTES;

// What an item's kind says it is.
#[derive(Clone, Copy)]
pub enum Item {
    ThinMetadata,
    ThinData,
    Spare,
    MetadataVolume,
    Head,
    MarkedHead,
    Unknown,
}

impl From<u16> for Item {
    ghost from_gives = { λ k i. i ≡ item_of k };

    // What an item of this kind is.
    fn from(kind: u16) -> Item {
        match kind {
            1 => Item::ThinMetadata,
            2 => Item::ThinData,
            3 => Item::Spare,
            4 => Item::MetadataVolume,
            PLAIN_KIND => Item::Head,
            MARKED_KIND => Item::MarkedHead,
            0 | 5..=15 | 18..=65535 => Item::Unknown,
        }
    }
}

impl Item {
    // Whether an item is a segment.
    fn is_segment(self) -> bool
        ensures { result ≡ is_segment self }
    {
        matches!(
            self,
            Item::ThinMetadata | Item::ThinData | Item::Spare | Item::MetadataVolume
        )
    }
}

// The head of a record: of kind 16, with the data block size in sectors; of kind 17, with that and the low water mark in blocks; or none that is
// known.
#[derive(Clone, Copy)]
pub enum Head {
    Plain(u32),
    Marked(u32, u32),
    Unknown,
}

// The head of a record, of any bytes.
pub fn head_of(s: &[u8]) -> Head
    ensures { result ≡ head_of s.now }
{
    let size = endian::read_u32(s, 4);
    let mark = endian::read_u32(s, 8);
    match Item::from(endian::read_u16(s, 2)) {
        Item::Head => Head::Plain(size),
        Item::MarkedHead => Head::Marked(size, mark),
        _ => Head::Unknown,
    }
}

// The bytes of a head; 0 where it is not known.
pub fn head_size(h: Head) -> usize
    ensures { result ≡ head_size h }
{
    match h {
        Head::Plain(_) => HEAD_BYTES,
        Head::Marked(_, _) => MARKED_HEAD_BYTES,
        Head::Unknown => 0,
    }
}

// The kind of a head; 0 where it is not known.
pub fn head_kind(h: Head) -> u16
    ensures { result ≡ head_kind h }
{
    match h {
        Head::Plain(_) => PLAIN_KIND,
        Head::Marked(_, _) => MARKED_KIND,
        Head::Unknown => 0,
    }
}

// The data block size in sectors.
pub fn block_size(h: Head) -> u32
    ensures { result ≡ block_size h }
{
    match h {
        Head::Plain(size) | Head::Marked(size, _) => size,
        Head::Unknown => 0,
    }
}

// The low water mark in blocks; 0 where the head has none.
pub fn low_water(h: Head) -> u32
    ensures { result ≡ low_water h }
{
    match h {
        Head::Plain(_) => 0,
        Head::Marked(_, mark) => mark,
        Head::Unknown => 0,
    }
}

// Whether a block size is allowed.
fn block_size_allowed(b: u32) -> bool
    ensures { result ≡ block_size_allowed b }
{
    (b % 128 == 0) & ((128 <= b) & (b <= 2097152))
}

// Whether a low water mark is allowed: any is that four bytes have room for.
fn mark_allowed(m: u32) -> bool
    ensures { result ≡ mark_allowed m }
{
    true
}

// Whether what a head says is within its limits, whatever the device.
fn head_allowed(h: Head) -> bool
    ensures { result ≡ head_allowed h }
{
    match h {
        Head::Plain(size) => block_size_allowed(size),
        Head::Marked(size, mark) => block_size_allowed(size) & mark_allowed(mark),
        Head::Unknown => false,
    }
}

// Whether it is within its limits on a device.
fn head_right(d: Device, h: Head) -> bool
    ensures { result ≡ head_right d h }
{
    match h {
        Head::Plain(_) | Head::Marked(_, _) => head_allowed(h),
        Head::Unknown => false,
    }
}

// Whether a record with this head can have a segment of this kind.
pub fn allowed(h: Head, kind: u16) -> bool
    ensures { result ≡ allows h kind }
{
    match h {
        Head::Plain(_) | Head::Marked(_, _) => Item::from(kind).is_segment(),
        Head::Unknown => false,
    }
}

// The data range.
pub fn data_range(d: Device) -> Range
    ensures { result ≡ data_range d }
{
    Range {
        start: layout::data_start(d),
        end: layout::data_end(d),
    }
}

// The range that a segment of this kind may lie in.
pub fn range_for(d: Device, h: Head, kind: u16) -> Range
    ensures { result ≡ range_for d h kind }
{
    match h {
        Head::Plain(_) | Head::Marked(_, _) => data_range(d),
        Head::Unknown => Range { start: 0, end: 0 },
    }
}

// The most segments of a record with this head.
pub fn most_segments(h: Head) -> usize
    ensures { result ≡ most_segments h }
{
    (layout::RECORD_LIMIT as usize - head_size(h)) / ITEM_BYTES
}

// The items after the head, of any bytes.
pub fn items_of(s: &[u8]) -> &[u8]
    ensures { result.now ≡ items_of s.now }
{
    let h = head_size(head_of(s));
    if s.len() < h {
        return &s[s.len()..];
    }
    &s[h..]
}

// The number of items that there is room for.
pub fn count_in(t: &[u8]) -> usize
    ensures { result ≡ length (segments_in t.now) }
{
    t.len() / ITEM_BYTES
}

// The item at a position that is there: its bytes are found with no test.
fn item_at(t: &[u8], i: usize) -> &[u8]
    requires { i < length t.now / item_bytes }
    ensures { result.now ≡ window t.now (item_bytes * i) item_bytes }
{
    let at = ITEM_BYTES * i;
    &t[at..at + ITEM_BYTES]
}

// What an item says.
fn segment_of(u: &[u8]) -> Segment
    ensures { result ≡ segment_of u.now }
{
    Segment {
        kind: endian::read_u16(u, 2),
        start: endian::read_u64(u, 4),
        sectors: endian::read_u64(u, 12),
    }
}

// The segment at position i; zero in every field past the last.
pub fn segment_in(t: &[u8], i: usize) -> Segment
    ensures { result ≡ nth (segments_in t.now) i }
{
    if i < count_in(t) {
        return segment_of(item_at(t, i));
    }
    segments::NONE
}

// The number of segments of a record, of any bytes.
pub fn count_of(s: &[u8]) -> usize
    ensures { result ≡ length (segments s.now) }
{
    count_in(items_of(s))
}

// The segment at position i of a record, of any bytes; zero in every field past the last.
pub fn segment_at(s: &[u8], i: usize) -> Segment
    ensures { result ≡ nth (segments s.now) i }
{
    segment_in(items_of(s), i)
}

// Whether the item at a position that is there has the length of a segment and a kind that the head allows.
fn item_right(h: Head, t: &[u8], i: usize) -> bool
    requires { i < length t.now / item_bytes }
    ensures { result ≡ item_right h t.now i }
{
    let u = item_at(t, i);
    (endian::read_u16(u, 0) as usize == ITEM_BYTES) & allowed(h, endian::read_u16(u, 2))
}

// Whether every item has the length of a segment and a kind that the head allows.
fn items_right(h: Head, t: &[u8]) -> bool
    ensures { result ≡ every (item_right h t.now) (length (segments_in t.now)) }
{
    for i in 0..count_in(t) {
        if !item_right(h, t, i) {
            return false;
        }
    }
    true
}

// Whether the first item has the length of its kind, with whole items after it.
fn framed(s: &[u8]) -> bool
    ensures { result ≡ framed s.now }
{
    let h = head_size(head_of(s));
    if s.len() < h {
        return false;
    }
    (endian::read_u16(s, 0) as usize == h) & ((s.len() - h) % ITEM_BYTES == 0)
}

// Whether s is a head and segments, as they have to be on a device, with nothing after them.
pub fn well_formed(d: Device, s: &[u8]) -> bool
    ensures { result ≡ well_formed d s.now }
{
    let h = head_of(s);
    let right = framed(s) & head_right(d, h);
    right & items_right(h, items_of(s))
}

// Where the item at position i begins, or the end of s where that is past it.
pub fn place_in(s: &[u8], i: usize) -> usize
    ensures { result ≡ min (place s.now i) (length s.now) }
{
    let h = head_size(head_of(s));
    if s.len() / ITEM_BYTES < i {
        return s.len();
    }
    if s.len() < h + ITEM_BYTES * i {
        return s.len();
    }
    h + ITEM_BYTES * i
}

// Writes a head of kind 16 to the start of out, which has room for it. One function for each kind: 17 has a field more.
fn put_plain(out: &mut [u8], size: u32)
    requires { head_size (Plain size) ≤ length out.old }
    ensures { out.new ≡ splice out.old 0 (head_bytes (Plain size)) }
{
    endian::write_u16(out, 0, HEAD_BYTES as u16);
    endian::write_u16(out, 2, PLAIN_KIND);
    endian::write_u32(out, 4, size);
}

// The same of a head of kind 17.
fn put_marked(out: &mut [u8], size: u32, mark: u32)
    requires { head_size (Marked size mark) ≤ length out.old }
    ensures { out.new ≡ splice out.old 0 (head_bytes (Marked size mark)) }
{
    endian::write_u16(out, 0, MARKED_HEAD_BYTES as u16);
    endian::write_u16(out, 2, MARKED_KIND);
    endian::write_u32(out, 4, size);
    endian::write_u32(out, 8, mark);
}

// Writes a head, within its limits or not, to the start of out; where it does not fit, writes nothing. One that is not known has no bytes.
pub fn put_head(out: &mut [u8], h: Head) -> Result<(), Reason>
    ensures value { result ≡ answer (first (room_tests out.old 0 (head_size h))) tt }
    ensures out_after { out.new ≡ splice out.old 0 (head_bytes h) }
{
    if out.len() < head_size(h) {
        return Err(Reason::SliceSize);
    }
    match h {
        Head::Plain(size) => put_plain(out, size),
        Head::Marked(size, mark) => put_marked(out, size, mark),
        Head::Unknown => {}
    }
    Ok(())
}

// Begins a record: writes its head to the start of out. Refused where there is no room, and for a head that is not within its limits.
pub fn begin(out: &mut [u8], h: Head) -> Result<(), Reason>
    ensures value { result ≡ answer (first (begin_tests out.old h)) tt }
    ensures out_after { out.new ≡ begun out.old h }
{
    if out.len() < head_size(h) {
        return Err(Reason::SliceSize);
    }
    if !head_allowed(h) {
        return Err(Reason::RecordForm);
    }
    put_head(out, h)
}

// Writes a segment's item to out from byte `at` on; where it does not fit there, writes nothing.
pub fn put_segment(out: &mut [u8], at: usize, g: Segment) -> Result<(), Reason>
    ensures value { result ≡ answer (first (room_tests out.old at item_bytes)) tt }
    ensures out_after { out.new ≡ splice out.old at (segment_bytes g) }
{
    // Two tests, so that the compiler knows `at` within the slice and drops those of the four writes.
    if out.len() < at || out.len() - at < ITEM_BYTES {
        return Err(Reason::SliceSize);
    }
    endian::write_u16(out, at, ITEM_BYTES as u16);
    endian::write_u16(out, at + 2, g.kind);
    endian::write_u64(out, at + 4, g.start);
    endian::write_u64(out, at + 12, g.sectors);
    Ok(())
}

// Whether s begins with a head: of the length of its kind, all of it there, and within its limits.
fn begins(s: &[u8]) -> bool
    ensures { result ≡ begins s.now }
{
    let h = head_of(s);
    let n = head_size(h);
    let whole = (n <= s.len()) & head_allowed(h);
    (endian::read_u16(s, 0) as usize == n) & whole
}

// Puts a segment at position i of a record that was begun in out; the record that ends with it then has so many bytes. Refused where out does
// not begin with a head and, last, where there is no room; then out stays.
pub fn put_at(out: &mut [u8], i: usize, g: Segment) -> Result<usize, Reason>
    ensures value { result ≡ put_answer out.old i }
    ensures out_after { out.new ≡ put_left out.old i g }
{
    if !begins(out) {
        return Err(Reason::RecordForm);
    }
    let at = place_in(out, i);
    put_segment(out, at, g)?;
    Ok(at + ITEM_BYTES)
}
