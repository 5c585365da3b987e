// A segment of a record, and when two of them share a sector or one lies in a range. The definitions over lists of segments, and
// their laws, are here too: which sectors are held, which are free, the order of the segments.
#![tactic(auto, unfolding(crate::specs::Segments::holds, crate::specs::Segments::meets, crate::specs::Segments::in_range))]

ghost use Rattle.std.specs.Prelude.{◌≡◌};
ghost use Rattle.segments.specs.Segments.{holds, meets, in_range};

// A segment: its kind's number, its first sector, and its length in sectors.
#[repr(C)]
#[derive(Clone, Copy, PartialEq, Eq)]
pub struct Segment {
    pub kind: u16,
    pub start: u64,
    pub sectors: u64,
}

// What stands for no segment.
pub const NONE: Segment = Segment {
    kind: 0,
    start: 0,
    sectors: 0,
};

// Sectors from a start up to, not including, an end.
#[derive(Clone, Copy, PartialEq, Eq)]
pub struct Range {
    pub start: u64,
    pub end: u64,
}

// Whether x is one of a segment's sectors. No sum is taken: it could wrap.
fn holds_sector(g: Segment, x: u64) -> bool
    ensures { result ≡ holds g x }
{
    g.start <= x && x - g.start < g.sectors
}

// Whether two segments share a sector: then the later of their starts is one.
pub fn meet(a: Segment, b: Segment) -> bool
    ensures { result ≡ meets a b }
{
    let x = a.start.max(b.start);
    holds_sector(a, x) & holds_sector(b, x)
}

// Whether a segment is not empty and lies wholly in a range. No sum is taken: it could wrap.
pub fn in_range(r: Range, g: Segment) -> bool
    ensures { result ≡ in_range r g }
{
    (r.start <= g.start) & ((1 <= g.sectors) & (g.sectors <= r.end.saturating_sub(g.start)))
}
