// The gaps between segments, in their order: each is found from the segment before it.
ghost use Rattle.std.specs.Prelude.{◌≡◌, ◌*◌, ◌^◌, ◌≤◌, ◌<◌, ◌++◌, leb, length, drop, find};
ghost use Rattle.std.specs.Iterator.{YieldsFirst, item_count};
ghost use Rattle.segments.specs.Segments.{end_of};
ghost use Rattle.items.specs.Items.{segments_in};
ghost use Rattle.runs.specs.Runs.{run_at};
ghost use Rattle.allocation.specs.Tables.{numbers_of};
ghost use Rattle.allocation.specs.Walking.{gap_to, walked, left};

use runs::Run;
use segments::{Range, Segment};

// The gaps that are left: of the items t of a record, at the positions `at` of its segments that come next, after the segment that was
// passed last, up to the end of a range.
#[derive(Clone, Copy)]
pub struct Gaps<'a> {
    pub t: &'a [u8],
    pub at: &'a [u16],
    pub last: Segment,
    pub end: u64,
}

// No segment, at this sector.
fn nothing_at(start: u64) -> Segment
    ensures { end_of result ≡ start }
{
    Segment {
        kind: 0,
        start,
        sectors: 0,
    }
}

// The gap from the end of a segment up to a sector. No sum is taken that could wrap.
fn gap(last: Segment, to: u64) -> Option<Run>
    ensures { result ≡ gap_to (end_of last) to }
{
    let sectors = to.saturating_sub(last.start).saturating_sub(last.sectors);
    if sectors == 0 {
        return None;
    }
    Some(Run {
        start: last.start + last.sectors,
        sectors,
    })
}

impl<'a> Gaps<'a> {
    // All gaps of a range.
    pub(super) fn new(t: &'a [u8], at: &'a [u16], r: Range) -> Gaps<'a>
        ensures { left result ≡ walked r (segments_in t.now) at.now }
    {
        Gaps {
            t,
            at,
            last: nothing_at(r.start),
            end: r.end,
        }
    }

    // How many there are.
    pub(super) fn number(self) -> usize
        requires { length (left self) < 2 ^ 64 }
        ensures { result ≡ length (left self.entry) }
    {
        self.count()
    }

    // Gap number k, counted from 0; no run past the last.
    pub(super) fn run(mut self, k: usize) -> Run
        ensures { result ≡ run_at (left self.entry) k }
    {
        self.nth(k).unwrap_or(runs::NONE)
    }

    // The first gap of m sectors or more.
    pub(super) fn fit(mut self, m: u64) -> Option<Run>
        ensures { result ≡ find (λ r. leb m r.sectors) (left self.entry) }
    {
        self.find(|r| m <= r.sectors)
    }

    // Stores all of them in the first entries of a table; the entries past them stay.
    pub(super) fn fill(mut self, table: &mut [Run])
        requires { length (left self) ≤ length table.old }
        ensures { table.new ≡ left self.entry ++ drop (length (left self.entry)) table.old }
    {
        for entry in table.iter_mut() {
            let Some(gap) = self.next() else {
                return;
            };
            *entry = gap;
        }
    }

    // The same in a table of numbers: a start and a length for each. Not one function for both: of a closure that stores, nothing is known after.
    pub(super) fn fill_numbers(mut self, table: &mut [u64])
        requires { 2 * length (left self) ≤ length table.old }
        ensures { table.new ≡ numbers_of (left self.entry) ++ drop (2 * length (left self.entry)) table.old }
    {
        for i in 0..table.len() / 2 {
            let Some(gap) = self.next() else {
                return;
            };
            table[2 * i] = gap.start;
            table[2 * i + 1] = gap.sectors;
        }
    }
}

impl<'a> Iterator for Gaps<'a> {
    type Item = Run;

    ghost next_gives = { YieldsFirst left };

    ghost remaining = { item_count left };

    fn next(&mut self) -> Option<Run> {
        let mut w = *self;
        while let Some((i, others)) = w.at.split_first() {
            let g = items::segment_in(w.t, usize::from(*i));
            let before = gap(w.last, g.start);
            w = Gaps {
                t: w.t,
                at: others,
                last: g,
                end: w.end,
            };
            if before.is_some() {
                *self = w;
                return before;
            }
        }
        *self = Gaps {
            t: w.t,
            at: w.at,
            last: nothing_at(w.end),
            end: w.end,
        };
        gap(w.last, w.end)
    }
}
