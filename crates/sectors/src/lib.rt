// A copy read sector by sector: where each of its sectors lies, and whether those that could not be read matter to what
// discovery answers; and a store applied to two copies in memory. A copy is lent as discovery takes it, with any bytes in place of a
// sector that could not be read; marks have a byte a sector, 0 where it was read.
#![tactic(auto)]

ghost use Rattle.std.specs.Prelude.{◌≡◌, true, ◌+◌, ◌-◌, ◌*◌, ◌≤◌, ◌<◌};
ghost use Rattle.refusal.specs.Tests.{first};
ghost use Rattle.refusal.specs.Reasons.{answer};
ghost use Rattle.layout.specs.declared.Side.TheVariants.{Front, Back};
ghost use Rattle.layout.specs.Limits.{sector_bytes};
ghost use Rattle.layout.specs.Places.{header_sector};
ghost use Rattle.crash.specs.Crash.{area_sectors};
ghost use Rattle.sectors.specs.Sectors.{copy_sectors, area_start, below, sector_at, named, named_in, matters_for, block_read, current_for, is_read, known, settled};
ghost use Rattle.sectors.specs.Apply.{among, offset_of, apply_tests, applied};

use block::{BlockFields, Holding};
use copy::PresentReading;
use layout::{Area, Device, Side};
use refusal::Reason;

// A copy as it was read, sector by sector: its bytes, and the marks of its sectors.
#[derive(Clone, Copy)]
pub struct CopyRead<'a> {
    pub bytes: &'a [u8],
    pub marks: &'a [u8],
}

// How many sectors a copy has as it is lent.
#[tactic(auto, unfolding(crate::specs::Sectors::copy_sectors))]
fn copy_sectors() -> usize
    ensures { result ≡ copy_sectors }
{
    layout::copy_bytes() / layout::SECTOR_BYTES
}

// The sector of a copy where an area begins.
#[tactic(auto, unfolding(crate::specs::Sectors::area_start))]
fn area_start(x: Area) -> usize
    ensures { result ≡ area_start x }
{
    layout::area_offset(x) / layout::SECTOR_BYTES
}

// How many sectors of an area a record can fill.
#[tactic(auto, unfolding(crash::specs::Crash::area_sectors, layout::specs::Limits::record_limit))]
fn area_sectors() -> usize
    ensures { result ≡ area_sectors }
{
    layout::RECORD_LIMIT as usize / layout::SECTOR_BYTES
}

// The first sector of a copy's header; of any numbers, with a difference that stops at 0.
fn header_sector(side: Side, d: Device) -> u64
    ensures { result ≡ header_sector side d }
{
    match side {
        Side::Front => 0,
        Side::Back => d.sectors.saturating_sub(layout::HEADER_SECTORS),
    }
}

// a + j, or s where that is not below s.
#[tactic(auto, unfolding(crate::specs::Sectors::below))]
fn sum_below(s: u64, a: u64, j: usize) -> u64
    ensures { result ≡ below s (a + j) }
{
    a.saturating_add(j as u64).min(s)
}

// The device sector that is sector i of a side's copy. Of any numbers: differences stop at 0, and sums at S, which stands for
// every sector that the device does not have; and for those that a copy does not have.
#[tactic(auto, unfolding(crate::specs::Sectors::sector_at, crate::specs::Sectors::by_part))]
pub fn sector_at(side: Side, d: Device, i: usize) -> u64
    ensures { result ≡ sector_at side d i }
{
    if copy_sectors() <= i {
        return d.sectors;
    }
    let a = area_start(Area::A);
    let b = area_start(Area::B);
    if i < a {
        return sum_below(d.sectors, header_sector(side, d), i);
    }
    if i < b {
        return sum_below(d.sectors, layout::area_sector(side, Area::A, d), i - a);
    }
    sum_below(d.sectors, layout::area_sector(side, Area::B, d), i - b)
}

// How many sectors n bytes lie in: the fewest that have room for them.
fn sectors_for(n: u32) -> usize
    ensures n_bound { n ≤ 512 * result }
    ensures result_bound { 512 * result < n + 512 }
{
    (n as usize).div_ceil(layout::SECTOR_BYTES)
}

// Whether an entry names sector j of its area.
fn named(e: Option<Holding>, j: usize) -> bool
    ensures { result ≡ named e j }
{
    match e {
        None => false,
        Some(h) => j < sectors_for(h.bytes),
    }
}

// Whether an area's entry names sector i of the copy.
#[tactic(auto, unfolding(crate::specs::Sectors::named_in))]
fn named_in(f: BlockFields, x: Area, i: usize) -> bool
    ensures { result ≡ named_in f x i }
{
    let s = area_start(x);
    s <= i && i - s < area_sectors() && named(copy::entry_in(f, x), i - s)
}

// Whether sector i of a copy matters, by what reading its block answered and whether the newest area is whole (w).
fn matters(q: &Result<PresentReading, Reason>, w: bool, i: usize) -> bool
    ensures { result ≡ matters_for (block_read q.now) w i }
{
    let Ok(q) = q else {
        return i == 1;
    };
    let f = q.block.fields;
    let x = copy::newest(f);
    let y = copy::other_area(x);
    (i == 1) | (named_in(f, x, i) | (!w & named_in(f, y, i)))
}

// Whether a copy's block is accepted and its present record is that of the entry with the later time, which is then whole.
fn newest_whole(q: &Result<PresentReading, Reason>) -> bool
    ensures { result ≡ current_for q.now }
{
    match q {
        Ok(q) => copy::current(q.block.fields, q.present),
        Err(_) => false,
    }
}

// Whether sector i was read. One without a mark was not.
#[tactic(auto, unfolding(crate::specs::Sectors::is_read))]
fn is_read(marks: &[u8], i: usize) -> bool
    ensures { result ≡ is_read marks.now i }
{
    marks.get(i) == Some(&0)
}

impl CopyRead<'_> {
    // Whether no sector of the copy that matters is marked. A sector without a mark counts as marked.
    pub fn known(self) -> bool
        ensures { result ≡ known self.entry.bytes.now self.entry.marks.now }
    {
        let q = copy::read_present(self.bytes);
        let w = newest_whole(&q);
        (0..copy_sectors()).all(|i| !matters(&q, w, i) | is_read(self.marks, i))
    }
}

// Whether what discovery answers for two copies is sure: no sector that matters in either is marked.
#[tactic(auto, unfolding(crate::specs::Sectors::settled))]
pub fn settled(front: CopyRead<'_>, back: CopyRead<'_>) -> bool
    ensures { result ≡ settled front.entry.bytes.now back.entry.bytes.now front.entry.marks.now back.entry.marks.now }
{
    front.known() & back.known()
}

// Whether n is one of the k sectors from a on.
#[tactic(auto, unfolding(crate::specs::Apply::among))]
fn among(a: u64, k: u64, n: u64) -> bool
    ensures { result ≡ among a k n }
{
    a <= n && n - a < k
}

// The byte of a copy at which sector n lies, one of k sectors from a on that begin at byte `at`.
#[tactic(auto, unfolding(crate::specs::Apply::among))]
fn offset_in(a: u64, k: u64, at: usize, n: u64) -> usize
    requires n_value { among a k n ≡ true }
    requires k_bound { k ≤ 65536 }
    requires at_bound { at ≤ 4294967296 }
    ensures { result ≡ at + sector_bytes * (n - a) }
{
    at + layout::SECTOR_BYTES * (n - a) as usize
}

// The byte of a side's copy at which device sector n lies; the copy's end where it lies in none of its parts.
#[tactic(auto, unfolding(crate::specs::Apply::offset_of, layout::specs::Places::area_offset, layout::specs::Limits::record_limit), using(crash::proofs::Copies::limit_small))]
fn offset_of(side: Side, d: Device, n: u64) -> usize
    ensures { result ≡ offset_of side d n }
{
    let h = header_sector(side, d);
    let k = area_sectors() as u64;
    if among(h, layout::HEADER_SECTORS, n) {
        return offset_in(h, layout::HEADER_SECTORS, 0, n);
    }
    let a = layout::area_sector(side, Area::A, d);
    if among(a, k, n) {
        return offset_in(a, k, layout::area_offset(Area::A), n);
    }
    let b = layout::area_sector(side, Area::B, d);
    if among(b, k, n) {
        return offset_in(b, k, layout::area_offset(Area::B), n);
    }
    layout::copy_bytes()
}

// Applies a store to two copies in memory: the bytes of a device sector go to where that sector lies in each; a sector that lies in neither
// changes nothing. 1 unless both are copies by their size and 512 bytes are stored; 4, 7 or 8 for device numbers that are not allowed. Then
// nothing changes. Both are lent to be changed, which `Copies` are not.
#[tactic(auto, unfolding(refusal::specs::Tests::first, crate::specs::Apply::applied))]
pub fn apply(
    d: Device,
    sector: u64,
    content: &[u8],
    f: &mut [u8],
    b: &mut [u8],
) -> Result<(), Reason>
    ensures value { result ≡ answer (first (apply_tests d content.now f.old b.old)) tt }
    ensures f_after { f.new ≡ applied Front d sector content.now f.old b.old }
    ensures b_after { b.new ≡ applied Back d sector content.now f.old b.old }
{
    let n = layout::copy_bytes();
    let sized = ((f.len() == n) & (b.len() == n)) & (content.len() == layout::SECTOR_BYTES);
    if !sized {
        return Err(Reason::SliceSize);
    }
    layout::check(d)?;
    endian::put(f, offset_of(Side::Front, d, sector), content);
    endian::put(b, offset_of(Side::Back, d, sector), content);
    Ok(())
}
