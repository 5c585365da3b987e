// Mending: brings two copies in step on the record that discovery finds in them. The copies are lent as discovery takes them.
#![tactic(auto)]

ghost use Rattle.std.specs.Prelude.{◌≡◌, List};
ghost use Rattle.refusal.specs.Reasons.{reason};
ghost use Rattle.discovery.specs.Discovery.{copy_on};
ghost use Rattle.mend.specs.Plan.{rewrite_of, mending, plan_stores, stores_in, group_in, group_of, flush_after, part_for, rewrite_answer, rewrite_bytes, needed_answer, needed_bytes, none_number, store_answer, store_bytes};

use block::BlockFields;
use discovery::{Copies, Finding};
use layout::{Area, Side};
use refusal::Reason;
use stores::Part;

// What a mend stores: the side whose copy is kept, the area of that copy with the found record, the record's length, and whether a
// last store blanks the other entry of the kept block. All else is read from the kept copy when a store is asked for.
#[derive(Clone, Copy)]
pub struct Rewrite {
    pub kept: Side,
    pub area: Area,
    pub bytes: u32,
    pub last: bool,
}

// What is stored where the copy with the found record q is kept. There is a last store where that record is not the later entry's,
// which is not whole then.
fn plan_for(q: Finding) -> Rewrite
    ensures { result ≡ rewrite_of q }
{
    Rewrite {
        kept: q.side,
        area: q.area,
        bytes: q.bytes,
        last: q.area != copy::newest(q.fields),
    }
}

// Works a mend of a front and a back copy out: nothing where they are in step, what to store where they are not, or the
// reason why discovery refuses them.
#[tactic(auto, unfolding(crate::specs::Plan::mending))]
pub fn work_out(c: Copies<'_>) -> Result<Option<Rewrite>, Reason>
    ensures { result ≡ mending c.entry.front.now c.entry.back.now }
{
    let v = discovery::examine(c);
    let a = v.answer?;
    if v.step {
        return Ok(None);
    }
    Ok(Some(plan_for(a.finding)))
}

// How many stores a plan has: k + 2, or k + 3 with the last one.
fn planned(p: Rewrite) -> u64
    ensures { result ≡ plan_stores p }
{
    let k = stores::sectors(p.bytes) as u64;
    if p.last { k + 3 } else { k + 2 }
}

// How many stores a mend has: 0, k + 2, or k + 3 with the last one; 0 for one that is refused.
pub fn count(m: Result<Option<Rewrite>, Reason>) -> u64
    ensures { result ≡ stores_in m }
{
    match m {
        Ok(Some(p)) => planned(p),
        Ok(None) | Err(_) => 0,
    }
}

// The group of store i, of n that store a record of k sectors.
// A number and no enum: it is the group's place in the list of groups, which the theorems count with, and C's answer.
fn group_in(k: u32, n: u64, i: u64) -> u8
    ensures { result ≡ group_in k n i }
{
    let k = k as u64;
    if n <= i {
        4
    } else if i == 0 {
        0
    } else if i <= k {
        1
    } else if i <= k + 1 {
        2
    } else {
        3
    }
}

// The group of a mend's store: 0 the other block emptied, 1 the record, 2 the other block with its entry, 3 the last store;
// 4 past the last store.
pub fn group(m: Result<Option<Rewrite>, Reason>, i: u64) -> u8
    ensures { result ≡ group_of m i }
{
    match m {
        Ok(Some(p)) => group_in(stores::sectors(p.bytes), planned(p), i),
        Ok(None) | Err(_) => 4,
    }
}

// Whether a flush belongs after store i of a mend: it is the last of its group.
pub fn flush(m: Result<Option<Rewrite>, Reason>, i: u64) -> bool
    ensures { result ≡ flush_after m i }
{
    i < count(m) && group(m, i) != group(m, i + 1)
}

// What is stored on side w where a block with the numbers x is kept on the other: the record, and a block that has its entry for area a.
fn part_for(w: Side, y: Area, x: BlockFields) -> Part
    ensures { result ≡ part_for w y x }
{
    let d = x.device;
    Part {
        area: layout::area_sector(w, Area::A, d),
        block: layout::block_sector(w, d),
        fields: BlockFields {
            device: d,
            a: copy::entry_in(x, y),
            b: None,
        },
    }
}

// Store i of a plan, with the kept copy c, whose block has the numbers x.
fn put_store(p: Rewrite, x: BlockFields, c: &[u8], i: u64, out: &mut [u8]) -> Result<u64, Reason>
    ensures value { result ≡ rewrite_answer p x c.now i out.old }
    ensures out_after { out.new ≡ rewrite_bytes p x c.now i out.old }
{
    let d = x.device;
    let w = copy::other_side(p.kept);
    let k = stores::sectors(p.bytes);
    if i == 0 {
        let empty = BlockFields {
            device: d,
            a: None,
            b: None,
        };
        return stores::put_block(layout::block_sector(w, d), empty, c, out);
    }
    if i <= k as u64 + 1 {
        let r = endian::window(c, layout::area_offset(p.area), p.bytes as usize);
        return stores::put_part(part_for(w, p.area, x), k, c, r, i - 1, out);
    }
    let blank = stores::with_entry(x, copy::other_area(p.area), None);
    stores::put_block(layout::block_sector(p.kept, d), blank, c, out)
}

// Store i of a plan for two copies, where the tests of a plan's store hold.
fn needed_store(p: Rewrite, c: Copies<'_>, i: u64, out: &mut [u8]) -> Result<u64, Reason>
    ensures value { result ≡ needed_answer p c.entry.front.now c.entry.back.now (copy_on p.kept c.entry.front.now c.entry.back.now) i out.old }
    ensures out_after { out.new ≡ needed_bytes p c.entry.front.now c.entry.back.now (copy_on p.kept c.entry.front.now c.entry.back.now) i out.old }
{
    let kept = c.on(p.kept);
    let x = copy::fields_in(kept);
    let h = block::holding_of(copy::entry_in(x, p.area));
    stores::check_store(
        c,
        out.len(),
        h.bytes as u64,
        p.bytes,
        i,
        planned(p),
        x.device,
    )?;
    put_store(p, x, kept, i, out)
}

// Why a store is refused where there is none: 1 for a slice of another size, else 23.
fn no_store(c: Copies<'_>, room: usize) -> Reason
    ensures { result ≡ reason (none_number c.entry.front.now c.entry.back.now room) }
{
    let sized = c.sized() & (room == layout::SECTOR_BYTES);
    if !sized {
        return Reason::SliceSize;
    }
    Reason::NoStore
}

// The store of a mend with number i, counted from 0: its 512 bytes into out, its sector as the answer. The copies are those
// that the mend was worked out from; its stores with lower numbers may have been applied to them. 1 for a slice of another size, 23
// past the last store; of a mend that nobody worked out also 15 where the kept copy's entry has a length that no record has, 1 where
// it has another length than the mend, after 23 also 4, 7 or 8 for the kept copy's device numbers, and the writer's reason for a block
// that it refuses. Then out stays.
pub fn store(
    m: Result<Option<Rewrite>, Reason>,
    c: Copies<'_>,
    i: u64,
    out: &mut [u8],
) -> Result<u64, Reason>
    ensures value { result ≡ store_answer m c.entry.front.now c.entry.back.now i out.old }
    ensures out_after { out.new ≡ store_bytes m c.entry.front.now c.entry.back.now i out.old }
{
    let Ok(Some(p)) = m else {
        return Err(no_store(c, out.len()));
    };
    needed_store(p, c, i, out)
}
