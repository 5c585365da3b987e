// An update: its refusal, and what it stores. The copies are lent as discovery takes them.
#![tactic(auto, unfolding(refusal::specs::Tests::first))]

ghost use Rattle.std.specs.Prelude.{◌≡◌, true, cond, length};
ghost use Rattle.refusal.specs.Tests.{first};
ghost use Rattle.layout.specs.Limits.{length_allowed};
ghost use Rattle.block.specs.Block.{fields_of};
ghost use Rattle.copy.specs.Copy.{block_in};
ghost use Rattle.record.specs.Accept.{answered};
ghost use Rattle.discovery.specs.Newest.{time_at};
ghost use Rattle.update.specs.Update.{tests_after, update_number};
ghost use Rattle.update.specs.Plan.{plan_for, plan_found, planned, sectors_in, stores_in, group_of, flush_after, part_of, store_answer, store_bytes};

use block::{BlockFields, Holding, Time};
use discovery::{Copies, Finding, Found};
use layout::{Area, Device, Side};
use refusal::Reason;
use stores::Part;

// An update worked out once: what the new entry says, and the area of each copy that the record goes to.
#[derive(Clone, Copy)]
pub struct Plan {
    pub entry: Holding,
    pub front: Area,
    pub back: Area,
}

// The tests after discovery has found a record of time `old` on the device d, where `step` says whether the copies are in step.
#[tactic(auto, using(block::proofs::Times::later_derived), unfolding(refusal::specs::Tests::first, record::specs::Accept::named, refusal::specs::Refusals::plain_but))]
fn check_after(d: Device, step: bool, old: Time, t: Time, r: &[u8]) -> Result<(), Reason>
    ensures { result ≡ answered (first (tests_after step d old t r.now)) r.now tt }
{
    if !step {
        return Err(Reason::NotInStep);
    }
    if layout::MOST_NANOSECONDS < t.nanoseconds {
        return Err(Reason::AreaEntry);
    }
    if !(old < t) {
        return Err(Reason::NotLater);
    }
    record::check_content(d, r)
}

// The time of a found record.
fn time_at(q: Finding) -> Time
    ensures { result ≡ time_at q }
{
    Time {
        seconds: q.seconds,
        nanoseconds: q.nanoseconds,
    }
}

// Why an update of a front and a back copy with a time and a record is refused: discovery's reason, or 16, 9, 14, 15, 17, 18 or 19 with the
// two segments that clash, the first that applies.
#[tactic(auto, using(crate::proofs::Planning::found_lem))]
pub fn check(c: Copies<'_>, t: Time, r: &[u8]) -> Result<(), Reason>
    ensures { result ≡ answered (update_number c.entry.front.now c.entry.back.now t r.now) r.now tt }
{
    let v = discovery::examine(c);
    let w = v.answer?;
    check_after(w.finding.fields.device, v.step, time_at(w.finding), t, r)
}

// The plan of an update of two copies whose blocks have these fields.
#[tactic(auto, unfolding(layout::specs::Limits::length_allowed, layout::specs::Limits::record_limit))]
fn plan_for(x: BlockFields, y: BlockFields, t: Time, r: &[u8]) -> Plan
    requires { length_allowed (length r.now) ≡ true }
    ensures { result ≡ plan_for x y t r.now }
{
    Plan {
        entry: Holding {
            seconds: t.seconds,
            nanoseconds: t.nanoseconds,
            bytes: r.len() as u32,
            checksum: checksum::checksum(r),
        },
        front: copy::other_area(copy::newest(x)),
        back: copy::other_area(copy::newest(y)),
    }
}

// The plan of an update where discovery has found a record.
fn plan_found(w: Found, step: bool, t: Time, r: &[u8]) -> Result<Plan, Reason>
    ensures { result ≡ plan_found w step t r.now }
{
    let x = w.finding.fields;
    check_after(x.device, step, time_at(w.finding), t, r)?;
    let Ok(y) = w.other else {
        return Err(Reason::NotInStep);
    };
    Ok(plan_for(x, y, t, r))
}

// Works an update out: the plan of its stores, or why it is refused.
#[tactic(auto, using(crate::proofs::Planning::plan_found_lem))]
pub fn work_out(c: Copies<'_>, t: Time, r: &[u8]) -> Result<Plan, Reason>
    ensures { result ≡ planned c.entry.front.now c.entry.back.now t r.now }
{
    let v = discovery::examine(c);
    plan_found(v.answer?, v.step, t, r)
}

// How many sectors a plan's record fills.
fn sectors(p: Plan) -> u32
    ensures { result ≡ sectors_in p }
{
    stores::sectors(p.entry.bytes)
}

// How many stores a plan has.
pub fn count(p: Plan) -> u64
    ensures { result ≡ stores_in p }
{
    2 * (sectors(p) as u64) + 2
}

// The group of a plan's store: 0 front area, 1 front block, 2 back area, 3 back block; 4 past the last store.
// A number and no enum: it is the group's position in the list of the update's groups, by which the theorems count them and C reads them.
pub fn group(p: Plan, i: u64) -> u8
    ensures { result ≡ group_of p i }
{
    let k = sectors(p) as u64;
    if i < k {
        return 0;
    }
    if i <= k {
        return 1;
    }
    if i <= 2 * k {
        return 2;
    }
    if i < count(p) {
        return 3;
    }
    4
}

// Whether a flush belongs after a plan's store: it is the last of its group. A function that `format` and `mend` share would take the
// group as a closure, and be no shorter than this line.
pub fn flush(p: Plan, i: u64) -> bool
    ensures { result ≡ flush_after p i }
{
    i < count(p) && group(p, i) != group(p, i + 1)
}

// One side of a plan, where that side's block has the numbers g.
fn part_on(w: Side, x: Area, h: Holding, g: BlockFields) -> Part
    ensures { result ≡ part_of w x h g }
{
    Part {
        area: layout::area_sector(w, x, g.device),
        block: layout::block_sector(w, g.device),
        fields: stores::with_entry(g, x, Some(h)),
    }
}

// The store of a plan with number i, counted from 0: its 512 bytes into out, its sector as the answer. The record is the one that the
// plan was made of, of which the length alone is tested here; the copies are those, as they were or with the plan's earlier stores in them. 1 for a slice of another size, 15 for
// a length that no record has, 1 for a length that is not the plan's, 23 past the last store; then 4, 7 or 8 where the device numbers of
// the store's own copy are not allowed; a block that the writer refuses gives its reason. Then out stays.
pub fn store(p: Plan, c: Copies<'_>, r: &[u8], i: u64, out: &mut [u8]) -> Result<u64, Reason>
    ensures value { result ≡ store_answer p c.entry.front.now c.entry.back.now r.now i out.old }
    ensures out_after { out.new ≡ store_bytes p c.entry.front.now c.entry.back.now r.now i out.old }
{
    let k = sectors(p);
    let (w, x, own, j) = if i <= k as u64 {
        (Side::Front, p.front, c.front, i)
    } else {
        (Side::Back, p.back, c.back, i - (k as u64 + 1))
    };
    let g = copy::fields_in(own);
    stores::check_store(
        c,
        out.len(),
        r.len() as u64,
        p.entry.bytes,
        i,
        count(p),
        g.device,
    )?;
    stores::put_part(part_on(w, x, p.entry, g), k, own, r, j, out)
}
