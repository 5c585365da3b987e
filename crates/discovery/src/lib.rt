// Discovery: the newest whole record of two copies, or the number by which there is none; reading it; whether the copies
// are in step. A copy is lent as the header's 8 sectors and as much of each area as a record can fill.
#![tactic(auto)]

ghost use Rattle.std.specs.Prelude.{◌≡◌, false, length, Ok};
ghost use Rattle.endian.specs.Bytes.{same, splice};
ghost use Rattle.copy.specs.Copy.{area_bytes};
ghost use Rattle.discovery.specs.Discovery.{sized, copy_on, finding_of, found_with, newest_of, together_of, same_device, same_uuids, discovery, examined, record_bytes, read_answer, read_bytes};
ghost use Rattle.discovery.specs.Examine.{one_time, examine_both, examine_of, read_alone};

use block::{BlockFields, Reading};
use copy::{Present, PresentReading};
use layout::{Area, Side};
use refusal::Reason;

// The front copy and the back copy, as they are lent.
#[derive(Clone, Copy)]
pub struct Copies<'a> {
    pub front: &'a [u8],
    pub back: &'a [u8],
}

impl<'a> Copies<'a> {
    // Whether both are copies by their size.
    pub fn sized(self) -> bool
        ensures { result ≡ sized self.entry.front.now self.entry.back.now }
    {
        (self.front.len() == layout::copy_bytes()) & (self.back.len() == layout::copy_bytes())
    }

    // The copy on a side.
    pub fn on(self, side: Side) -> &'a [u8]
        ensures { result.now ≡ copy_on side self.entry.front.now self.entry.back.now }
    {
        match side {
            Side::Front => self.front,
            Side::Back => self.back,
        }
    }
}

// Where a record was found, its length and its time, and the fields of that copy's block.
#[derive(Clone, Copy)]
pub struct Finding {
    pub side: Side,
    pub area: Area,
    pub bytes: u32,
    pub seconds: u64,
    pub nanoseconds: u32,
    pub fields: BlockFields,
}

// What discovery answers: the record, and the other copy: accepted too, with these fields, or refused.
#[derive(Clone, Copy)]
pub struct Found {
    pub finding: Finding,
    pub other: Result<BlockFields, Reason>,
}

// What is seen of two copies at once: what discovery answers, and whether they are in step (`step`).
#[derive(Clone, Copy)]
pub struct Examined {
    pub answer: Result<Found, Reason>,
    pub step: bool,
}

// A present record by its copy, with the length and time that its entry says.
fn finding_of(side: Side, fields: BlockFields, p: Present) -> Finding
    ensures { result ≡ finding_of side fields p }
{
    Finding {
        side,
        area: p.area,
        bytes: p.holding.bytes,
        seconds: p.holding.seconds,
        nanoseconds: p.holding.nanoseconds,
        fields,
    }
}

// One copy read alone, where the other is refused.
fn alone(side: Side, read: Result<PresentReading, Reason>, other: Reason) -> Result<Found, Reason>
    ensures { result ≡ read_alone side read other }
{
    let Ok(r) = read else {
        return Err(Reason::NoBlock);
    };
    let Some(p) = r.present else {
        return Err(Reason::NoRecord);
    };
    Ok(Found {
        finding: finding_of(side, r.block.fields, p),
        other: Err(other),
    })
}

// The present record of a copy, whose block has the fields g, where the other copy is accepted too.
fn beside(side: Side, g: BlockFields, p: Present, other: BlockFields) -> Result<Found, Reason>
    ensures { result ≡ found_with (finding_of side g p) (Ok other) }
{
    Ok(Found {
        finding: finding_of(side, g, p),
        other: Ok(other),
    })
}

// Whether two areas begin with the same record: as many bytes as their entries say, and the same ones.
fn same_record(c: Copies<'_>, p: Present, q: Present) -> bool
    ensures { result ≡ same (area_bytes c.entry.front.now p.area p.holding.bytes) (area_bytes c.entry.back.now q.area q.holding.bytes) }
{
    endian::same(
        endian::window(
            c.front,
            layout::area_offset(p.area),
            p.holding.bytes as usize,
        ),
        endian::window(
            c.back,
            layout::area_offset(q.area),
            q.holding.bytes as usize,
        ),
    )
}

// The newest of both copies' present records; on the same time and bytes, the front. The blocks have the fields i and j.
#[tactic(auto, using(block::proofs::Times::later_derived), unfolding(block::specs::Entry::same_time))]
fn newest_of(
    c: Copies<'_>,
    i: BlockFields,
    j: BlockFields,
    p: Present,
    q: Present,
) -> Result<Found, Reason>
    ensures { result ≡ newest_of c.entry.front.now c.entry.back.now i j p q }
{
    let t = block::time_of(p.holding);
    let u = block::time_of(q.holding);
    if t == u {
        if same_record(c, p, q) {
            return beside(Side::Front, i, p, j);
        }
        return Err(Reason::TwoRecords);
    }
    if t < u {
        return beside(Side::Back, j, q, i);
    }
    beside(Side::Front, i, p, j)
}

// What two copies of one identity with these fields and present records give.
fn together(
    c: Copies<'_>,
    i: BlockFields,
    j: BlockFields,
    p: Option<Present>,
    q: Option<Present>,
) -> Result<Found, Reason>
    ensures { result ≡ together_of c.entry.front.now c.entry.back.now i j p q }
{
    match (p, q) {
        (None, None) => Err(Reason::NoRecord),
        (None, Some(q)) => beside(Side::Back, j, q, i),
        (Some(p), None) => beside(Side::Front, i, p, j),
        (Some(p), Some(q)) => newest_of(c, i, j, p, q),
    }
}

// Whether S, L and R are the same.
pub fn same_device(f: BlockFields, g: BlockFields) -> bool
    ensures { result ≡ same_device f g }
{
    f.device == g.device
}

// Whether both UUIDs are the same.
pub fn same_uuids(r: Reading, q: Reading) -> bool
    ensures { result ≡ same_uuids r q }
{
    endian::same(&r.pool, &q.pool) & endian::same(&r.blockdev, &q.blockdev)
}

// Two copies that are not in step.
fn apart(answer: Result<Found, Reason>) -> Examined
    ensures { result ≡ record { answer = answer; step = false } }
{
    Examined {
        answer,
        step: false,
    }
}

// Whether two present records have one time.
#[tactic(auto, unfolding(block::specs::Entry::same_time))]
fn one_time(p: Option<Present>, q: Option<Present>) -> bool
    ensures { result ≡ one_time p q }
{
    match (p, q) {
        (Some(p), Some(q)) => block::time_of(p.holding) == block::time_of(q.holding),
        _ => false,
    }
}

// Two copies of one identity with these readings. They are in step where both present records are current and have one time, and
// discovery, which compares their bytes then, does not refuse them.
fn examine_both(c: Copies<'_>, r: PresentReading, s: PresentReading) -> Examined
    ensures { result ≡ examine_both c.entry.front.now c.entry.back.now r.block.fields s.block.fields r.present s.present }
{
    let i = r.block.fields;
    let j = s.block.fields;
    let p = r.present;
    let q = s.present;
    let answer = together(c, i, j, p, q);
    let both = copy::current(i, p) & copy::current(j, q);
    Examined {
        answer,
        step: both & (one_time(p, q) & answer.is_ok()),
    }
}

// What is seen of two copies with these readings. A copy whose block is refused is set aside at once.
fn decide(
    c: Copies<'_>,
    front: Result<PresentReading, Reason>,
    back: Result<PresentReading, Reason>,
) -> Examined
    ensures { result ≡ examine_of front back c.entry.front.now c.entry.back.now }
{
    let Ok(r) = front else {
        return apart(alone(Side::Back, back, front.unwrap_err()));
    };
    let Ok(s) = back else {
        return apart(alone(Side::Front, front, back.unwrap_err()));
    };
    let one = same_device(r.block.fields, s.block.fields) & same_uuids(r.block, s.block);
    if !one {
        return apart(Err(Reason::Identity));
    }
    examine_both(c, r, s)
}

// Looks at a front and a back copy once: the newest whole record, and whether they are in step.
#[tactic(auto, using(crate::proofs::Examining::examined_unsized, crate::proofs::Examining::examined_sized))]
pub fn examine(c: Copies<'_>) -> Examined
    ensures { result ≡ examined c.entry.front.now c.entry.back.now }
{
    if !c.sized() {
        return apart(Err(Reason::SliceSize));
    }
    decide(c, copy::read_present(c.front), copy::read_present(c.back))
}

// Finds the newest whole record of a front and a back copy.
pub fn discover(c: Copies<'_>) -> Result<Found, Reason>
    ensures { result ≡ discovery c.entry.front.now c.entry.back.now }
{
    examine(c).answer
}

// Copies a record from the copy and area that it names to the start of out; where it has no room, nothing.
fn put_record(r: Finding, c: Copies<'_>, out: &mut [u8])
    ensures { out.new ≡ splice out.old 0 (record_bytes r c.entry.front.now c.entry.back.now) }
{
    let at = layout::area_offset(r.area);
    endian::put(out, 0, endian::window(c.on(r.side), at, r.bytes as usize));
}

// Finds the newest whole record and copies it to the start of out; bytes past its length stay. Where it has no room the
// answer is 1, tested after all others, and out stays.
pub fn read_found(c: Copies<'_>, out: &mut [u8]) -> Result<Found, Reason>
    ensures value { result ≡ read_answer (discovery c.entry.front.now c.entry.back.now) (length out.old) }
    ensures out_after { out.new ≡ read_bytes result c.entry.front.now c.entry.back.now out.old }
{
    let found = discover(c)?;
    if out.len() < found.finding.bytes as usize {
        return Err(Reason::SliceSize);
    }
    put_record(found.finding, c, out);
    Ok(found)
}
