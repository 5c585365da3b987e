// The copies, as C has them: one of them read, discovery, in step, a store applied, a record laid, formatting.
ghost use Rattle.std.specs.Prelude.{◌≡◌, length};
ghost use Rattle.refusal.specs.Tests.{first};
ghost use Rattle.refusal.specs.Refusals.{plain};
ghost use Rattle.copy.specs.Copy.{copy_reading};
ghost use Rattle.refusal.specs.Reasons.{number_in};
ghost use Rattle.layout.specs.Answers.{side_number, area_number};
ghost use Rattle.discovery.specs.Discovery.{discovery, read_answer, read_bytes, copy_on};
ghost use Rattle.stores.specs.Given.{lay_tests, laid};
ghost use Rattle.record.specs.Accept.{named};
ghost use Rattle.format.specs.Format.{format_number, formatted};
ghost use Rattle.sectors.specs.Sectors.{settled};
ghost use Rattle.sectors.specs.Apply.{apply_tests, applied};
ghost use Rattle.layout.specs.declared.Side.TheVariants.{Front, Back};
ghost use Rattle.amseokbin.specs.Copies.{present_number, copy_answer, area_from, block_in, found_of, found_answer, step_answer};

use crate::{Block, CopyAnswer, FoundAnswer, StepAnswer, blocks};
use block::{BlockFields, Time};
use copy::{CopyReading, Present};
use discovery::{Copies, Finding, Found};
use layout::{Area, Device, Side};
use refusal::{Reason, Refusal};
use sectors::CopyRead;

// C's number of a present record: 0 for none, 1 for area a, 2 for area b.
fn present_number(p: Option<Present>) -> u8
    ensures { result ≡ present_number p }
{
    match p {
        None => 0,
        Some(q) => 1 + area_number(q.area),
    }
}

// What reading a copy says, as C has it.
pub(super) fn copy_of(a: Result<CopyReading, Reason>) -> CopyAnswer
    ensures { result ≡ copy_answer a }
{
    match a {
        Ok(c) => CopyAnswer {
            refusal: refusal::plain(0),
            block: blocks::block_of(c.block.fields, c.block.pool, c.block.blockdev),
            a: c.a,
            b: c.b,
            present: present_number(c.present),
        },
        Err(r) => CopyAnswer {
            refusal: Refusal::from(r),
            block: blocks::no_block(),
            a: false,
            b: false,
            present: 0,
        },
    }
}

// Reads one copy.
#[unsafe(no_mangle)]
pub extern "C" fn amseokbin_copy_read(copy: &[u8]) -> CopyAnswer
    ensures { result ≡ copy_answer (copy_reading copy.now) }
{
    copy_of(copy::read(copy))
}

// C's number of a side. A function, here and below: neither of the types of a `From` would be of this crate.
pub(super) fn side_number(s: Side) -> u8
    ensures { result ≡ side_number s }
{
    match s {
        Side::Front => 0,
        Side::Back => 1,
    }
}

// C's number of an area.
pub(super) fn area_number(x: Area) -> u8
    ensures { result ≡ area_number x }
{
    match x {
        Area::A => 0,
        Area::B => 1,
    }
}

// The area that C's number is: 0 is a, anything else b.
pub(super) fn area_from(n: u8) -> Area
    ensures { result ≡ area_from n }
{
    if n == 0 {
        return Area::A;
    }
    Area::B
}

// C's number of the other copy: 0, or its refusal number.
fn other_number(o: Result<BlockFields, Reason>) -> u8
    ensures { result ≡ number_in o }
{
    match o {
        Ok(_) => 0,
        Err(r) => Refusal::from(r).number,
    }
}

// The block of the copy that has the found record.
fn found_block(q: Finding, c: Copies<'_>) -> Block
    ensures { result ≡ block_in q.fields (copy_on q.side c.entry.front.now c.entry.back.now) }
{
    let kept = c.on(q.side);
    blocks::block_of(q.fields, copy::pool_in(kept), copy::blockdev_in(kept))
}

// A found record, as C has it.
fn found_of(a: Found, k: Block) -> FoundAnswer
    ensures { result ≡ found_of a k }
{
    let q = a.finding;
    FoundAnswer {
        refusal: refusal::plain(0),
        side: side_number(q.side),
        area: area_number(q.area),
        other: other_number(a.other),
        bytes: q.bytes,
        time: Time {
            seconds: q.seconds,
            nanoseconds: q.nanoseconds,
        },
        block: k,
    }
}

// Discovery's answer, as C has it.
fn tell(a: Result<Found, Reason>, c: Copies<'_>) -> FoundAnswer
    ensures { result ≡ found_answer a c.entry.front.now c.entry.back.now }
{
    match a {
        Ok(x) => found_of(x, found_block(x.finding, c)),
        Err(r) => FoundAnswer {
            refusal: Refusal::from(r),
            side: 0,
            area: 0,
            other: 0,
            bytes: 0,
            time: Time {
                seconds: 0,
                nanoseconds: 0,
            },
            block: blocks::no_block(),
        },
    }
}

// Finds the newest whole record of two copies.
#[unsafe(no_mangle)]
pub extern "C" fn amseokbin_discover(front: &[u8], back: &[u8]) -> FoundAnswer
    ensures { result ≡ found_answer (discovery front.now back.now) front.now back.now }
{
    let c = Copies { front, back };
    tell(discovery::discover(c), c)
}

// The same, and copies the record to the start of a buffer.
#[unsafe(no_mangle)]
pub extern "C" fn amseokbin_read_found(front: &[u8], back: &[u8], content: &mut [u8]) -> FoundAnswer
    ensures value { result ≡ found_answer (read_answer (discovery front.now back.now) (length content.old)) front.now back.now }
    ensures content_after { content.new ≡ read_bytes (read_answer (discovery front.now back.now) (length content.old)) front.now back.now content.old }
{
    let c = Copies { front, back };
    tell(discovery::read_found(c, content), c)
}

// Whether the two copies are in step.
#[unsafe(no_mangle)]
pub extern "C" fn amseokbin_in_step(front: &[u8], back: &[u8]) -> StepAnswer
    ensures { result ≡ step_answer front.now back.now }
{
    let c = Copies { front, back };
    if !c.sized() {
        return StepAnswer {
            refusal: Refusal::from(Reason::SliceSize),
            step: false,
        };
    }
    StepAnswer {
        refusal: refusal::plain(0),
        step: discovery::examine(c).step,
    }
}

// Whether the sectors that could not be read matter neither to what discovery answers nor to what is stored.
#[unsafe(no_mangle)]
pub extern "C" fn amseokbin_settled(
    front: &[u8],
    back: &[u8],
    front_marks: &[u8],
    back_marks: &[u8],
) -> bool
    ensures { result ≡ settled front.now back.now front_marks.now back_marks.now }
{
    let front = CopyRead {
        bytes: front,
        marks: front_marks,
    };
    let back = CopyRead {
        bytes: back,
        marks: back_marks,
    };
    sectors::settled(front, back)
}

// Applies a store to the two copies in memory.
#[unsafe(no_mangle)]
pub extern "C" fn amseokbin_apply(
    device: Device,
    sector: u64,
    bytes: &[u8],
    front: &mut [u8],
    back: &mut [u8],
) -> Refusal
    ensures value { result ≡ plain (first (apply_tests device bytes.now front.old back.old)) }
    ensures front_after { front.new ≡ applied Front device sector bytes.now front.old back.old }
    ensures back_after { back.new ≡ applied Back device sector bytes.now front.old back.old }
{
    crate::refusal_in(sectors::apply(device, sector, bytes, front, back))
}

// Lays a record into an area of a copy in memory.
#[unsafe(no_mangle)]
pub extern "C" fn amseokbin_lay(copy: &mut [u8], area: u8, content: &[u8]) -> Refusal
    ensures value { result ≡ plain (first (lay_tests copy.old content.now)) }
    ensures copy_after { copy.new ≡ laid copy.old (area_from area) content.now }
{
    crate::refusal_in(stores::lay(copy, area_from(area), content))
}

// Fills both copies.
#[unsafe(no_mangle)]
pub extern "C" fn amseokbin_format(
    front: &mut [u8],
    back: &mut [u8],
    device: Device,
    pool: &[u8],
    blockdev: &[u8],
    time: Time,
    content: &[u8],
) -> Refusal
    ensures value { result ≡ named (format_number front.old back.old device pool.now blockdev.now time content.now) content.now }
    ensures front_after { front.new ≡ formatted front.old front.old back.old device pool.now blockdev.now time content.now }
    ensures back_after { back.new ≡ formatted back.old front.old back.old device pool.now blockdev.now time content.now }
{
    crate::refusal_in(format::format_copies(front, back, device, pool, blockdev, time, content))
}
