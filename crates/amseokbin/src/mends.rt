// Mends, as C has them.
ghost use Rattle.std.specs.Prelude.{◌≡◌};
ghost use Rattle.search.specs.Search.{one};
ghost use Rattle.mend.specs.Plan as Mend;
ghost use Rattle.amseokbin.specs.Plans.{store_answer, side_from, mend_from, rewrite_told, no_mend, mend_answer};

use crate::{MendAnswer, MendPlan, StoreAnswer, copies, storing};
use discovery::Copies;
use layout::Side;
use mend::Rewrite;
use refusal::{Reason, Refusal};

// The side that C's number is: 0 is the front, anything else the back.
fn side_from(n: u8) -> Side
    ensures { result ≡ side_from n }
{
    if n == 0 {
        return Side::Front;
    }
    Side::Back
}

// 1 for yes, 0 for no.
fn flag(yes: bool) -> u8
    ensures { result ≡ one yes }
{
    yes as u8
}

// What a mend stores, as C has it.
fn plan_of(p: Rewrite) -> MendPlan
    ensures { result ≡ rewrite_told p }
{
    MendPlan {
        bytes: p.bytes,
        needed: 1,
        kept: copies::side_number(p.kept),
        area: copies::area_number(p.area),
        last: flag(p.last),
    }
}

// The mend that C's plan is.
fn mend_from(p: MendPlan) -> Result<Option<Rewrite>, Reason>
    ensures { result ≡ mend_from p }
{
    if p.needed == 0 {
        return Ok(None);
    }
    Ok(Some(Rewrite {
        kept: side_from(p.kept),
        area: copies::area_from(p.area),
        bytes: p.bytes,
        last: p.last != 0,
    }))
}

// No plan, which is also that of copies in step.
fn no_plan() -> MendPlan
    ensures { result ≡ no_mend }
{
    MendPlan {
        bytes: 0,
        needed: 0,
        kept: 0,
        area: 0,
        last: 0,
    }
}

// Works a mend out.
#[unsafe(no_mangle)]
pub extern "C" fn amseokbin_mend_plan(front: &[u8], back: &[u8]) -> MendAnswer
    ensures { result ≡ mend_answer (Mend.mending front.now back.now) }
{
    match mend::work_out(Copies { front, back }) {
        Ok(None) => MendAnswer {
            refusal: refusal::plain(0),
            plan: no_plan(),
        },
        Ok(Some(p)) => MendAnswer {
            refusal: refusal::plain(0),
            plan: plan_of(p),
        },
        Err(r) => MendAnswer {
            refusal: Refusal::from(r),
            plan: no_plan(),
        },
    }
}

// How many stores a plan has.
#[unsafe(no_mangle)]
pub extern "C" fn amseokbin_mend_count(plan: MendPlan) -> u64
    ensures { result ≡ Mend.stores_in (mend_from plan) }
{
    mend::count(mend_from(plan))
}

// The group of a store, 0 to 3; 4 past the last store.
#[unsafe(no_mangle)]
pub extern "C" fn amseokbin_mend_group(plan: MendPlan, number: u64) -> u8
    ensures { result ≡ Mend.group_of (mend_from plan) number }
{
    mend::group(mend_from(plan), number)
}

// A store: its 512 bytes to the lent sector.
#[unsafe(no_mangle)]
pub extern "C" fn amseokbin_mend_store(
    plan: MendPlan,
    front: &[u8],
    back: &[u8],
    number: u64,
    bytes: &mut [u8],
) -> StoreAnswer
    ensures value { result ≡ store_answer (Mend.store_answer (mend_from plan) front.now back.now number bytes.old) (Mend.flush_after (mend_from plan) number) }
    ensures bytes_after { bytes.new ≡ Mend.store_bytes (mend_from plan) front.now back.now number bytes.old }
{
    let m = mend_from(plan);
    let a = mend::store(m, Copies { front, back }, number, bytes);
    storing::tell(a, mend::flush(m, number))
}
