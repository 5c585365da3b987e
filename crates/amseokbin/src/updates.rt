// Updates, as C has them.
ghost use Rattle.std.specs.Prelude.{◌≡◌};
ghost use Rattle.record.specs.Accept.{named};
ghost use Rattle.update.specs.Update.{update_number};
ghost use Rattle.update.specs.Plan as Update;
ghost use Rattle.amseokbin.specs.Plans.{store_answer, update_from, update_of, no_update, update_answer};

use crate::{StoreAnswer, UpdateAnswer, UpdatePlan, copies, storing};
use block::{Holding, Time};
use discovery::Copies;
use refusal::Refusal;
use update::Plan;

// Whether an update is refused.
#[unsafe(no_mangle)]
pub extern "C" fn amseokbin_update_check(
    front: &[u8],
    back: &[u8],
    time: Time,
    content: &[u8],
) -> Refusal
    ensures { result ≡ named (update_number front.now back.now time content.now) content.now }
{
    crate::refusal_in(update::check(Copies { front, back }, time, content))
}

// A plan, as C has it.
fn plan_of(p: Plan) -> UpdatePlan
    ensures { result ≡ update_of p }
{
    UpdatePlan {
        entry: p.entry,
        front: copies::area_number(p.front),
        back: copies::area_number(p.back),
    }
}

// The plan that C's is.
fn plan_from(p: UpdatePlan) -> Plan
    ensures { result ≡ update_from p }
{
    Plan {
        entry: p.entry,
        front: copies::area_from(p.front),
        back: copies::area_from(p.back),
    }
}

// No plan.
fn no_plan() -> UpdatePlan
    ensures { result ≡ no_update }
{
    let entry = Holding {
        seconds: 0,
        nanoseconds: 0,
        bytes: 0,
        checksum: 0,
    };
    UpdatePlan {
        entry,
        front: 0,
        back: 0,
    }
}

// Works an update out.
#[unsafe(no_mangle)]
pub extern "C" fn amseokbin_update_plan(
    front: &[u8],
    back: &[u8],
    time: Time,
    content: &[u8],
) -> UpdateAnswer
    ensures { result ≡ update_answer (Update.planned front.now back.now time content.now) }
{
    match update::work_out(Copies { front, back }, time, content) {
        Ok(p) => UpdateAnswer {
            refusal: refusal::plain(0),
            plan: plan_of(p),
        },
        Err(r) => UpdateAnswer {
            refusal: Refusal::from(r),
            plan: no_plan(),
        },
    }
}

// How many stores a plan has.
#[unsafe(no_mangle)]
pub extern "C" fn amseokbin_update_count(plan: UpdatePlan) -> u64
    ensures { result ≡ Update.stores_in (update_from plan) }
{
    update::count(plan_from(plan))
}

// The group of a store, 0 to 3; 4 past the last store.
#[unsafe(no_mangle)]
pub extern "C" fn amseokbin_update_group(plan: UpdatePlan, number: u64) -> u8
    ensures { result ≡ Update.group_of (update_from plan) number }
{
    update::group(plan_from(plan), number)
}

// A store: its 512 bytes to the lent sector.
#[unsafe(no_mangle)]
pub extern "C" fn amseokbin_update_store(
    plan: UpdatePlan,
    front: &[u8],
    back: &[u8],
    content: &[u8],
    number: u64,
    bytes: &mut [u8],
) -> StoreAnswer
    ensures value { result ≡ store_answer (Update.store_answer (update_from plan) front.now back.now content.now number bytes.old) (Update.flush_after (update_from plan) number) }
    ensures bytes_after { bytes.new ≡ Update.store_bytes (update_from plan) front.now back.now content.now number bytes.old }
{
    let p = plan_from(plan);
    let a = update::store(p, Copies { front, back }, content, number, bytes);
    storing::tell(a, update::flush(p, number))
}
