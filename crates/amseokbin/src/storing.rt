// A store, as C has it.
ghost use Rattle.std.specs.Prelude.{◌≡◌};
ghost use Rattle.amseokbin.specs.Plans.{store_answer};

use crate::StoreAnswer;
use refusal::{Reason, Refusal};

// A store, and whether a flush belongs after it.
pub(super) fn tell(a: Result<u64, Reason>, flush: bool) -> StoreAnswer
    ensures { result ≡ store_answer a flush }
{
    match a {
        Ok(sector) => StoreAnswer {
            refusal: refusal::plain(0),
            sector,
            flush,
        },
        Err(r) => StoreAnswer {
            refusal: Refusal::from(r),
            sector: 0,
            flush: false,
        },
    }
}
