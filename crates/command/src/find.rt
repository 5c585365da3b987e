// The word `find`: the newest whole record, and whose pool it is. Assumes what `io` and `std` do.
use crate::copies::Look;
use crate::facts;
use crate::say::Printed;
use crate::statuses::Status;

fn print_found(look: Look<'_>) -> Printed {
    facts::print_answer(look)?;
    facts::print_identity(look)
}

// Prints what is found in two copies, and notes what is wrong with them.
pub(crate) fn run(look: Look<'_>) -> Status {
    let examined = discovery::examine(look.copies());
    let status = match examined.answer {
        Err(n) => facts::refuse_found(look, n),
        Ok(found) => {
            let printed = print_found(look);
            facts::note_state(look, examined.step, facts::record_time(found.finding));
            Status::printed(printed)
        }
    };
    look.status().max(status)
}
