// A copy in pieces, as C has it: a state by value, a piece, the end.
ghost use Rattle.std.specs.Prelude.{◌≡◌};
ghost use Rattle.receive.specs.Receive.{fresh, taking, ending};
ghost use Rattle.amseokbin.specs.Copies.{receive_answer, copy_answer};

use crate::{CopyAnswer, ReceiveAnswer, copies};
use receive::Received;

// The state before the first piece.
#[unsafe(no_mangle)]
pub extern "C" fn amseokbin_receive_begin() -> Received
    ensures { result ≡ fresh }
{
    receive::begin()
}

// Takes a piece. The state goes on in place: answered by `receive::piece` it is copied once more.
#[unsafe(no_mangle)]
pub extern "C" fn amseokbin_receive_piece(received: Received, piece: &[u8]) -> ReceiveAnswer
    ensures { result ≡ receive_answer received (taking received piece.now) }
{
    let mut next = received;
    let answer = receive::take(&mut next, piece);
    ReceiveAnswer {
        refusal: crate::refusal_in(answer),
        received: next,
    }
}

// Reads the copy whose pieces were taken.
#[unsafe(no_mangle)]
pub extern "C" fn amseokbin_receive_end(received: Received) -> CopyAnswer
    ensures { result ≡ copy_answer (ending received) }
{
    copies::copy_of(receive::end(received))
}
