// Receive.
ghost use Rattle.rules.specs.Receive.{receive as receive_of};
ghost use Rattle.store.specs.Store.{tables, Holding, Hands};

use handling::moves;
use rules::{Answer, State, Wanted};
use store;
use words::states;

// The oldest wanted message is handed over and its block freed, or the runner waits.
pub fn receive(m: &mut [u32], me: u8, w: Wanted) -> Answer
    requires { Holding m.old }
    ensures { Hands m.old m.new result (receive_of me w (tables m.old)) }
{
    if let Some(x) = store::take_message(m, me, w) {
        states::handed(x)
    } else {
        moves::stop(m, me, State::Receiving(w));
        Answer::Nothing
    }
}
