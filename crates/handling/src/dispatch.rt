// Dispatch, and the status that it leaves.
ghost use Rattle.std.specs.Prelude.{◌≡◌};
ghost use Rattle.rules.specs.Waking.{◌handing◌};
ghost use Rattle.rules.specs.Dispatch.{run_next as run_next_of, dispatch as dispatch_of, status as status_of};
ghost use Rattle.store.specs.Store.{tables, Shaped, Hands};
ghost use Rattle.handling.specs.Standing.{MidEvent};

use rules::{Answer, Runner, State, Status, numbers};
use store;

// The front of the ready queue runs with a full slice, and its waiting answer is handed over. No front that is an Option: the rules ask for
// the list, and this is the one place that takes from it.
fn run_next(m: &mut [u32], given: Answer) -> Answer
    requires { MidEvent m.old }
    ensures { Hands m.old m.new result
        (run_next_of (tables m.old).ready (tables m.old handing given)) }
{
    if store::ready_count(m) == 0 {
        return given;
    }
    let name = store::ready_at(m, 0);
    let answer = store::answer_of(m, name);
    store::turn(m, name, State::Running, Answer::Nothing);
    store::drop_front(m);
    store::set_runner(m, Runner::Runs(name, numbers::SLICE));
    answer
}

// After each event, if nobody runs.
pub fn dispatch(m: &mut [u32], given: Answer) -> Answer
    requires { MidEvent m.old }
    ensures { Hands m.old m.new result (dispatch_of (tables m.old handing given)) }
{
    match store::runner(m) {
        Runner::NoRunner => run_next(m, given),
        Runner::Runs(_, _) => given,
    }
}

pub fn status(m: &[u32]) -> Status
    requires { Shaped m.now }
    ensures { result ≡ status_of (tables m.now) }
{
    if let Runner::Runs(_, _) = store::runner(m) {
        Status::Running
    } else if store::thread_count(m) == 0 {
        Status::Halted
    } else if store::some_wakes(m) {
        Status::Idle
    } else {
        Status::Panicked
    }
}
