// The moves that events share: a thread becomes ready, the runner stops, a message or notice goes to a thread.
ghost use Rattle.std.specs.Prelude.{◌≡◌, ◌+◌, ◌<◌, false, length};
ghost use Rattle.rules.specs.Lists.{any};
ghost use Rattle.rules.specs.Waking.{accepts, wake as wake_of, deliver as deliver_of, stop as stop_of};
ghost use Rattle.store.specs.Store.{limits, tables, Holding, Leaves};
ghost use Rattle.handling.specs.Standing.{MidEvent};

use rules::{Answer, Message, Runner, State};
use store;
use words::states;

// The thread of a name becomes ready with an answer, at the tail of the queue.
pub fn wake(m: &mut [u32], name: u8, a: Answer)
    requires { Holding m.old × (length (tables m.old).ready < (limits m.old).threads) }
    ensures { Leaves m.old m.new (wake_of name a (tables m.old)) }
{
    store::turn(m, name, State::Ready, a);
    store::join_ready(m, name);
}

// The runner waits in a state; nobody runs.
pub fn stop(m: &mut [u32], me: u8, s: State)
    requires { Holding m.old }
    ensures { Leaves m.old m.new (stop_of me s (tables m.old)) }
{
    store::turn(m, me, s, Answer::Nothing);
    store::set_runner(m, Runner::NoRunner);
}

// Does the receiver wait for this message?
pub fn is_awaited(m: &[u32], x: Message) -> bool
    requires { Holding m.now }
    ensures { result ≡ any (accepts x) (tables m.now).threads }
{
    store::receives_from(m, x.to, x.from)
}

// A message or notice: to a receiver that waits for it as its answer, else into the inbox.
pub fn deliver(m: &mut [u32], x: Message)
    requires { MidEvent m.old × (any (accepts x) (tables m.old).threads ≡ false →
        length (tables m.old).messages < (limits m.old).threads + (limits m.old).blocks) }
    ensures { Leaves m.old m.new (deliver_of x (tables m.old)) }
{
    if is_awaited(m, x) {
        wake(m, x.to, states::handed(x));
    } else {
        store::queue(m, x);
    }
}
