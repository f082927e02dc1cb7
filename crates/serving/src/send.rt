// Send, and the decision of a trap's manager.
ghost use Rattle.std.specs.Prelude.{◌≡◌, true, false, ◌+◌, ◌<◌, length};
ghost use Rattle.rules.specs.Lists.{any};
ghost use Rattle.rules.specs.Waking.{accepts};
ghost use Rattle.rules.specs.Send.{message as message_of, decides as decides_of, decide as decide_of, send as send_of};
ghost use Rattle.store.specs.Store.{limits, tables, Holding, Leaves};
ghost use Rattle.handling.specs.Standing.{MidEvent};

use crate::ending;
use handling::moves;
use rules::{Answer, Message, MessageKind};
use store;

// Is the receiver trapped, and the sender the manager that it waits for?
pub fn decides(m: &[u32], me: u8, to: u8) -> bool
    requires { Holding m.now }
    ensures { result ≡ decides_of me to (tables m.now) }
{
    store::trapped_on(m, to, me)
}

// The decision 0 continues the trapped thread and discards its notice, another ends it.
fn decide(m: &mut [u32], me: u8, to: u8, word: u32)
    requires { MidEvent m.old × (decides_of me to (tables m.old) ≡ true) }
    ensures { Leaves m.old m.new (decide_of me to word (tables m.old)) }
{
    if word == 0 {
        store::discard_notice(m, to);
        moves::wake(m, to, Answer::Nothing);
    } else {
        ending::end(m, to);
    }
}

pub fn send(m: &mut [u32], me: u8, to: u8, word: u32)
    requires { MidEvent m.old × (decides_of me to (tables m.old) ≡ false →
        any (accepts (message_of to me word)) (tables m.old).threads ≡ false →
        length (tables m.old).messages < (limits m.old).threads + (limits m.old).blocks) }
    ensures { Leaves m.old m.new (send_of me to word (tables m.old)) }
{
    if decides(m, me, to) {
        decide(m, me, to, word);
    } else {
        let x = Message {
            to,
            from: me,
            kind: MessageKind::Ordinary,
            word,
        };
        moves::deliver(m, x);
    }
}
