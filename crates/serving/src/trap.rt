// Trap.
ghost use Rattle.std.specs.Prelude.{◌≡◌, ℕ};
ghost use Rattle.rules.specs.declared.Runner.TheVariants.{Runs as RunsNow};
ghost use Rattle.rules.specs.Trap.{trap as trap_of};
ghost use Rattle.store.specs.Store.{tables, Leaves};
ghost use Rattle.handling.specs.Standing.{AtRest};

use crate::ending;
use handling::moves;
use rules::{Manager, Message, MessageKind, State, TrapKind};
use store;

// With a manager the thread is trapped and a notice goes to the manager; without, the thread ends.
pub fn trap(m: &mut [u32], me: u8, k: TrapKind, cause: u32)
    requires { AtRest m.old × ((s : ℕ) × ((tables m.old).runner ≡ RunsNow me s)) }
    ensures { Leaves m.old m.new (trap_of me k cause (tables m.old)) }
{
    if let Manager::Set(n) = store::manager_of(m, me, k) {
        moves::stop(m, me, State::Trapped(k));
        let told = Message {
            to: n,
            from: me,
            kind: MessageKind::Notice,
            word: cause,
        };
        moves::deliver(m, told);
    } else {
        ending::end(m, me);
    }
}
