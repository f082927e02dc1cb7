// Interrupt.
ghost use Rattle.std.specs.Prelude.{◌<◌};
ghost use Rattle.rules.specs.Numbers.{devices};
ghost use Rattle.rules.specs.Interrupt.{interrupt as interrupt_of};
ghost use Rattle.store.specs.Store.{tables, Leaves};
ghost use Rattle.handling.specs.Standing.{AtRest};

use crate::moves;
use rules::Answer;
use store;

// The device's waiter becomes ready with the status word, or the word is held. Where a word is held already, nobody waits.
pub fn interrupt(m: &mut [u32], d: u8, word: u32)
    requires { AtRest m.old × (d < devices) }
    ensures { Leaves m.old m.new (interrupt_of d word (tables m.old)) }
{
    if store::word_held(m, d).is_some() {
        store::hold(m, d, word);
        return;
    }
    if let Some(name) = store::waiter(m, d) {
        moves::wake(m, name, Answer::Result(word));
    } else {
        store::hold(m, d, word);
    }
}
