// Tables filled in from nothing, entry by entry: a start, and a dump that is read.
ghost use Rattle.std.specs.Prelude.{◌≡◌, ◌+◌, ◌<◌, true, [], ◌∷◌, ◌++◌, length, nat_lt};
ghost use Rattle.rules.specs.Lists.{all};
ghost use Rattle.rules.specs.Numbers.{devices};
ghost use Rattle.rules.specs.Tables.{with_threads, with_ready, with_clock, with_messages, with_held};
ghost use Rattle.rules.specs.Interrupt.{hold as hold_of};
ghost use Rattle.store.specs.Store.{limits, tables, Shaped, Holding, Fills, Room, nothing};

use memory::memory as rows;
use moving::queues;
use rules::numbers::Limits;
use rules::{Message, Thread};

// Whatever stood there, the memory has these limits and holds nothing.
pub fn clear(m: &mut [u32], l: Limits)
    requires { Room l (length m.old) }
    ensures { (tables m.new ≡ nothing) × (limits m.new ≡ l) × Holding m.new }
{
    rows::clear(m, l);
}

// A thread behind the others.
pub fn fill_thread(m: &mut [u32], t: Thread)
    requires { Shaped m.old × (length (tables m.old).threads < (limits m.old).threads) }
    ensures { Fills m.old m.new
        (with_threads ((tables m.old).threads ++ (t ∷ [])) (tables m.old)) }
{
    let n = rows::count(m);
    rows::put_thread(m, n, t);
    rows::set_count(m, n + 1);
}

// As join_ready in queues.rt, but asks of no order of names, and promises none; so with fill_clock and fill_held.
pub fn fill_ready(m: &mut [u32], name: u8)
    requires { Shaped m.old × (length (tables m.old).ready < (limits m.old).threads) }
    ensures { Fills m.old m.new
        (with_ready ((tables m.old).ready ++ (name ∷ [])) (tables m.old)) }
{
    queues::join_ready(m, name);
}

pub fn fill_clock(m: &mut [u32], name: u8)
    requires { Shaped m.old × (length (tables m.old).clock < (limits m.old).threads) }
    ensures { Fills m.old m.new
        (with_clock ((tables m.old).clock ++ (name ∷ [])) (tables m.old)) }
{
    queues::join_clock(m, name);
}

// A message behind the others.
pub fn fill_message(m: &mut [u32], x: Message)
    requires { Shaped m.old × (length (tables m.old).messages < (limits m.old).threads + (limits m.old).blocks) }
    ensures { Fills m.old m.new
        (with_messages ((tables m.old).messages ++ (x ∷ [])) (tables m.old)) }
{
    let n = rows::letters(m);
    rows::put_message(m, n, x);
    rows::set_letters(m, n + 1);
}

// A held word. `hold` asks for names that come once, and held words have nothing to do with names.
pub fn fill_held(m: &mut [u32], d: u8, word: u32)
    requires { Shaped m.old × (d < devices) × (all (λ h. nat_lt h.device devices) (tables m.old).held ≡ true) }
    ensures { Fills m.old m.new
        (with_held (hold_of d word (tables m.old).held) (tables m.old)) }
{
    rows::hold(m, d, word);
}
