// A device has one waiter or a held status or neither: one pass over the threads, with a mark for each device that one waits for.
#![tactic(auto, unfolding(store::specs::Store::Shaped, store::specs::Store::tables))]

ghost use Rattle.std.specs.Prelude.{◌≡◌, true, ltb, if◌then◌else◌, Some, None};
ghost use Rattle.rules.specs.Numbers.{devices};
ghost use Rattle.rules.specs.Words.{by_state};
ghost use Rattle.rules.specs.TableRules.{devices_right as devices_right_of, orders_right};
ghost use Rattle.store.specs.Store.{Shaped, tables};

use memory::{memory as rows, records};
use rules::{State, numbers};

// The device that a thread in this state waits for, if it waits for one.
fn device_of(s: State) -> Option<u8>
    ensures { result ≡ by_state None (λ w. None) (λ e. if ltb e devices then Some e else None) (λ k. None) s }
{
    match s {
        State::Device(d) if d < numbers::DEVICES => Some(d),
        _ => None,
    }
}

// Held devices rise, so that each is held once. A thread may wait where no word is held and no mark is, and leaves one.
pub fn devices_right(m: &[u32]) -> bool
    requires { Shaped m.now × (orders_right (tables m.now) ≡ true) }
    ensures { result ≡ devices_right_of (tables m.now) }
{
    let mut marks = [false; numbers::HELD];
    for t in records::threads(m) {
        let Some(d) = device_of(t.state()) else {
            continue;
        };
        if rows::held(m, d).is_some() || marks[usize::from(d)] {
            return false;
        }
        marks[usize::from(d)] = true;
    }
    true
}
