// Ranges, names and orders. `Shaped m.now` stays a clause: the walks of crates/memory ask for it of the lent words, and a type around these
// would only repeat each walk.
#![tactic(auto, unfolding(rules::specs::TableRules::state_in_range, store::specs::Store::Shaped, store::specs::Store::tables, store::specs::Store::limits))]

ghost use Rattle.std.specs.Prelude.{◌≡◌, true, ltb, leb};
ghost use Rattle.rules.specs.Lists.{all, chain};
ghost use Rattle.rules.specs.Numbers.{names};
ghost use Rattle.rules.specs.TableRules.{state_in_range as state_in_range_of, ranges as ranges_of, names_right as names_right_of};
ghost use Rattle.rules.specs.TableRules.{orders_right as orders_right_of};
ghost use Rattle.store.specs.Store.{Shaped, tables, limits};

use memory::{memory as rows, records};
use rules::{State, numbers};

// Of a memory. crates/faults asks a dump's state for more.
fn state_in_range(s: State) -> bool
    ensures { result ≡ state_in_range_of s }
{
    match s {
        State::Device(d) => d < numbers::DEVICES,
        _ => true,
    }
}

// Counts are in their range by their type.
fn threads_in_range(m: &[u32]) -> bool
    requires { Shaped m.now }
    ensures { result ≡ all (λ t. state_in_range_of t.state) (tables m.now).threads }
{
    records::threads(m).all(|t| state_in_range(t.state()))
}

// Every value is in its range, the name given last 0 to 253.
pub fn ranges(m: &[u32]) -> bool
    requires { Shaped m.now }
    ensures { result ≡ ranges_of (tables m.now) }
{
    rows::last(m) < numbers::NAMES
        && rows::since(m) < numbers::BEAT
        && threads_in_range(m)
        && rows::held_told(m)
}

// Do the names rise?
fn names_rise(m: &[u32]) -> bool
    requires { Shaped m.now }
    ensures { result ≡ chain (λ t u. ltb t.name u.name) (tables m.now).threads }
{
    records::threads(m).is_sorted_by(|t, u| t.name() < u.name())
}

fn names_low(m: &[u32]) -> bool
    requires { Shaped m.now }
    ensures { result ≡ all (λ t. ltb t.name names) (tables m.now).threads }
{
    records::threads(m).all(|t| t.name() < numbers::NAMES)
}

// Live names are distinct, 0 to 253, within the limit.
pub fn names_right(m: &[u32]) -> bool
    requires { Shaped m.now }
    ensures { result ≡ names_right_of (limits m.now) (tables m.now) }
{
    names_rise(m) && names_low(m)
}

fn messages_rise(m: &[u32]) -> bool
    requires { Shaped m.now }
    ensures { result ≡ chain (λ k l. leb k.to l.to) (tables m.now).messages }
{
    records::messages(m).is_sorted_by(|x, y| x.to() <= y.to())
}

// Messages by rising receiver. Held words stand by rising device where each is held for a device.
pub fn orders_right(m: &[u32]) -> bool
    requires { Shaped m.now × (ranges_of (tables m.now) ≡ true) }
    ensures { result ≡ orders_right_of (tables m.now) }
{
    messages_rise(m)
}
