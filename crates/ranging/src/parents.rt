// Parents are live, without a cycle, 0 alone has none.
#![tactic(auto, unfolding(store::specs::Store::Shaped, store::specs::Store::tables))]

ghost use Rattle.std.specs.Prelude.{◌≡◌, ◌≤◌, ◌<◌, length};
ghost use Rattle.rules.specs.TableRules.{parents_right as parents_right_of};
ghost use Rattle.store.specs.Store.{tables};
ghost use Rattle.indexing.specs.Index.{Once};
ghost use Rattle.ranging.specs.Upward.{above as above_of, Upward, Leads, AllLead};

use indexing::index::{Index, NamePlaces};
use memory::{memory as rows, records};
use rules::Parent;

// What stands above the thread at the place i: its parent's place, or above thread 0 how many threads there are. One whose parent is wrong
// stands above itself, so that going up from it ends nowhere. A number and no Option: going up is one look in an array of bytes.
fn above(x: &NamePlaces<'_>, i: usize, name: u8, p: Parent) -> usize
    ensures { result ≡ above_of (tables x.now).threads i name p }
{
    match p {
        None if name != 0 => i,
        None => rows::count(x.words()),
        Some(m) if name != 0 => x.place_of(m).unwrap_or(i),
        Some(_) => i,
    }
}

// What stands above each thread, by places: each entry is written at its thread's place, which a walk does not say.
fn upward(x: &NamePlaces<'_>) -> [u8; 256]
    ensures { Upward (tables x.now).threads result }
{
    let m = x.words();
    let mut up = [0; 256];
    for i in 0..rows::count(m) {
        let t = records::record(m, i);
        up[i] = above(x, i, t.name(), t.parent()) as u8;
    }
    up
}

// Does going up from i come to a place before it, or above all? The rule allows n steps from a parent, and so n + 1 from i.
fn leads(up: &[u8], i: usize) -> bool
    requires { (length up.now ≤ 254) × (i < length up.now) }
    ensures { Leads up.now (length up.now) i result }
{
    let mut at = i;
    for _k in 0..=up.len() {
        at = usize::from(up[at]);
        if at < i || up.len() <= at {
            return true;
        }
    }
    false
}

// From each place in turn: those before it are known to lead above all.
fn all_lead(up: &[u8]) -> bool
    requires { length up.now ≤ 254 }
    ensures { AllLead up.now (length up.now) result }
{
    for i in 0..up.len() {
        if !leads(up, i) {
            return false;
        }
    }
    true
}

pub fn parents_right_by_places(x: &NamePlaces<'_>) -> bool
    requires { Once x.now }
    ensures { result ≡ parents_right_of (tables x.now) }
{
    let n = rows::count(x.words());
    all_lead(&upward(x)[..n])
}

pub fn parents_right(x: &Index<'_>) -> bool
    ensures { result ≡ parents_right_of (tables x.now) }
{
    parents_right_by_places(x.places())
}
