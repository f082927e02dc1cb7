// Names wanted and set are live, and no manager is oneself; a trapped thread's manager is live.
#![tactic(auto, unfolding(rules::specs::TableRules::wanted_live, rules::specs::TableRules::manager_set, rules::specs::Tables::manager, store::specs::Store::Shaped, store::specs::Store::tables))]

ghost use Rattle.std.specs.Prelude.{◌≡◌, ◌&&◌};
ghost use Rattle.rules.specs.TableRules.{wanted_live as wanted_live_of, entry_right as entry_right_of, entries_right as entries_right_of};
ghost use Rattle.rules.specs.TableRules.{names_live as names_live_of, manager_set as manager_set_of, trapped_right as trapped_right_of};
ghost use Rattle.store.specs.Store.{Shaped, tables};

use indexing::index::NamePlaces;
use memory::records::{self, ThreadWords};
use rules::{Manager, State, TrapKind, Wanted};

fn wanted_live(x: &NamePlaces<'_>, s: State) -> bool
    ensures { result ≡ wanted_live_of (tables x.now) s }
{
    match s {
        State::Receiving(Wanted::Only(k)) => x.is_live(k),
        _ => true,
    }
}

fn entry_right(x: &NamePlaces<'_>, own: u8, g: Manager) -> bool
    ensures { result ≡ entry_right_of (tables x.now) own g }
{
    match g {
        Manager::Set(k) => x.is_live(k) && k != own,
        _ => true,
    }
}

fn entries_right(x: &NamePlaces<'_>, t: &ThreadWords<'_>) -> bool
    ensures { result ≡ entries_right_of (tables x.now) t.now }
{
    entry_right(x, t.name(), t.manager(TrapKind::Program))
        && entry_right(x, t.name(), t.manager(TrapKind::Tlb))
        && entry_right(x, t.name(), t.manager(TrapKind::SysBp))
}

// Are the names live that a thread wants and that are set?
fn thread_right(x: &NamePlaces<'_>, t: &ThreadWords<'_>) -> bool
    ensures { result ≡ (wanted_live_of (tables x.now) t.now.state && entries_right_of (tables x.now) t.now) }
{
    wanted_live(x, t.state()) && entries_right(x, t)
}

pub fn names_live(x: &NamePlaces<'_>) -> bool
    ensures { result ≡ names_live_of (tables x.now) }
{
    records::threads(x.words()).all(|t| thread_right(x, &t))
}

fn manager_set(t: &ThreadWords<'_>) -> bool
    ensures { result ≡ manager_set_of t.now.managers t.now.state }
{
    match t.state() {
        State::Trapped(k) => matches!(t.manager(k), Manager::Set(_)),
        _ => true,
    }
}

pub fn trapped_right(m: &[u32]) -> bool
    requires { Shaped m.now }
    ensures { result ≡ trapped_right_of (tables m.now) }
{
    records::threads(m).all(|t| manager_set(&t))
}
