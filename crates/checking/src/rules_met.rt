// All the table rules. Orders, ranges and names come first: later tests rest on them. The places of names are found once, and lent.
#![tactic(auto, unfolding(store::specs::Store::Shaped))]

ghost use Rattle.std.specs.Prelude.{◌≡◌, ◌&&◌};
ghost use Rattle.rules.specs.TableRules.{ranges, names_right, orders_right, parents_right, places_agree, devices_right, runner_right};
ghost use Rattle.rules.specs.TableRules.{names_live, trapped_right, answers_right, inboxes_right, messages_right, notices_right};
ghost use Rattle.rules.specs.TableRules.{table_rules};
ghost use Rattle.store.specs.Store.{Shaped, tables, limits};
ghost use Rattle.indexing.specs.Index.{Once};

use agreeing::{answers, inboxes, managers, places};
use indexing::index::NamePlaces;
use ranging::{devices, parents, ranges};

// The rules that look no name up.
fn rows_right(m: &[u32]) -> bool
    requires { Shaped m.now }
    ensures { result ≡ (ranges (tables m.now) && names_right (limits m.now) (tables m.now) && orders_right (tables m.now)) }
{
    ranges::ranges(m) && ranges::names_right(m) && ranges::orders_right(m)
}

// The rules on the places of threads: above each other, in the queues, as the runner. This group and the two behind it are compiled as
// calls: with all in one the memory's place is read anew at each look, and the rows of all stand in one frame.
#[inline(never)]
fn places_right(x: &NamePlaces<'_>) -> bool
    requires { Once x.now }
    ensures { result ≡ (parents_right (tables x.now) && places_agree (tables x.now)
        && runner_right (tables x.now).ready (tables x.now).runner) }
{
    parents::parents_right_by_places(x)
        && places::places_agree(x)
        && places::runner_right(x.words())
}

// The rules on messages.
#[inline(never)]
fn messages_met(x: &NamePlaces<'_>) -> bool
    requires { Once x.now }
    ensures { result ≡ (inboxes_right (tables x.now) && messages_right (limits x.now) (tables x.now)
        && notices_right (tables x.now)) }
{
    inboxes::inboxes_right_by_places(x)
        && inboxes::messages_right(x)
        && inboxes::notices_right_by_places(x)
}

// The rules on threads by themselves.
#[inline(never)]
fn threads_right(x: &NamePlaces<'_>) -> bool
    ensures { result ≡ (names_live (tables x.now) && trapped_right (tables x.now)
        && answers_right (tables x.now)) }
{
    managers::names_live(x)
        && managers::trapped_right(x.words())
        && answers::answers_right(x.words())
}

pub fn rules_met(m: &[u32]) -> bool
    requires { Shaped m.now }
    ensures { result ≡ table_rules (limits m.now) (tables m.now) }
{
    if !rows_right(m) {
        return false;
    }
    let x = NamePlaces::of(m);
    places_right(&x) && devices::devices_right(m) && messages_met(&x) && threads_right(&x)
}
