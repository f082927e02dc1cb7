// A receiver's inbox holds no match; senders and receivers are live; ordinary messages within the limit; notices.
// Each rule is one pass over the messages: the places say where the thread of a name stands.
#![tactic(auto, unfolding(store::specs::Store::Shaped, store::specs::Store::tables, store::specs::Store::limits))]

ghost use Rattle.std.specs.Prelude.{◌≡◌, ◌&&◌};
ghost use Rattle.rules.specs.Lists.{any};
ghost use Rattle.rules.specs.Tables.{named, live as live_of};
ghost use Rattle.rules.specs.States.{awaits};
ghost use Rattle.rules.specs.Waking.{accepts};
ghost use Rattle.rules.specs.TableRules.{inboxes_right as inboxes_right_of, messages_right as messages_right_of};
ghost use Rattle.rules.specs.TableRules.{notices_right as notices_right_of};
ghost use Rattle.store.specs.Store.{tables, limits};
ghost use Rattle.indexing.specs.Index.{Once};

use indexing::index::{Index, NamePlaces};
use memory::memory as rows;
use memory::records::{self, MessageWords};
use words::states;

// A message is a match exactly if the thread of its receiver's name would receive from its sender. Names are distinct.
fn is_match(x: &NamePlaces<'_>, l: &MessageWords<'_>) -> bool
    requires { Once x.now }
    ensures { result ≡ any (accepts l.now) (tables x.now).threads }
{
    let to = l.to();
    match x.place_of(to) {
        Some(j) => {
            let from = l.from();
            records::record(x.words(), j).receives(from)
        }
        None => false,
    }
}

pub fn inboxes_right_by_places(x: &NamePlaces<'_>) -> bool
    requires { Once x.now }
    ensures { result ≡ inboxes_right_of (tables x.now) }
{
    records::messages(x.words()).all(|l| !is_match(x, &l))
}

pub fn inboxes_right(x: &Index<'_>) -> bool
    ensures { result ≡ inboxes_right_of (tables x.now) }
{
    inboxes_right_by_places(x.places())
}

fn ends_live(x: &NamePlaces<'_>, l: &MessageWords<'_>) -> bool
    ensures { result ≡ (live_of l.now.to (tables x.now) && live_of l.now.from (tables x.now)) }
{
    x.is_live(l.to()) && x.is_live(l.from())
}

// Both ends of each message are live. Ordinary messages are counted on the way: a second pass for them is a tenth of the check.
pub fn messages_right(x: &NamePlaces<'_>) -> bool
    ensures { result ≡ messages_right_of (limits x.now) (tables x.now) }
{
    let m = x.words();
    let mut used = 0;
    for l in records::messages(m) {
        if !ends_live(x, &l) {
            return false;
        }
        used += usize::from(states::is_ordinary(l.kind()));
    }
    used <= rows::blocks(m)
}

// A notice's sender is trapped on its receiver, and it is the sender's first: `seen` marks the places of senders met. Names are distinct.
pub fn notices_right_by_places(x: &NamePlaces<'_>) -> bool
    requires { Once x.now }
    ensures { result ≡ notices_right_of (tables x.now) }
{
    let m = x.words();
    let mut seen = [false; 256];
    for l in records::messages(m) {
        if states::is_ordinary(l.kind()) {
            continue;
        }
        let Some(j) = x.place_of(l.from()) else {
            return false;
        };
        if !records::record(m, j).awaits(l.to()) || seen[j] {
            return false;
        }
        seen[j] = true;
    }
    true
}

pub fn notices_right(x: &Index<'_>) -> bool
    ensures { result ≡ notices_right_of (tables x.now) }
{
    notices_right_by_places(x.places())
}
