// Answers have their forms and wait only for ready threads.
#![tactic(auto, unfolding(rules::specs::TableRules::answer_in_range, rules::specs::TableRules::is_nothing, store::specs::Store::Shaped, store::specs::Store::tables))]

ghost use Rattle.std.specs.Prelude.{◌≡◌, ◌&&◌, ◌||◌};
ghost use Rattle.rules.specs.States.{is_ready as is_ready_of};
ghost use Rattle.rules.specs.TableRules.{answer_in_range as answer_in_range_of, is_nothing as is_nothing_of};
ghost use Rattle.rules.specs.TableRules.{answers_right as answers_right_of};
ghost use Rattle.store.specs.Store.{Shaped, tables};

use memory::records;
use rules::{Answer, State, numbers};
use words::states;

// Words are in their range by their type. crates/faults has the same for a dump: it rests on no crate of the memory, nor this one on it.
fn answer_in_range(a: Answer) -> bool
    ensures { result ≡ answer_in_range_of a }
{
    match a {
        Answer::FromMessage(n, _) | Answer::FromNotice(n, _) | Answer::SenderGone(n) => {
            n < numbers::NAMES
        }
        _ => true,
    }
}

// An answer in its form, which waits only for a ready thread.
fn answer_right(s: State, a: Answer) -> bool
    ensures { result ≡ (answer_in_range_of a && (is_ready_of s || is_nothing_of a)) }
{
    answer_in_range(a) && (states::is_ready(s) || a == Answer::Nothing)
}

pub fn answers_right(m: &[u32]) -> bool
    requires { Shaped m.now }
    ensures { result ≡ answers_right_of (tables m.now) }
{
    records::threads(m).all(|t| answer_right(t.state(), t.answer()))
}
