// The step on lent tables. Nothing is asked of them: any words get their answer.
ghost use Rattle.std.specs.Prelude.{◌≡◌};
ghost use Rattle.lending.specs.Lent.{no_tables as no_tables_of, Answered, AnsweredValue};

use crate::{NextTables, Tables};
use checking::check;
use rules::refusal::Refusal;
use rules::{Answer, Decision, numbers};

// Refusal 11. A decision's numbers are those that C is handed: 255 for status and runner is the rules' no_tables.
pub fn no_tables() -> Decision
    ensures { result ≡ no_tables_of }
{
    Decision {
        refusal: u8::from(Refusal::NoTables),
        status: numbers::NOBODY,
        runner: numbers::NOBODY,
        answer: Answer::Nothing,
    }
}

// One event, given by the bytes of its field, in place.
pub fn step_in(m: &mut [u32], event: &[u8]) -> Decision
    ensures { Answered m.old event.now m.new result }
{
    if !check::check(m) {
        return no_tables();
    }
    stepping::step::step(m, event)
}

// The same by value.
pub fn step_value(t: Tables, event: &[u8]) -> NextTables
    ensures { AnsweredValue t event.now result }
{
    let mut words = t.words;
    let decision = step_in(&mut words, event);
    NextTables {
        tables: Tables { words },
        decision,
    }
}
