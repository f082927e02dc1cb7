// "Wrong length" (15).
ghost use Rattle.std.specs.Prelude.{◌≡◌};
ghost use Rattle.rules.specs.Faults.{wrong_length as wrong_length_of};

use crate::placed::Field;
use rules::{DumpField, tags};

// Has the value another length than its tag has?
#[tactic(auto, unfolding(rules::specs::Faults::wrong_length, rules::specs::Tags::dump_field, rules::specs::Tags::dump_facts, rules::specs::Tags::dump_facts_in))]
pub fn wrong_length(field: &Field) -> bool
    ensures { result ≡ wrong_length_of field.now }
{
    match tags::dump_facts(field.tag()) {
        Some(
            DumpField {
                length: Some(n),
                ..
            },
        ) => field.value().len() != usize::from(n),
        _ => false,
    }
}
