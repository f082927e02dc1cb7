// Where bytes that are no dump are bad (document 02, CR 4): a pass over the fields for each number, and the first fault of the first
// number that has one. The bytes alone are looked at, never a memory.
#![tactic(auto, unfolding(crate::specs::Names::lives_in, rules::specs::Refused::refusal_number, rules::specs::TableRules::state_in_range, rules::specs::TableRules::answer_in_range, rules::specs::TableRules::manager_set, rules::specs::Tables::manager, rules::specs::Load::thread_from, rules::specs::Load::message_from, rules::specs::Load::held_from, rules::specs::Faults::runner_fits, rules::specs::Faults::state_fits, rules::specs::Faults::answer_fits, rules::specs::Faults::head_fits, rules::specs::Faults::thread_fits, rules::specs::Faults::message_fits, rules::specs::Faults::value_fits, rules::specs::Faults::out_of_range, rules::specs::Faults::head_lives, rules::specs::Faults::thread_lives, rules::specs::Faults::message_lives, rules::specs::Faults::value_lives, rules::specs::Faults::names_nobody))]

pub mod find;
mod lengths;
mod names;
mod order;
mod passes;
mod placed;
mod ranges;
pub mod values;

pub use order::Before;
