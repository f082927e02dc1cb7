// What the bytes of an event mean, when it is refused, the step and the start.
#![tactic(auto, unfolding(rules::specs::Refusals::first_of, rules::specs::Refusals::call_rules, rules::specs::Refusals::over, rules::specs::Refusals::ends_nobody, rules::specs::Refused::refusal_number, rules::specs::Refused::refusal_told))]

pub mod decode;
pub mod refusals;
pub mod start;
pub mod step;
