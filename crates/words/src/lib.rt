// What the words of the memory say, and the tests of the rules on what they say.
#![tactic(auto)]

pub mod looks;
pub mod saying;
pub mod states;
