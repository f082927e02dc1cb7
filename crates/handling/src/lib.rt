// What is no call of the runner: the moves that events share, tick, interrupt, dispatch. Handlers speak to the store in the rules' words;
// they know no row, no count and no place of the memory. Holding, MidEvent and AtRest stay clauses: they hold by turns within one event.
#![tactic(auto)]

pub mod dispatch;
pub mod interrupt;
pub mod moves;
pub mod tick;
