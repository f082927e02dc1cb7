// Table rules on what has to agree: states with runner and queues, inboxes with receivers, managers with live names, answers with states.
#![tactic(auto)]

pub mod answers;
pub mod inboxes;
pub mod managers;
pub mod places;
