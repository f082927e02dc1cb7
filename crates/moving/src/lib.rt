// Row moves: names join a queue and leave it, an entry is sought, a gap is opened or closed, entries are kept and move up. All in place.
// What the store calls has the name of its row and one line over row.rt, where each move is written once: the clauses speak of one row each.
// Roomy and the bounds of counts stay clauses, for the reason in crates/memory.
#![tactic(auto)]

pub mod members;
pub mod messages;
pub mod queues;
pub mod row;
pub mod threads;
pub mod without;
