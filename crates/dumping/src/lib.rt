// The dump: a memory's tables as bytes in a lent buffer. Shaped and Dumpable stay clauses, for the reason in crates/store.
#![tactic(auto, unfolding(store::specs::Store::Shaped, store::specs::Store::tables, crate::specs::Shown::state_right, crate::specs::Shown::answer_right, crate::specs::Shown::sender_number))]

mod shown;
pub mod writing;
