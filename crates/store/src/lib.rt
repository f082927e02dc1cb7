// What handlers use: the memory in the words of the rules. Every name that they need stands here; another store with these names and
// promises would serve the same handlers. Shaped and Holding stay clauses, as Roomy does in crates/memory: they are facts about lent words at
// a call, and while tables are filled in the one holds without the other.
#![tactic(auto, unfolding(crate::specs::Store::tables, crate::specs::Store::limits, crate::specs::Store::Shaped))]

mod ended;
mod filling;
mod head;
mod held;
mod inboxes;
mod queues;
mod threads;

pub use ended::{begin_ended, ended_count, grow_ended, release_ended, remove_ended};
pub use filling::{clear, fill_clock, fill_held, fill_message, fill_ready, fill_thread};
pub use head::{beats, last, runner, set_last, set_runner, set_time, since};
pub use held::{clear_held, hold, word_held};
pub use inboxes::{blocks_full, discard_notice, message_count, queue, take_message};
pub use moving::members::NameMarks;
pub use queues::{
    clock_count, drop_front, join_clock, join_ready, ready_at, ready_count, wake_clock,
};
pub use threads::{
    add_thread, add_tick, answer_of, is_live, manager_of, name_at, parent_of, place_of,
    receives_from, set_manager, some_wakes, thread_count, threads_full, ticks_of, trapped_on, turn,
    waiter,
};
