// Reading a dump: bytes as tables in a lent memory, or the refusal.
// The place stays beside the bytes: at the end it is compared with their length, and Small beside the memory while it is filled.
#![tactic(auto)]

pub mod load;
mod opening;
mod reading;
