// A batch of events in one call, on lent tables (document 02, CR 2).
#![tactic(auto)]

pub mod batch;
pub mod complete;

use lending::Tables;

// What a batch by value leaves: `used` bytes of the events are read. The refusal stands beside them as a number, since nucleus_batch hands
// on all three, refused or not.
#[derive(Clone, Copy)]
pub struct Batched {
    pub tables: Tables,
    pub used: usize,
    pub refusal: u8,
}
