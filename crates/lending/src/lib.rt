// The public operations on lent tables: a memory of any length and contents gets its answer. Reading a dump in place is
// loading::load::load_in.
#![tactic(auto, unfolding(crate::specs::Lent::check_of, crate::specs::Lent::standing_of, crate::specs::Lent::outcome_of, crate::specs::Lent::dumped, crate::specs::Lent::buffer_after, rules::specs::Refused::refusal_told, rules::specs::Refused::refusal_number))]

pub mod check;
pub mod dump;
pub mod load;
pub mod start;
pub mod step;

use rules::{Decision, Verdict};

// The words that tables of 20 threads and 20 blocks need.
pub const WORDS: usize = loading::load::WORDS;

// The tables as a struct: the same memory. Every bit pattern is a value. The functions by value beside those in place are nucleus.h's:
// C lends this struct (crates/board), and each calls the one in place.
#[repr(C)]
#[derive(Clone, Copy)]
pub struct Tables {
    pub words: [u32; WORDS],
}

// What a step on lent tables leaves.
#[derive(Clone, Copy)]
pub struct NextTables {
    pub tables: Tables,
    pub decision: Decision,
}

// What writing a dump answers: the refusal, and the dump's length. It is no Result: nucleus_dump hands it to C as it is laid out.
#[repr(C)]
#[derive(Clone, Copy)]
pub struct Dumped {
    pub refusal: u8,
    pub length: usize,
}

// What reading a dump into lent tables leaves.
#[derive(Clone, Copy)]
pub struct Loaded {
    pub tables: Tables,
    pub verdict: Verdict,
}
