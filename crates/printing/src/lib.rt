// One turn of the event program, and the window over its input.
#![tactic(auto)]

pub mod turn;
pub mod window;

// What a turn leaves, beside the tables: the number of the next line, how many bytes were used, and how many are to be written.
#[derive(Clone, Copy)]
pub struct Turned {
    pub line: u64,
    pub used: usize,
    pub filled: usize,
}

// What the last read told of the input.
#[derive(Clone, Copy, PartialEq, Eq)]
pub enum Reading {
    Open,
    Ended,
    Failed,
}

// The bytes of a buffer from `at` up to `held` wait to be served, and so stands the input behind them.
// The contracts ask that `at` is at most `held`. A ghost field would have to be proved in specs/ too (tried: `heard` is refused there), and
// stream's `after_turn` makes a window of any turn, also of one that used more than waited.
#[derive(Clone, Copy)]
pub struct Span {
    pub at: usize,
    pub held: usize,
    pub reading: Reading,
}
