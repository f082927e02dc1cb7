// The numbers of document 01 and of document 02, each once. specs/Numbers.antt has the same for the rules.
pub const THREADS: usize = 20;

pub const BLOCKS: usize = 20;

// The limits that a start gives a memory.
#[derive(Clone, Copy, PartialEq, Eq)]
pub struct Limits {
    pub threads: u32,
    pub blocks: u32,
}

pub const SMALL: Limits = Limits {
    threads: THREADS as u32,
    blocks: BLOCKS as u32,
};

// What inboxes hold at most: an ordinary message in each block, and a notice of each thread.
pub const MESSAGES: usize = BLOCKS + THREADS;

// Thread names are below this; 254 itself is the service interface.
pub const NAMES: u8 = 254;

pub const SERVICE: u8 = 254;

// Nobody, anybody or oneself, as stated.
pub const NOBODY: u8 = 255;

pub const SLICE: u8 = 5;

pub const BEAT: u8 = 20;

pub const DEVICES: u8 = 48;

// A held word of each device.
pub const HELD: usize = DEVICES as usize;

// The numbers of a decision: refusal, status, runner, kind, sender, word.
pub const DECISION: usize = 6;
