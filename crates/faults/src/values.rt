// The values of fields, read from their bytes. What a number stands for is not tested here: ranges.rt does that of a dump that is
// refused, and of one that is accepted the comparison with the writer.
ghost use Rattle.std.specs.Prelude.{◌≡◌, ◌+◌, ◌≤◌, length};
ghost use Rattle.rules.specs.Tags.{thread_size, message_size, held_size};
ghost use Rattle.rules.specs.Load.{runner_from, word_at as word_of, thread_from, message_from, held_from};

use rules::{
    Answer, Held, Manager, Managers, Message, MessageKind, Runner, State, Thread, codes, numbers,
};

// A big-endian number of four bytes. crates/stepping has the same for events: neither rests on the other. That a value is long enough stays
// a clause here and below: crates/loading lends slices of a dump.
pub fn word_at(v: &[u8], at: usize) -> u32
    requires { at + 4 ≤ length v.now }
    ensures { result ≡ word_of v.now at }
{
    u32::from_be_bytes([v[at], v[at + 1], v[at + 2], v[at + 3]])
}

// The runner of field 1. No From: it is two numbers.
pub fn runner_from(name: u8, slice: u8) -> Runner
    ensures { result ≡ runner_from name slice }
{
    if name == numbers::NOBODY {
        Runner::NoRunner
    } else {
        Runner::Runs(name, slice)
    }
}

// Field 2.
pub fn read_thread(v: &[u8]) -> Thread
    requires { thread_size ≤ length v.now }
    ensures { result ≡ thread_from v.now }
{
    Thread {
        name: v[0],
        parent: codes::parent_from(v[1]),
        state: State::from_numbers(v[2], v[3]),
        managers: Managers {
            program: Manager::from(v[4]),
            tlb: Manager::from(v[5]),
            sysbp: Manager::from(v[6]),
        },
        ticks: word_at(v, 7),
        answer: Answer::from_numbers(v[11], v[12], word_at(v, 13)),
    }
}

// Field 5.
pub fn read_message(v: &[u8]) -> Message
    requires { message_size ≤ length v.now }
    ensures { result ≡ message_from v.now }
{
    Message {
        to: v[0],
        from: v[1],
        kind: MessageKind::from(v[2]),
        word: word_at(v, 3),
    }
}

// Field 6.
pub fn read_word(v: &[u8]) -> Held
    requires { held_size ≤ length v.now }
    ensures { result ≡ held_from v.now }
{
    Held {
        device: v[0],
        word: word_at(v, 1),
    }
}
