// What the words of a record are in a dump, without a value by cases between them: a dump is written often, and nearly all words stand in
// it as they are. A word that would not be written for what it says is shown as what it says.
ghost use Rattle.std.specs.Prelude.{◌≡◌, ◌≤◌, length};
ghost use Rattle.rules.specs.Codes.{manager_code};
ghost use Rattle.rules.specs.Dump.{answer_value};
ghost use Rattle.words.specs.Saying.{manager_in, state_in, answer_in};
ghost use Rattle.buffer.specs.Puts.{Puts};
ghost use Rattle.dumping.specs.Shown.{state_value, state_right as state_right_of, answer_right as answer_right_of};
ghost use Rattle.dumping.specs.Shown.{sender_number as sender_number_of};

use rules::numbers;
use words::saying;

// "Gone" among managers.
const GONE: u32 = 257;

// Numbers, and no enums: a value by cases of a thread's words, and its numbers again, is what this file leaves out (docs/BENCH.md, dump
// written). So it says which numbers are right, and nothing is made of them.
// How many states there are, and the numbers of those that have a detail.
const STATES: u32 = 6;

const RECEIVING: u32 = 2;

const DEVICE: u32 = 4;

const TRAPPED: u32 = 5;

// The numbers of the kinds of answers.
const NOTHING: u32 = 0;

const MESSAGE: u32 = 1;

const NOTICE: u32 = 2;

const SENDER_GONE: u32 = 3;

const RESULT: u32 = 4;

#[tactic(auto, using(crate::proofs::Showing::gone_shown, crate::proofs::Showing::manager_shown))]
pub fn manager_number(w: u32) -> u8
    ensures { result ≡ manager_code (manager_in w) }
{
    if w == GONE {
        numbers::SERVICE
    } else {
        saying::byte(w)
    }
}

// Would these words be written for the state that they say?
fn state_right(s: u32, d: u32) -> bool
    ensures { result ≡ state_right_of s d }
{
    match s {
        RECEIVING | DEVICE => true,
        TRAPPED => d < 3,
        _ => d == 0 && s < STATES,
    }
}

// State and detail. Words that would not be written say device 255.
#[tactic(auto, using(crate::proofs::Showing::state_shown, crate::proofs::Showing::state_else))]
pub fn state_bytes(s: u32, d: u32) -> [u8; 2]
    ensures { result ≡ state_value (state_in s d) }
{
    if state_right(s, d) {
        [saying::byte(s), saying::byte(d)]
    } else {
        [4, numbers::NOBODY]
    }
}

// Would these words be written for the answer that they say?
fn answer_right(k: u32, n: u32, w: u32) -> bool
    ensures { result ≡ answer_right_of k n w }
{
    match k {
        NOTHING => n == 0 && w == 0,
        MESSAGE | NOTICE => true,
        SENDER_GONE => w == 0,
        RESULT => n == 0,
        _ => false,
    }
}

// The sender of an answer whose words are right.
fn sender_number(k: u32, n: u32) -> u8
    ensures { result ≡ sender_number_of k n }
{
    match k {
        NOTHING => numbers::NOBODY,
        RESULT => numbers::SERVICE,
        _ => saying::byte(n),
    }
}

// The answer that waits for a thread: the end of field 2. Words that would not be written say a message of 0 from 255.
pub fn write_answer(k: u32, n: u32, w: u32, out: &mut [u8]) -> usize
    requires { 6 ≤ length out.old }
    ensures { Puts (answer_value (answer_in k n w)) out.old out.new result }
{
    if answer_right(k, n, w) {
        buffer::put_bytes(out, &[saying::byte(k), sender_number(k, n)]);
        buffer::put_word(&mut out[2..], w);
    } else {
        buffer::put_bytes(out, &[1, numbers::NOBODY, 0, 0, 0, 0]);
    }
    6
}
