// Functions for the programs of bench/, which time the engine in one memory. They only measure: a contract here says no more than its
// function needs to be proved safe and to end. What a step does is promised where the step stands.
#![tactic(auto)]

ghost use Rattle.std.specs.Prelude.{◌≡◌, true, ◌<◌, ◌≤◌, length};
ghost use Rattle.rules.specs.Numbers.{small};
ghost use Rattle.store.specs.Store.{limits};
ghost use Rattle.handling.specs.Standing.{AtRest};
ghost use Rattle.checking.specs.Stands.{stands};
ghost use Rattle.memory.specs.Layout.{size};

use batching::batch;
use checking::check;
use dumping::writing;
use fields::cuts;
use lending::{WORDS, start};
use loading::load;
use rules::Verdict;
use rules::numbers::Limits;
use stepping::step;

// The words that tables of 64 threads and 128 blocks need.
const BIG_WORDS: usize = 1968;

// A dump has at most so many bytes.
const LONGEST: usize = 1241;

// Where the field at `at` ends: a tag byte, a length of two bytes, the value. One that is cut off ends with the bytes.
fn field_end(s: &[u8], at: usize) -> usize
    requires { at < length s.now }
    ensures { (at < result) × (result ≤ length s.now) }
{
    cuts::cut_at(s, at).end
}

// Every field of s, on a memory that stands: how many are accepted.
fn run_in(m: &mut [u32], s: &[u8]) -> u64
    requires { AtRest m.old }
    ensures { AtRest m.new × (limits m.new ≡ limits m.old) }
{
    let mut accepted: u64 = 0;
    let mut at = 0;
    while at < s.len() {
        let end = field_end(s, at);
        if step::step(m, &s[at..end]).refusal == 0 {
            accepted += 1;
        }
        at = end;
    }
    accepted
}

// The same with the check at each event. The two loops are two: the step of the first asks that the tables stand, which a closure of one
// loop could promise only by a law of its own, longer than this loop.
fn run_lent(m: &mut [u32], s: &[u8]) -> u64 {
    let mut accepted: u64 = 0;
    let mut at = 0;
    while at < s.len() {
        let end = field_end(s, at);
        if lending::step::step_in(m, &s[at..end]).refusal == 0 {
            accepted += 1;
        }
        at = end;
    }
    accepted
}

// How many events of s are accepted, from a start, by the step in a memory.
#[unsafe(no_mangle)]
pub extern "C" fn gauge_step(s: &[u8]) -> u64 {
    let mut m = [0; WORDS];
    start::start_in(&mut m);
    run_in(&mut m, s)
}

// The same at other limits: 64 threads and 128 blocks. No public step has them.
#[unsafe(no_mangle)]
pub extern "C" fn gauge_big(s: &[u8]) -> u64 {
    let mut m = [0; BIG_WORDS];
    stepping::start::start(
        &mut m,
        Limits {
            threads: 64,
            blocks: 128,
        },
    );
    run_in(&mut m, s)
}

// The same with the check at each event.
#[unsafe(no_mangle)]
pub extern "C" fn gauge_lent(s: &[u8]) -> u64 {
    let mut m = [0; WORDS];
    start::start_in(&mut m);
    run_lent(&mut m, s)
}

// This loop and those of `writes` and `reads` are three: of one loop's closure a law would have to say that what its call asks of memory and
// buffer holds again at each turn, and the law would be longer than the loops.
// How often, of 1,000 times, a memory passes the check. The beats change, so that no check can be left out.
fn passes(m: &mut [u32]) -> u64 {
    let mut passed: u64 = 0;
    for i in 0..1000u32 {
        if m.len() > 6 {
            m[6] = i;
        }
        if check::check(m) {
            passed += 1;
        }
    }
    passed
}

// How often the memory that s leaves passes the check by itself.
#[unsafe(no_mangle)]
pub extern "C" fn gauge_check(s: &[u8]) -> u64 {
    let mut m = [0; WORDS];
    start::start_in(&mut m);
    run_in(&mut m, s);
    passes(&mut m)
}

// How often, of 1,000 times, the dump of a memory is written.
fn writes(m: &[u32], out: &mut [u8]) -> u64
    requires { (stands small m.now ≡ true) × (1241 ≤ length out.old) }
{
    let mut written: u64 = 0;
    for _ in 0..1000u32 {
        if 0 < writing::write_dump(m, out) {
            written += 1;
        }
    }
    written
}

// How often the dump of the memory that s leaves is written.
#[unsafe(no_mangle)]
pub extern "C" fn gauge_dump(s: &[u8]) -> u64 {
    let mut m = [0; WORDS];
    start::start_in(&mut m);
    run_in(&mut m, s);
    let mut out = [0; LONGEST];
    writes(&m, &mut out)
}

// How often, of 1,000 times, the bytes are read as a dump.
fn reads(m: &mut [u32], bytes: &[u8]) -> u64
    requires { size small ≤ length m.old }
{
    let mut good: u64 = 0;
    for _ in 0..1000u32 {
        if load::load_in(m, bytes).refusal == 0 {
            good += 1;
        }
    }
    good
}

// How often these bytes are read as a dump into one memory.
#[unsafe(no_mangle)]
pub extern "C" fn gauge_load(bytes: &[u8]) -> u64 {
    let mut m = [0; WORDS];
    reads(&mut m, bytes)
}

// What reading these bytes answers, the last of so many times, and once at least.
fn answers(m: &mut [u32], bytes: &[u8], times: u64) -> Verdict
    requires { size small ≤ length m.old }
{
    let mut v = load::load_in(m, bytes);
    for _ in 1..times {
        v = load::load_in(m, bytes);
    }
    v
}

#[unsafe(no_mangle)]
pub extern "C" fn gauge_verdict(bytes: &[u8], times: u64) -> Verdict {
    let mut m = [0; WORDS];
    answers(&mut m, bytes, times)
}

// Reads the bytes, and writes what was read into the buffer: the length, or 0 where they are no dump or the buffer is too short.
#[unsafe(no_mangle)]
pub extern "C" fn gauge_again(bytes: &[u8], out: &mut [u8]) -> usize {
    if out.len() < LONGEST {
        return 0;
    }
    let mut m = [0; WORDS];
    let v = load::load_in(&mut m, bytes);
    if v.refusal != 0 {
        return 0;
    }
    writing::write_dump(&m, out)
}

// A start in a lent memory, if it is long enough.
#[unsafe(no_mangle)]
pub extern "C" fn gauge_start(m: &mut [u32]) {
    if m.len() < WORDS {
        return;
    }
    start::start_in(m);
}

// One step on a lent memory: its refusal. For the stack that it takes.
#[unsafe(no_mangle)]
pub extern "C" fn gauge_slice(m: &mut [u32], event: &[u8]) -> u8 {
    lending::step::step_in(m, event).refusal
}

// A batch on a lent memory: its refusal.
#[unsafe(no_mangle)]
pub extern "C" fn gauge_batch(m: &mut [u32], events: &[u8], out: &mut [u32]) -> u8 {
    let mut refusal = 0;
    batch::batch(m, events, out, &mut refusal);
    refusal
}

// One step by value, from a start: its refusal. For the stack that it takes.
#[unsafe(no_mangle)]
pub extern "C" fn gauge_value(event: &[u8]) -> u8 {
    let t = start::start_value();
    lending::step::step_value(t, event).decision.refusal
}
