// The memory, entry by entry: each function reads or changes one thing, and all else stands. Only this file knows where things are.
ghost use Rattle.std.specs.Prelude.{◌≡◌, true, not, [], ◌++◌, ◌+◌, ◌≤◌, ◌<◌, ltb, get_or, set, length, take, drop};
ghost use Rattle.rules.specs.Lists.{all, any, keep};
ghost use Rattle.rules.specs.Numbers.{names, devices};
ghost use Rattle.rules.specs.Tables.{in_state, with_ticks, with_managers, set_entry, manager as manager_of};
ghost use Rattle.rules.specs.States.{on_clock, waits_for, wakes_from_outside, receives, awaits};
ghost use Rattle.rules.specs.Interrupt.{held_for, hold as hold_of};
ghost use Rattle.words.specs.Saying.{thread_in};
ghost use Rattle.memory.specs.Layout.{most_blocks, manager_place};
ghost use Rattle.memory.specs.Shape.{shaped as Shaped_of};
ghost use Rattle.memory.specs.Rows.{Room, Roomy, view, nothing, word_for, held_word as held_word_of, no_thread, no_message, put_last, put_runner, put_since};
ghost use Rattle.memory.specs.Rows.{put_beats, put_count, put_readies, put_clocks, put_letters, put_ends, put_threads, put_ready};
ghost use Rattle.memory.specs.Rows.{put_clock, put_messages, put_held, put_ended};
ghost use Rattle.memory.specs.Memory.{part, rows_of};

use rules::numbers::Limits;
use rules::{
    Answer, Manager, Message, MessageKind, Parent, Runner, State, Thread, TrapKind, numbers,
};
use words::{looks, saying};

// Words of the head: limit of threads, limit of blocks, name given last, runner, slice, ticks since the beat, beats; counts of threads,
// ready, clock, messages and an ending's set; a hint.
pub(crate) const LIMIT: usize = 0;

const BLOCKS: usize = 1;

const LAST: usize = 2;

const RUNNER: usize = 3;

const SLICE: usize = 4;

const SINCE: usize = 5;

const BEATS: usize = 6;

pub(crate) const COUNT: usize = 7;

pub(crate) const READIES: usize = 8;

pub(crate) const CLOCKS: usize = 9;

pub(crate) const LETTERS: usize = 10;

const ENDS: usize = 11;

const WAITER: usize = 12;

// Where the parts begin, and how many words an entry has.
const HELD: usize = 16;

const HINTS: usize = 112;

const HINT_COUNT: u8 = 64;

pub(crate) const THREADS: usize = 176;

pub(crate) const RECORD: usize = 16;

pub(crate) const MESSAGE: usize = 4;

// Words of a thread's record behind its eleven own: a place of each queue.
pub(crate) const READY: usize = 12;

pub(crate) const CLOCK: usize = 13;

const ENDED: usize = 14;

// ---- the head. Each word has its own two functions: their clauses name different fields, so one function of a word's number says no more.

// The limit of threads.
pub fn limit(m: &[u32]) -> usize
    requires { Roomy (rows_of m.now) }
    ensures { result ≡ (rows_of m.now).limits.threads }
{
    m[LIMIT] as usize
}

// The limit of ordinary messages.
pub fn blocks(m: &[u32]) -> usize
    requires { Roomy (rows_of m.now) }
    ensures { result ≡ (rows_of m.now).limits.blocks }
{
    m[BLOCKS] as usize
}

// The name given last.
pub fn last(m: &[u32]) -> u8
    requires { Roomy (rows_of m.now) }
    ensures { result ≡ (rows_of m.now).last }
{
    saying::byte(m[LAST])
}

pub fn set_last(m: &mut [u32], name: u8)
    requires { Roomy (rows_of m.old) }
    ensures { rows_of m.new ≡ put_last name (rows_of m.old) }
{
    m[LAST] = name as u32;
}

pub fn runner(m: &[u32]) -> Runner
    requires { Roomy (rows_of m.now) }
    ensures { result ≡ (rows_of m.now).runner }
{
    saying::runner_from(m[RUNNER], m[SLICE])
}

pub fn set_runner(m: &mut [u32], r: Runner)
    requires { Roomy (rows_of m.old) }
    ensures { rows_of m.new ≡ put_runner r (rows_of m.old) }
{
    let (name, slice) = saying::runner_words(r);
    m[RUNNER] = name;
    m[SLICE] = slice;
}

// Ticks since the beat.
pub fn since(m: &[u32]) -> u8
    requires { Roomy (rows_of m.now) }
    ensures { result ≡ (rows_of m.now).since }
{
    saying::byte(m[SINCE])
}

pub fn set_since(m: &mut [u32], n: u8)
    requires { Roomy (rows_of m.old) }
    ensures { rows_of m.new ≡ put_since n (rows_of m.old) }
{
    m[SINCE] = n as u32;
}

pub fn beats(m: &[u32]) -> u32
    requires { Roomy (rows_of m.now) }
    ensures { result ≡ (rows_of m.now).beats }
{
    m[BEATS]
}

pub fn set_beats(m: &mut [u32], n: u32)
    requires { Roomy (rows_of m.old) }
    ensures { rows_of m.new ≡ put_beats n (rows_of m.old) }
{
    m[BEATS] = n;
}

// How many threads there are.
pub fn count(m: &[u32]) -> usize
    requires { Roomy (rows_of m.now) }
    ensures { result ≡ (rows_of m.now).count }
{
    m[COUNT] as usize
}

pub fn set_count(m: &mut [u32], n: usize)
    requires { Roomy (rows_of m.old) × (n < 4294967296) }
    ensures { rows_of m.new ≡ put_count n (rows_of m.old) }
{
    m[COUNT] = n as u32;
}

// How many are ready.
pub fn readies(m: &[u32]) -> usize
    requires { Roomy (rows_of m.now) }
    ensures { result ≡ (rows_of m.now).readies }
{
    m[READIES] as usize
}

pub fn set_readies(m: &mut [u32], n: usize)
    requires { Roomy (rows_of m.old) × (n < 4294967296) }
    ensures { rows_of m.new ≡ put_readies n (rows_of m.old) }
{
    m[READIES] = n as u32;
}

// How many wait for the clock.
pub fn clocks(m: &[u32]) -> usize
    requires { Roomy (rows_of m.now) }
    ensures { result ≡ (rows_of m.now).clocks }
{
    m[CLOCKS] as usize
}

pub fn set_clocks(m: &mut [u32], n: usize)
    requires { Roomy (rows_of m.old) × (n < 4294967296) }
    ensures { rows_of m.new ≡ put_clocks n (rows_of m.old) }
{
    m[CLOCKS] = n as u32;
}

// How many messages and notices there are.
pub fn letters(m: &[u32]) -> usize
    requires { Roomy (rows_of m.now) }
    ensures { result ≡ (rows_of m.now).letters }
{
    m[LETTERS] as usize
}

pub fn set_letters(m: &mut [u32], n: usize)
    requires { Roomy (rows_of m.old) × (n < 4294967296) }
    ensures { rows_of m.new ≡ put_letters n (rows_of m.old) }
{
    m[LETTERS] = n as u32;
}

// How many an ending has found so far.
pub fn ends(m: &[u32]) -> usize
    requires { Roomy (rows_of m.now) }
    ensures { result ≡ (rows_of m.now).ends }
{
    m[ENDS] as usize
}

pub fn set_ends(m: &mut [u32], n: usize)
    requires { Roomy (rows_of m.old) × (n < 4294967296) }
    ensures { rows_of m.new ≡ put_ends n (rows_of m.old) }
{
    m[ENDS] = n as u32;
}

// ---- hints: where to look first. They are no part of the rows: whatever stands in them, a search finds the same.

// Where a thread of that name, or of another with the same last six bits, was last written.
pub fn place_hint(m: &[u32], name: u8) -> usize
    requires { Roomy (rows_of m.now) }
{
    m[HINTS + (name % HINT_COUNT) as usize] as usize
}

fn hint_place(m: &mut [u32], name: u8, i: usize)
    requires { Roomy (rows_of m.old) × (i < 4294967296) }
    ensures { rows_of m.new ≡ rows_of m.old }
{
    m[HINTS + (name % HINT_COUNT) as usize] = i as u32;
}

// Where a thread last began to wait for clock or device.
pub fn waiter_hint(m: &[u32]) -> usize
    requires { Roomy (rows_of m.now) }
{
    m[WAITER] as usize
}

pub fn hint_waiter(m: &mut [u32], i: usize)
    requires { Roomy (rows_of m.old) × (i < 4294967296) }
    ensures { rows_of m.new ≡ rows_of m.old }
{
    m[WAITER] = i as u32;
}

// ---- threads, field by field

// Where the manager entry of a kind stands in a record.
pub(crate) fn manager_word(k: TrapKind) -> usize
    ensures { result ≡ manager_place k }
{
    match k {
        TrapKind::Program => 4,
        TrapKind::Tlb => 5,
        TrapKind::SysBp => 6,
    }
}

// ---- a thread changed

pub fn set_ticks(m: &mut [u32], i: usize, n: u32)
    requires { Roomy (rows_of m.old) × (i < (rows_of m.old).limits.threads) }
    ensures { rows_of m.new ≡ put_threads
        (set (rows_of m.old).threads i (with_ticks n (get_or (rows_of m.old).threads i no_thread)))
        (rows_of m.old) }
{
    m[THREADS + i * RECORD + 7] = n;
}

pub fn set_manager(m: &mut [u32], i: usize, k: TrapKind, g: Manager)
    requires { Roomy (rows_of m.old) × (i < (rows_of m.old).limits.threads) }
    ensures { rows_of m.new ≡ put_threads
        (set (rows_of m.old).threads i
        (with_managers (set_entry k g (get_or (rows_of m.old).threads i no_thread).managers)
        (get_or (rows_of m.old).threads i no_thread))) (rows_of m.old) }
{
    let at = THREADS + i * RECORD + manager_word(k);
    m[at] = saying::manager_word(g);
}

// The thread at a place in another state, with another answer.
pub fn turn(m: &mut [u32], i: usize, s: State, a: Answer)
    requires { Roomy (rows_of m.old) × (i < (rows_of m.old).limits.threads) }
    ensures { rows_of m.new ≡ put_threads
        (set (rows_of m.old).threads i (in_state s a (get_or (rows_of m.old).threads i no_thread)))
        (rows_of m.old) }
{
    let at = THREADS + i * RECORD;
    saying::turn_thread(&mut m[at..at + 11], s, a);
}

pub fn put_thread(m: &mut [u32], i: usize, t: Thread)
    requires { Roomy (rows_of m.old) × (i < (rows_of m.old).limits.threads) }
    ensures { rows_of m.new ≡ put_threads (set (rows_of m.old).threads i (t)) (rows_of m.old) }
{
    let at = THREADS + i * RECORD;
    saying::write_thread(&mut m[at..at + 11], t);
    hint_place(m, t.name, i);
}

// The thread at one place is written at another.
#[inline(always)]
pub fn move_thread(m: &mut [u32], from: usize, to: usize)
    requires { Roomy (rows_of m.old) × (from < (rows_of m.old).limits.threads) × (to < (rows_of m.old).limits.threads) }
    ensures { rows_of m.new ≡ put_threads
        (set (rows_of m.old).threads to (get_or (rows_of m.old).threads from no_thread))
        (rows_of m.old) }
{
    let a = THREADS + from * RECORD;
    let b = THREADS + to * RECORD;
    m.copy_within(a..a + 12, b);
    let name = saying::byte(m[b]);
    hint_place(m, name, to);
}

// ---- queues: places of the ready queue, of the clock queue, and of an ending's set. Each has functions of its own, as the head's words
// have: their clauses name different parts of the rows.

pub fn ready_at(m: &[u32], i: usize) -> u8
    requires { Roomy (rows_of m.now) × (i < (rows_of m.now).limits.threads) }
    ensures { result ≡ get_or (rows_of m.now).ready i 0 }
{
    saying::byte(m[THREADS + i * RECORD + READY])
}

pub fn put_ready(m: &mut [u32], i: usize, name: u8)
    requires { Roomy (rows_of m.old) × (i < (rows_of m.old).limits.threads) }
    ensures { rows_of m.new ≡ put_ready (set (rows_of m.old).ready i name) (rows_of m.old) }
{
    m[THREADS + i * RECORD + READY] = name as u32;
}

// The name at one place of the ready queue is written at another, as the word stands.
pub fn move_ready(m: &mut [u32], from: usize, to: usize)
    requires { Roomy (rows_of m.old) × (from < (rows_of m.old).limits.threads) × (to < (rows_of m.old).limits.threads) }
    ensures { rows_of m.new ≡ put_ready
        (set (rows_of m.old).ready to (get_or (rows_of m.old).ready from 0)) (rows_of m.old) }
{
    m[THREADS + to * RECORD + READY] = m[THREADS + from * RECORD + READY];
}

pub fn clock_at(m: &[u32], i: usize) -> u8
    requires { Roomy (rows_of m.now) × (i < (rows_of m.now).limits.threads) }
    ensures { result ≡ get_or (rows_of m.now).clock i 0 }
{
    saying::byte(m[THREADS + i * RECORD + CLOCK])
}

pub fn put_clock(m: &mut [u32], i: usize, name: u8)
    requires { Roomy (rows_of m.old) × (i < (rows_of m.old).limits.threads) }
    ensures { rows_of m.new ≡ put_clock (set (rows_of m.old).clock i name) (rows_of m.old) }
{
    m[THREADS + i * RECORD + CLOCK] = name as u32;
}

// The name at one place of the clock queue is written at another, as the word stands.
pub fn move_clock(m: &mut [u32], from: usize, to: usize)
    requires { Roomy (rows_of m.old) × (from < (rows_of m.old).limits.threads) × (to < (rows_of m.old).limits.threads) }
    ensures { rows_of m.new ≡ put_clock
        (set (rows_of m.old).clock to (get_or (rows_of m.old).clock from 0)) (rows_of m.old) }
{
    m[THREADS + to * RECORD + CLOCK] = m[THREADS + from * RECORD + CLOCK];
}

pub fn put_ended(m: &mut [u32], i: usize, name: u8)
    requires { Roomy (rows_of m.old) × (i < (rows_of m.old).limits.threads) }
    ensures { rows_of m.new ≡ put_ended (set (rows_of m.old).ended i name) (rows_of m.old) }
{
    m[THREADS + i * RECORD + ENDED] = name as u32;
}

// ---- messages and notices

pub fn message_at(m: &[u32], i: usize) -> Message
    requires { Roomy (rows_of m.now) × (i < (rows_of m.now).limits.threads + (rows_of m.now).limits.blocks) }
    ensures { result ≡ get_or (rows_of m.now).messages i no_message }
{
    let at = THREADS + (m[LIMIT] as usize) * RECORD + i * MESSAGE;
    saying::read_message(&m[at..at + 3])
}

pub fn put_message(m: &mut [u32], i: usize, x: Message)
    requires { Roomy (rows_of m.old) × (i < (rows_of m.old).limits.threads + (rows_of m.old).limits.blocks) }
    ensures { rows_of m.new ≡ put_messages (set (rows_of m.old).messages i x) (rows_of m.old) }
{
    let at = THREADS + (m[LIMIT] as usize) * RECORD + i * MESSAGE;
    saying::write_message(&mut m[at..at + 3], x);
}

// The message at one place is written at another.
#[inline(always)]
pub fn move_message(m: &mut [u32], from: usize, to: usize)
    requires { Roomy (rows_of m.old) × (from < (rows_of m.old).limits.threads + (rows_of m.old).limits.blocks)
        × (to < (rows_of m.old).limits.threads + (rows_of m.old).limits.blocks) }
    ensures { rows_of m.new ≡ put_messages
        (set (rows_of m.old).messages to (get_or (rows_of m.old).messages from no_message))
        (rows_of m.old) }
{
    let base = THREADS + (m[LIMIT] as usize) * RECORD;
    let at = base + from * MESSAGE;
    m.copy_within(at..at + MESSAGE, base + to * MESSAGE);
}

// ---- held words, each at its device's place. A device is a byte of an event or of a dump: that it is below 48 is asked where it is used,
// and no type of its own is on the way from there.

// The word that is held for a device, if one is.
#[inline(always)]
pub fn held(m: &[u32], d: u8) -> Option<u32>
    requires { Roomy (rows_of m.now) × (d < devices) }
    ensures { result ≡ held_word_of d (rows_of m.now).held }
{
    let place = HELD + (d as usize) * 2;
    if m[place] == 1 {
        Some(m[place + 1])
    } else {
        None
    }
}

// A word is held for a device, in place of one held before.
pub fn hold(m: &mut [u32], d: u8, word: u32)
    requires { Roomy (rows_of m.old) × (d < devices) × (all (λ h. ltb h.device devices) (rows_of m.old).held ≡ true) }
    ensures { rows_of m.new ≡ put_held (hold_of d word (rows_of m.old).held) (rows_of m.old) }
{
    let at = HELD + (d as usize) * 2;
    m[at] = 1;
    m[at + 1] = word;
}

pub fn clear_held(m: &mut [u32], d: u8)
    requires { Roomy (rows_of m.old) × (d < devices) × (all (λ h. ltb h.device devices) (rows_of m.old).held ≡ true) }
    ensures { rows_of m.new ≡ put_held (keep (λ h. not (held_for d h)) (rows_of m.old).held)
        (rows_of m.old) }
{
    m[HELD + (d as usize) * 2] = 0;
}

// Is every device's first word 0 or 1? Else a word is held for no device.
pub fn held_told(m: &[u32]) -> bool
    requires { Roomy (rows_of m.now) }
    ensures { result ≡ all (λ h. ltb h.device devices) (rows_of m.now).held }
{
    for d in 0..numbers::HELD {
        if m[HELD + d * 2] > 1 {
            return false;
        }
    }
    true
}

// ---- a memory that holds nothing

fn clear_all_held(m: &mut [u32])
    requires { Roomy (rows_of m.old) }
    ensures { rows_of m.new ≡ put_held [] (rows_of m.old) }
{
    for d in 0..numbers::HELD {
        m[HELD + d * 2] = 0;
    }
}

// Whatever stood there, the memory has these limits and holds nothing.
pub fn clear(m: &mut [u32], l: Limits)
    requires { Room l (length m.old) }
    ensures { (view (rows_of m.new) ≡ nothing)
        × ((rows_of m.new).limits ≡ l) × ((rows_of m.new).count ≡ 0)
        × ((rows_of m.new).readies ≡ 0) × ((rows_of m.new).clocks ≡ 0) × ((rows_of m.new).letters ≡ 0) }
{
    m[LIMIT] = l.threads;
    m[BLOCKS] = l.blocks;
    m[LAST] = 0;
    m[SINCE] = 0;
    m[BEATS] = 0;
    m[COUNT] = 0;
    m[READIES] = 0;
    m[CLOCKS] = 0;
    m[LETTERS] = 0;
    set_runner(m, Runner::NoRunner);
    clear_all_held(m);
}

// ---- a memory of any length and contents

// Is it long enough for these limits, and has it them and counts within them in its head?
#[tactic(auto, unfolding(crate::specs::Shape::shaped, rules::specs::Lists::all))]
pub fn shaped(m: &[u32], l: Limits) -> bool
    requires { (l.threads < names) × (l.blocks ≤ most_blocks) }
    ensures { result ≡ Shaped_of l m.now }
{
    let messages = l.threads + l.blocks;
    let need = THREADS + (l.threads as usize) * RECORD + (messages as usize) * MESSAGE;
    m.len() >= need
        && m[LIMIT] == l.threads
        && m[BLOCKS] == l.blocks
        && m[COUNT] <= l.threads
        && m[READIES] <= l.threads
        && m[CLOCKS] <= l.threads
        && m[LETTERS] <= messages
}
