// The entries of the memory as they stand: a thread, a message, a name of a queue, and all of them one after another. What is asked of an
// entry is read from its words; the rest of it is not made.
ghost use Rattle.std.specs.Prelude.{◌≡◌, List, ℕ, ◌+◌, ◌*◌, ◌≤◌, ◌<◌, get_or, length};
ghost use Rattle.rules.specs.Tables.{manager as manager_of};
ghost use Rattle.rules.specs.States.{on_clock, waits_for, wakes_from_outside, receives, awaits};
ghost use Rattle.laws.specs.Words.{Thread as ThreadIs, Message as MessageIs};
ghost use Rattle.words.specs.Saying.{thread_in, message_in};
ghost use Rattle.memory.specs.Rows.{view, Roomy, no_thread, no_message};
ghost use Rattle.memory.specs.Memory.{rows_of};
ghost use Rattle.memory.specs.Records.{entries, thread_first, message_first, name_first};

use crate::memory::{
    CLOCK, CLOCKS, COUNT, LETTERS, LIMIT, MESSAGE, READIES, READY, RECORD, THREADS, manager_word,
};
use rules::{Answer, Manager, Message, MessageKind, Parent, State, Thread, TrapKind};
use std::marker::Model;
use words::{looks, saying};

// The first word of a thread, and of a message.
const NAME: usize = 0;

const TO: usize = 0;

// ---- a thread

// A thread, as the words of its record tell it.
#[derive(Drop)]
pub struct ThreadWords<'a> {
    words: &'a [u32],
}

impl<'a> Model for ThreadWords<'a> {
    ghost Value = { ThreadIs };

    ghost view = { λ r. thread_in r.words.now };

    ghost invariant = { λ r. length r.words.now ≡ 11 };
}

#[tactic(auto, unfolding(words::specs::Saying::thread_in, rules::specs::Tables::manager))]
impl<'a> ThreadWords<'a> {
    #[inline(always)]
    pub fn name(&self) -> u8
        ensures { result ≡ self.now.name }
    {
        saying::byte(self.words[NAME])
    }

    #[inline(always)]
    pub fn parent(&self) -> Parent
        ensures { result ≡ self.now.parent }
    {
        saying::parent_from(self.words[1])
    }

    #[inline(always)]
    pub fn state(&self) -> State
        ensures { result ≡ self.now.state }
    {
        saying::state_from(self.words[2], self.words[3])
    }

    #[inline(always)]
    pub fn manager(&self, k: TrapKind) -> Manager
        ensures { result ≡ manager_of k self.now.managers }
    {
        saying::manager_from(self.words[manager_word(k)])
    }

    #[inline(always)]
    pub fn ticks(&self) -> u32
        ensures { result ≡ self.now.ticks }
    {
        self.words[7]
    }

    #[inline(always)]
    pub fn answer(&self) -> Answer
        ensures { result ≡ self.now.answer }
    {
        saying::answer_from(self.words[8], self.words[9], self.words[10])
    }

    // The whole thread. It reads eleven words: a loop asks for the field that it wants.
    pub fn thread(&self) -> Thread
        ensures { result ≡ self.now }
    {
        saying::read_thread(self.words)
    }

    // The words as they stand, for a dump.
    #[inline(always)]
    pub fn words(&self) -> &'a [u32]
        ensures { (length result.now ≡ 11) × (thread_in result.now ≡ self.now) }
    {
        &self.words[..11]
    }

    // ---- tests for which its state is not made, so a walk over many is short

    // Does it wait for the clock?
    #[inline(always)]
    pub fn on_clock(&self) -> bool
        ensures { result ≡ on_clock self.now.state }
    {
        looks::on_clock(self.words[2], self.words[3])
    }

    // Does it wait for this device?
    #[inline(always)]
    pub fn waits_for(&self, d: u8) -> bool
        ensures { result ≡ waits_for d self.now }
    {
        looks::at_device(d, self.words[2], self.words[3])
    }

    // Does it wait for clock or device?
    #[inline(always)]
    pub fn wakes(&self) -> bool
        ensures { result ≡ wakes_from_outside self.now.state }
    {
        looks::wakes_from_outside(self.words[2], self.words[3])
    }

    // Would it receive from this sender?
    #[inline(always)]
    pub fn receives(&self, sender: u8) -> bool
        ensures { result ≡ receives sender self.now.state }
    {
        looks::receives(sender, self.words[2], self.words[3])
    }

    // Is it trapped, and n the manager that it waits for?
    #[inline(always)]
    pub fn awaits(&self, n: u8) -> bool
        ensures { result ≡ awaits n self.now }
    {
        looks::awaits(n, self.words)
    }
}

// The thread at a place.
#[tactic(auto, using(crate::proofs::Rowing::row_at), unfolding(crate::specs::Memory::rows_of))]
#[inline(always)]
pub fn record(m: &[u32], i: usize) -> ThreadWords<'_>
    requires { Roomy (rows_of m.now) × (i < (rows_of m.now).limits.threads) }
    ensures { result ≡ get_or (rows_of m.now).threads i no_thread }
{
    let at = THREADS + i * RECORD;
    ThreadWords {
        words: &m[at..at + 11],
    }
}

// The threads one after another, by rising name. How many are left stands beside the words: behind them are those of other rows. Each of the three walks is a type of its own: a model's Value cannot use a trait's members.
#[derive(Drop)]
pub struct ThreadWalk<'a> {
    words: &'a [u32],
    left: usize,
}

impl<'a> Model for ThreadWalk<'a> {
    ghost Value = { List ThreadIs };

    ghost view = { λ s. entries thread_first 16 s.left s.words.now };

    ghost invariant = { λ s. 16 * s.left ≤ length s.words.now };
}

impl<'a> Iterator for ThreadWalk<'a> {
    ghost use Rattle.std.specs.Iterator.{item_count, YieldsFirst};

    type Item = ThreadWords<'a>;

    ghost next_gives = { YieldsFirst (λ s. s) };

    ghost remaining = { item_count (λ s. s) };

    #[tactic(auto, using(crate::proofs::Walks::entries_first, crate::proofs::Walks::entries_none))]
    #[inline(always)]
    fn next(&mut self) -> Option<ThreadWords<'a>> {
        if self.left == 0 {
            return None;
        }
        let words = &self.words[..11];
        self.words = &self.words[RECORD..];
        self.left -= 1;
        Some(ThreadWords { words })
    }
}

#[tactic(auto, using(crate::proofs::Walks::threads_walked), unfolding(crate::specs::Memory::rows_of))]
#[inline(always)]
pub fn threads(m: &[u32]) -> ThreadWalk<'_>
    requires { Roomy (rows_of m.now) × ((rows_of m.now).count ≤ (rows_of m.now).limits.threads) }
    ensures { result ≡ (view (rows_of m.now)).threads }
{
    ThreadWalk {
        words: &m[THREADS..],
        left: m[COUNT] as usize,
    }
}

// ---- a message or notice

// A message, as its words tell it.
#[derive(Drop)]
pub struct MessageWords<'a> {
    words: &'a [u32],
}

impl<'a> Model for MessageWords<'a> {
    ghost Value = { MessageIs };

    ghost view = { λ x. message_in x.words.now };

    ghost invariant = { λ x. length x.words.now ≡ 3 };
}

#[tactic(auto, unfolding(words::specs::Saying::message_in))]
impl<'a> MessageWords<'a> {
    #[inline(always)]
    pub fn to(&self) -> u8
        ensures { result ≡ self.now.to }
    {
        saying::byte(self.words[TO])
    }

    #[inline(always)]
    pub fn from(&self) -> u8
        ensures { result ≡ self.now.from }
    {
        saying::sender_from(self.words[1])
    }

    #[inline(always)]
    pub fn kind(&self) -> MessageKind
        ensures { result ≡ self.now.kind }
    {
        saying::kind_from(self.words[1])
    }

    // The whole message.
    #[inline(always)]
    pub fn message(&self) -> Message
        ensures { result ≡ self.now }
    {
        saying::read_message(self.words)
    }
}

// The message at a place.
#[tactic(auto, using(crate::proofs::Rowing::row_at), unfolding(crate::specs::Memory::rows_of))]
#[inline(always)]
pub fn letter(m: &[u32], i: usize) -> MessageWords<'_>
    requires { Roomy (rows_of m.now) × (i < (rows_of m.now).limits.threads + (rows_of m.now).limits.blocks) }
    ensures { result ≡ get_or (rows_of m.now).messages i no_message }
{
    let at = THREADS + (m[LIMIT] as usize) * RECORD + i * MESSAGE;
    MessageWords {
        words: &m[at..at + 3],
    }
}

// The messages and notices one after another, by rising receiver.
#[derive(Drop)]
pub struct MessageWalk<'a> {
    words: &'a [u32],
    left: usize,
}

impl<'a> Model for MessageWalk<'a> {
    ghost Value = { List MessageIs };

    ghost view = { λ s. entries message_first 4 s.left s.words.now };

    ghost invariant = { λ s. 4 * s.left ≤ length s.words.now };
}

impl<'a> Iterator for MessageWalk<'a> {
    ghost use Rattle.std.specs.Iterator.{item_count, YieldsFirst};

    type Item = MessageWords<'a>;

    ghost next_gives = { YieldsFirst (λ s. s) };

    ghost remaining = { item_count (λ s. s) };

    #[tactic(auto, using(crate::proofs::Walks::entries_first, crate::proofs::Walks::entries_none))]
    #[inline(always)]
    fn next(&mut self) -> Option<MessageWords<'a>> {
        if self.left == 0 {
            return None;
        }
        let words = &self.words[..3];
        self.words = &self.words[MESSAGE..];
        self.left -= 1;
        Some(MessageWords { words })
    }
}

#[tactic(auto, using(crate::proofs::Walks::messages_walked), unfolding(crate::specs::Memory::rows_of))]
#[inline(always)]
pub fn messages(m: &[u32]) -> MessageWalk<'_>
    requires { Roomy (rows_of m.now)
        × ((rows_of m.now).letters ≤ (rows_of m.now).limits.threads + (rows_of m.now).limits.blocks) }
    ensures { result ≡ (view (rows_of m.now)).messages }
{
    let at = THREADS + (m[LIMIT] as usize) * RECORD;
    MessageWalk {
        words: &m[at..],
        left: m[LETTERS] as usize,
    }
}

// ---- names of a queue

// The names of a queue one after another, front first: each stands in a thread's record, where the queue's names stand.
#[derive(Drop)]
pub struct NameWalk<'a> {
    words: &'a [u32],
    left: usize,
    at: usize,
}

impl<'a> Model for NameWalk<'a> {
    ghost Value = { List ℕ };

    ghost view = { λ s. entries (name_first s.at) 16 s.left s.words.now };

    ghost invariant = { λ s. (16 * s.left ≤ length s.words.now) × (s.at < 16) };
}

impl<'a> Iterator for NameWalk<'a> {
    ghost use Rattle.std.specs.Iterator.{item_count, YieldsFirst};

    type Item = u8;

    ghost next_gives = { YieldsFirst (λ s. s) };

    ghost remaining = { item_count (λ s. s) };

    #[tactic(auto, using(crate::proofs::Walks::entries_first, crate::proofs::Walks::entries_none))]
    #[inline(always)]
    fn next(&mut self) -> Option<u8> {
        if self.left == 0 {
            return None;
        }
        let name = saying::byte(self.words[self.at]);
        self.words = &self.words[RECORD..];
        self.left -= 1;
        Some(name)
    }
}

// The ready queue. The two queues are one walk under two names, since the clauses name their parts of the rows.
#[tactic(auto, using(crate::proofs::Walks::ready_walked), unfolding(crate::specs::Memory::rows_of))]
#[inline(always)]
pub fn ready(m: &[u32]) -> NameWalk<'_>
    requires { Roomy (rows_of m.now) × ((rows_of m.now).readies ≤ (rows_of m.now).limits.threads) }
    ensures { result ≡ (view (rows_of m.now)).ready }
{
    NameWalk {
        words: &m[THREADS..],
        left: m[READIES] as usize,
        at: READY,
    }
}

// The clock queue.
#[tactic(auto, using(crate::proofs::Walks::clock_walked), unfolding(crate::specs::Memory::rows_of))]
#[inline(always)]
pub fn clock(m: &[u32]) -> NameWalk<'_>
    requires { Roomy (rows_of m.now) × ((rows_of m.now).clocks ≤ (rows_of m.now).limits.threads) }
    ensures { result ≡ (view (rows_of m.now)).clock }
{
    NameWalk {
        words: &m[THREADS..],
        left: m[CLOCKS] as usize,
        at: CLOCK,
    }
}
