// What the words of a record say, and back: the words that are written.
#![tactic(auto, unfolding(crate::specs::Saying::state_in, crate::specs::Saying::answer_in, crate::specs::Saying::thread_in, crate::specs::Saying::message_in, crate::specs::Saying::runner_in))]

ghost use Rattle.std.specs.Prelude.{◌≡◌, ◌≤◌, length};
ghost use Rattle.rules.specs.Tables.{in_state};
ghost use Rattle.rules.specs.declared.State.TheVariants.{Trapped as TrappedBy};
ghost use Rattle.words.specs.Saying.{byte as byte_of, parent_in, manager_in, wanted_in, trapped_in, state_in, answer_in, sender_in};
ghost use Rattle.words.specs.Saying.{kind_in, thread_in, message_in, runner_in};

use rules::{
    Answer, Manager, Managers, Message, MessageKind, Parent, Runner, State, Thread, TrapKind,
    Wanted, numbers,
};

// The first word that is no byte: "no name" where a name can stand, and what is added to the sender of a notice.
pub(crate) const PAST_BYTES: u32 = 256;

// "Gone" among managers.
const GONE: u32 = 257;

// The words of states.
pub(crate) const RUNNING: u32 = 0;

pub(crate) const READY: u32 = 1;

pub(crate) const RECEIVING: u32 = 2;

pub(crate) const CLOCK: u32 = 3;

pub(crate) const DEVICE: u32 = 4;

pub(crate) const TRAPPED: u32 = 5;

// The words of answers.
const NOTHING: u32 = 0;

const FROM_MESSAGE: u32 = 1;

const FROM_NOTICE: u32 = 2;

const SENDER_GONE: u32 = 3;

const RESULT: u32 = 4;

// ---- words to what they say. No `From`: a word is a u32 and what it says is of crates/rules, so neither type is this crate's.

pub fn byte(w: u32) -> u8
    ensures { result ≡ byte_of w }
{
    u8::try_from(w).unwrap_or(numbers::NOBODY)
}

pub fn parent_from(w: u32) -> Parent
    ensures { result ≡ parent_in w }
{
    match w {
        PAST_BYTES => None,
        _ => Some(byte(w)),
    }
}

pub fn manager_from(w: u32) -> Manager
    ensures { result ≡ manager_in w }
{
    match w {
        PAST_BYTES => Manager::Unset,
        GONE => Manager::Gone,
        _ => Manager::Set(byte(w)),
    }
}

fn wanted_from(w: u32) -> Wanted
    ensures { result ≡ wanted_in w }
{
    match w {
        PAST_BYTES => Wanted::Anybody,
        _ => Wanted::Only(byte(w)),
    }
}

// No device has this number: a state that no table rule allows. No None: the rules read such words so (state_in).
const WRONG_STATE: State = State::Device(numbers::NOBODY);

fn trapped_from(d: u32) -> State
    ensures { result ≡ trapped_in d }
{
    match d {
        0 => State::Trapped(TrapKind::Program),
        1 => State::Trapped(TrapKind::Tlb),
        2 => State::Trapped(TrapKind::SysBp),
        _ => WRONG_STATE,
    }
}

pub fn state_from(w: u32, d: u32) -> State
    ensures { result ≡ state_in w d }
{
    match (w, d) {
        (RUNNING, 0) => State::Running,
        (READY, 0) => State::Ready,
        (RECEIVING, _) => State::Receiving(wanted_from(d)),
        (CLOCK, 0) => State::Clock,
        (DEVICE, _) => State::Device(byte(d)),
        (TRAPPED, _) => trapped_from(d),
        _ => WRONG_STATE,
    }
}

// No answer has this sender: one that no table rule allows. No None: the rules read such words so (answer_in).
const WRONG_ANSWER: Answer = Answer::FromMessage(numbers::NOBODY, 0);

pub fn answer_from(k: u32, s: u32, w: u32) -> Answer
    ensures { result ≡ answer_in k s w }
{
    match (k, s, w) {
        (NOTHING, 0, 0) => Answer::Nothing,
        (FROM_MESSAGE, _, _) => Answer::FromMessage(byte(s), w),
        (FROM_NOTICE, _, _) => Answer::FromNotice(byte(s), w),
        (SENDER_GONE, _, 0) => Answer::SenderGone(byte(s)),
        (RESULT, 0, _) => Answer::Result(w),
        _ => WRONG_ANSWER,
    }
}

pub fn sender_from(w: u32) -> u8
    ensures { result ≡ sender_in w }
{
    match u8::try_from(w) {
        Ok(n) => n,
        Err(_) => byte(w - PAST_BYTES),
    }
}

pub fn kind_from(w: u32) -> MessageKind
    ensures { result ≡ kind_in w }
{
    if w < PAST_BYTES {
        MessageKind::Ordinary
    } else {
        MessageKind::Notice
    }
}

pub fn runner_from(n: u32, s: u32) -> Runner
    ensures { result ≡ runner_in n s }
{
    match (n, s) {
        (PAST_BYTES, 0) => Runner::NoRunner,
        _ => Runner::Runs(byte(n), byte(s)),
    }
}

// The eleven words are a part of a lent memory: a slice of it has no array's type, so their number is a clause here.
pub fn read_thread(w: &[u32]) -> Thread
    requires { 11 ≤ length w.now }
    ensures { result ≡ thread_in w.now }
{
    Thread {
        name: byte(w[0]),
        parent: parent_from(w[1]),
        state: state_from(w[2], w[3]),
        managers: Managers {
            program: manager_from(w[4]),
            tlb: manager_from(w[5]),
            sysbp: manager_from(w[6]),
        },
        ticks: w[7],
        answer: answer_from(w[8], w[9], w[10]),
    }
}

pub fn read_message(w: &[u32]) -> Message
    requires { 3 ≤ length w.now }
    ensures { result ≡ message_in w.now }
{
    Message {
        to: byte(w[0]),
        from: sender_from(w[1]),
        kind: kind_from(w[1]),
        word: w[2],
    }
}

// ---- and back: words that say it. No `From` for the same reason.

fn parent_word(p: Parent) -> u32
    ensures { parent_in result ≡ p }
{
    match p {
        None => PAST_BYTES,
        Some(n) => u32::from(n),
    }
}

pub fn manager_word(m: Manager) -> u32
    ensures { manager_in result ≡ m }
{
    match m {
        Manager::Unset => PAST_BYTES,
        Manager::Set(n) => u32::from(n),
        Manager::Gone => GONE,
    }
}

fn wanted_word(w: Wanted) -> u32
    ensures { wanted_in result ≡ w }
{
    match w {
        Wanted::Anybody => PAST_BYTES,
        Wanted::Only(n) => u32::from(n),
    }
}

fn trap_word(k: TrapKind) -> u32
    ensures { trapped_in result ≡ TrappedBy k }
{
    match k {
        TrapKind::Program => 0,
        TrapKind::Tlb => 1,
        TrapKind::SysBp => 2,
    }
}

// The state's number and its detail.
fn state_words(s: State) -> (u32, u32)
    ensures { state_in result.0 result.1 ≡ s }
{
    match s {
        State::Running => (RUNNING, 0),
        State::Ready => (READY, 0),
        State::Receiving(w) => (RECEIVING, wanted_word(w)),
        State::Clock => (CLOCK, 0),
        State::Device(d) => (DEVICE, u32::from(d)),
        State::Trapped(k) => (TRAPPED, trap_word(k)),
    }
}

// The answer's kind, sender and word.
fn answer_words(a: Answer) -> (u32, u32, u32)
    ensures { answer_in result.0 result.1 result.2 ≡ a }
{
    match a {
        Answer::Nothing => (NOTHING, 0, 0),
        Answer::FromMessage(n, w) => (FROM_MESSAGE, u32::from(n), w),
        Answer::FromNotice(n, w) => (FROM_NOTICE, u32::from(n), w),
        Answer::SenderGone(n) => (SENDER_GONE, u32::from(n), 0),
        Answer::Result(w) => (RESULT, 0, w),
    }
}

// A sender with the kind of its message.
fn sender_word(k: MessageKind, from: u8) -> u32
    ensures { (sender_in result ≡ from) × (kind_in result ≡ k) }
{
    match k {
        MessageKind::Ordinary => u32::from(from),
        MessageKind::Notice => u32::from(from) + PAST_BYTES,
    }
}

// The runner's name and what is left of its slice.
pub fn runner_words(r: Runner) -> (u32, u32)
    ensures { runner_in result.0 result.1 ≡ r }
{
    match r {
        Runner::NoRunner => (PAST_BYTES, 0),
        Runner::Runs(n, s) => (u32::from(n), u32::from(s)),
    }
}

pub fn write_thread(w: &mut [u32], t: Thread)
    requires { length w.old ≡ 11 }
    ensures { thread_in w.new ≡ t }
{
    let (state, detail) = state_words(t.state);
    let (kind, sender, word) = answer_words(t.answer);
    let words = [
        u32::from(t.name),
        parent_word(t.parent),
        state,
        detail,
        manager_word(t.managers.program),
        manager_word(t.managers.tlb),
        manager_word(t.managers.sysbp),
        t.ticks,
        kind,
        sender,
        word,
    ];
    w.copy_from_slice(&words);
}

// The words of a thread in another state, with another answer.
pub fn turn_thread(w: &mut [u32], s: State, a: Answer)
    requires { length w.old ≡ 11 }
    ensures { thread_in w.new ≡ in_state s a (thread_in w.old) }
{
    let (state, detail) = state_words(s);
    let (kind, sender, word) = answer_words(a);
    w[2] = state;
    w[3] = detail;
    w[8] = kind;
    w[9] = sender;
    w[10] = word;
}

pub fn write_message(w: &mut [u32], m: Message)
    requires { length w.old ≡ 3 }
    ensures { message_in w.new ≡ m }
{
    w.copy_from_slice(&[u32::from(m.to), sender_word(m.kind, m.from), m.word]);
}
