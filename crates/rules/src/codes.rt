// The document's numbers for statuses, states, managers, parents, runners, kinds and answers, and back.
#![tactic(auto, unfolding(crate::specs::Tables::me, crate::specs::Codes::status_code, crate::specs::Codes::manager_code, crate::specs::Codes::trap_code, crate::specs::Codes::message_code, crate::specs::Codes::state_numbers, crate::specs::Codes::answer_numbers))]

ghost use Rattle.std.specs.Prelude.{◌≡◌};
ghost use Rattle.rules.specs.Codes.{status_code, slice_code, parent_code as parent_code_of, manager_code, trap_code, message_code};
ghost use Rattle.rules.specs.Codes.{state_numbers, answer_numbers};
ghost use Rattle.rules.specs.Numbers.{nobody};
ghost use Rattle.rules.specs.Words.{by_wanted};
ghost use Rattle.rules.specs.Tables.{me};
ghost use Rattle.rules.specs.Events.{wanted};
ghost use Rattle.rules.specs.Tags.{target};
ghost use Rattle.rules.specs.Load.{parent_from as parent_for, manager_from, trap_kind_from, message_kind_from, state_from, answer_from};

use crate::{
    Answer, Manager, MessageKind, Parent, Runner, State, Status, Target, TrapKind, Wanted, numbers,
};

// ---- numbers to what they stand for. A parent is an Option of a number, and the From between these is the library's: so it has functions.

pub fn parent_from(n: u8) -> Parent
    ensures { result ≡ parent_for n }
{
    (n != numbers::NOBODY).then_some(n)
}

impl From<u8> for Manager {
    ghost from_gives = { λ n m. m ≡ manager_from n };

    fn from(n: u8) -> Manager {
        match n {
            numbers::NOBODY => Manager::Unset,
            numbers::SERVICE => Manager::Gone,
            _ => Manager::Set(n),
        }
    }
}

impl From<u8> for TrapKind {
    ghost from_gives = { λ n k. k ≡ trap_kind_from n };

    fn from(n: u8) -> TrapKind {
        match n {
            0 => TrapKind::Program,
            1 => TrapKind::Tlb,
            _ => TrapKind::SysBp,
        }
    }
}

impl From<u8> for Target {
    ghost from_gives = { λ n t. t ≡ target n };

    fn from(n: u8) -> Target {
        match n {
            numbers::NOBODY => Target::Oneself,
            _ => Target::Named(n),
        }
    }
}

impl From<u8> for Wanted {
    ghost from_gives = { λ n w. w ≡ wanted n };

    fn from(n: u8) -> Wanted {
        match n {
            numbers::NOBODY => Wanted::Anybody,
            _ => Wanted::Only(n),
        }
    }
}

impl From<u8> for MessageKind {
    ghost from_gives = { λ n k. k ≡ message_kind_from n };

    fn from(n: u8) -> MessageKind {
        match n {
            1 => MessageKind::Ordinary,
            _ => MessageKind::Notice,
        }
    }
}

// ---- and back

impl From<Status> for u8 {
    ghost from_gives = { λ s n. n ≡ status_code s };

    fn from(s: Status) -> u8 {
        match s {
            Status::Running => 0,
            Status::Idle => 1,
            Status::Halted => 2,
            Status::Panicked => 3,
        }
    }
}

pub fn parent_code(p: Parent) -> u8
    ensures { result ≡ parent_code_of p }
{
    p.unwrap_or(numbers::NOBODY)
}

impl From<Manager> for u8 {
    ghost from_gives = { λ m n. n ≡ manager_code m };

    fn from(m: Manager) -> u8 {
        match m {
            Manager::Unset => numbers::NOBODY,
            Manager::Set(n) => n,
            Manager::Gone => numbers::SERVICE,
        }
    }
}

impl From<TrapKind> for u8 {
    ghost from_gives = { λ k n. n ≡ trap_code k };

    fn from(k: TrapKind) -> u8 {
        match k {
            TrapKind::Program => 0,
            TrapKind::Tlb => 1,
            TrapKind::SysBp => 2,
        }
    }
}

impl From<Wanted> for u8 {
    ghost from_gives = { λ w n. n ≡ by_wanted nobody (λ m. m) w };

    fn from(w: Wanted) -> u8 {
        match w {
            Wanted::Anybody => numbers::NOBODY,
            Wanted::Only(n) => n,
        }
    }
}

impl From<MessageKind> for u8 {
    ghost from_gives = { λ k n. n ≡ message_code k };

    fn from(k: MessageKind) -> u8 {
        match k {
            MessageKind::Ordinary => 1,
            MessageKind::Notice => 2,
        }
    }
}

// ---- what takes several numbers, from them and back

impl State {
    pub fn from_numbers(n: u8, detail: u8) -> State
        ensures { result ≡ state_from n detail }
    {
        match n {
            0 => State::Running,
            1 => State::Ready,
            2 => State::Receiving(Wanted::from(detail)),
            3 => State::Clock,
            4 => State::Device(detail),
            _ => State::Trapped(TrapKind::from(detail)),
        }
    }

    pub fn number(self) -> u8
        ensures { result ≡ (state_numbers self).state }
    {
        match self {
            State::Running => 0,
            State::Ready => 1,
            State::Receiving(_) => 2,
            State::Clock => 3,
            State::Device(_) => 4,
            State::Trapped(_) => 5,
        }
    }

    pub fn detail(self) -> u8
        ensures { result ≡ (state_numbers self).detail }
    {
        match self {
            State::Receiving(w) => u8::from(w),
            State::Device(d) => d,
            State::Trapped(k) => u8::from(k),
            _ => 0,
        }
    }
}

impl Answer {
    pub fn from_numbers(kind: u8, sender: u8, word: u32) -> Answer
        ensures { result ≡ answer_from kind sender word }
    {
        match kind {
            0 => Answer::Nothing,
            1 => Answer::FromMessage(sender, word),
            2 => Answer::FromNotice(sender, word),
            3 => Answer::SenderGone(sender),
            _ => Answer::Result(word),
        }
    }

    pub fn kind(self) -> u8
        ensures { result ≡ (answer_numbers self).kind }
    {
        match self {
            Answer::Nothing => 0,
            Answer::FromMessage(_, _) => 1,
            Answer::FromNotice(_, _) => 2,
            Answer::SenderGone(_) => 3,
            Answer::Result(_) => 4,
        }
    }

    pub fn sender(self) -> u8
        ensures { result ≡ (answer_numbers self).sender }
    {
        match self {
            Answer::Nothing => numbers::NOBODY,
            Answer::FromMessage(n, _) | Answer::FromNotice(n, _) | Answer::SenderGone(n) => n,
            Answer::Result(_) => numbers::SERVICE,
        }
    }

    pub fn word(self) -> u32
        ensures { result ≡ (answer_numbers self).word }
    {
        match self {
            Answer::FromMessage(_, w) | Answer::FromNotice(_, w) | Answer::Result(w) => w,
            Answer::Nothing | Answer::SenderGone(_) => 0,
        }
    }
}

impl Runner {
    // The runner's name, or 255.
    pub fn name(self) -> u8
        ensures { result ≡ me self }
    {
        match self {
            Runner::NoRunner => numbers::NOBODY,
            Runner::Runs(name, _) => name,
        }
    }

    // What is left of the runner's slice; 0 with no runner.
    pub fn slice(self) -> u8
        ensures { result ≡ slice_code self }
    {
        match self {
            Runner::NoRunner => 0,
            Runner::Runs(_, slice) => slice,
        }
    }
}
