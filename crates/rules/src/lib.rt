// The vocabulary of document 01, as types. The rules in specs/ speak of lists of these very types.
// The document's numbers for the cases stand in specs/Codes.antt.
#![tactic(auto)]

pub mod codes;
pub mod numbers;
pub mod pick;
pub mod refusal;
pub mod tags;

// Whom a thread receives from. No Option: None would read as nobody where the document says anybody.
#[derive(Clone, Copy, PartialEq, Eq)]
pub enum Wanted {
    Anybody,
    Only(u8),
}

// The kinds of trap, 0 to 2.
#[derive(Clone, Copy, PartialEq, Eq)]
pub enum TrapKind {
    Program,
    Tlb,
    SysBp,
}

#[derive(Clone, Copy, PartialEq, Eq)]
pub enum State {
    Running,
    Ready,
    Receiving(Wanted),
    Clock,
    Device(u8),
    Trapped(TrapKind),
}

// What is handed to a thread when it runs: a sender and a word, as far as the kind has them.
#[derive(Clone, Copy, PartialEq, Eq)]
pub enum Answer {
    Nothing,
    FromMessage(u8, u32),
    FromNotice(u8, u32),
    SenderGone(u8),
    Result(u32),
}

// One of a thread's three manager entries. No Option: it is one of three.
#[derive(Clone, Copy, PartialEq, Eq)]
pub enum Manager {
    Unset,
    Set(u8),
    Gone,
}

#[derive(Clone, Copy)]
pub struct Managers {
    pub program: Manager,
    pub tlb: Manager,
    pub sysbp: Manager,
}

// A thread's parent, where it has one.
pub type Parent = Option<u8>;

#[derive(Clone, Copy)]
pub struct Thread {
    pub name: u8,
    pub parent: Parent,
    pub state: State,
    pub managers: Managers,
    pub ticks: u32,
    pub answer: Answer,
}

#[derive(Clone, Copy, PartialEq, Eq)]
pub enum MessageKind {
    Ordinary,
    Notice,
}

#[derive(Clone, Copy)]
pub struct Message {
    pub to: u8,
    pub from: u8,
    pub kind: MessageKind,
    pub word: u32,
}

// A status word that came when nobody waited for its device.
#[repr(C)]
#[derive(Clone, Copy)]
pub struct Held {
    pub device: u8,
    pub word: u32,
}

// Who runs, with what is left of its slice. No Option of a pair: the laws and claims speak of `Runs n s` and `NoRunner`.
#[derive(Clone, Copy, PartialEq, Eq)]
pub enum Runner {
    NoRunner,
    Runs(u8, u8),
}

#[derive(Clone, Copy, PartialEq, Eq)]
pub enum Status {
    Running,
    Idle,
    Halted,
    Panicked,
}

// Whom request 3 ends. No Option: None would read as nobody where the document says oneself.
#[derive(Clone, Copy, PartialEq, Eq)]
pub enum Target {
    Oneself,
    Named(u8),
}

// What a runner asks for: tags 16 to 19.
#[derive(Clone, Copy, PartialEq, Eq)]
pub enum Call {
    Send(u8, u32),
    Receive(Wanted),
    CreateBrother,
    CreateSon,
    Terminate(Target),
    SetManager(TrapKind, u8),
    GetCpuTime,
    WaitForClock,
    WaitForIo(u8),
    Trap(TrapKind, u32),
}

// What the bytes of one field mean. An interrupt has the picked device and its status word.
#[derive(Clone, Copy, PartialEq, Eq)]
pub enum Event {
    Malformed,
    ByRunner(Call),
    Tick,
    Interrupt(u8, u32),
}

// What a step answers. The status and the runner are the document's numbers, since refusal 11 gives 255 for both, and the refusal is
// one too: the laws and claims speak of decisions by these numbers.
#[derive(Clone, Copy)]
pub struct Decision {
    pub refusal: u8,
    pub status: u8,
    pub runner: u8,
    pub answer: Answer,
}

// What the pick answers: no Option of a device, since it is laid out as in C, for nucleus_pick.
#[repr(C)]
#[derive(Clone, Copy)]
pub struct Picked {
    pub refusal: u8,
    pub device: u8,
}

// What the table of tags says of a tag: how long its value is, and whether it needs a runner.
#[derive(Clone, Copy)]
pub struct EventField {
    pub length: u16,
    pub runner: bool,
}

// What the table of a dump's fields says of a tag: where the field stands, its length where that is fixed, and whether it stands
// exactly once.
#[derive(Clone, Copy)]
pub struct DumpField {
    pub place: u8,
    pub length: Option<u8>,
    pub once: bool,
}

// What reading a dump answers: the refusal, and the offset of the field at fault. No Result: it is laid out as in C, for the entry of
// crates/board.
#[repr(C)]
#[derive(Clone, Copy)]
pub struct Verdict {
    pub refusal: u8,
    pub offset: usize,
}

// What a service's argument must be.
#[derive(Clone, Copy, PartialEq, Eq)]
pub enum Argument {
    NoService,
    Zero,
    AnyName,
    ADevice,
}
