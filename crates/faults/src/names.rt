// "A name not live where 01 asks for one" (18). A mark for each of the 256 bytes says which names live.
ghost use Rattle.std.specs.Prelude.{◌≡◌, true, false, ◌≤◌, length};
ghost use Rattle.std.specs.List.{list_all};
ghost use Rattle.rules.specs.Words.{by_parent, by_runner};
ghost use Rattle.rules.specs.Tables.{manager as manager_of};
ghost use Rattle.rules.specs.Tags.{head_size, thread_size, message_size};
ghost use Rattle.rules.specs.TableRules.{manager_set as manager_set_of};
ghost use Rattle.rules.specs.Faults.{wrong_length, wanted_lives as wanted_lives_of, entries_live as entries_live_of};
ghost use Rattle.rules.specs.Faults.{entry_lives as entry_lives_of, head_lives as head_lives_of, thread_lives as thread_lives_of};
ghost use Rattle.rules.specs.Faults.{message_lives as message_lives_of, value_lives as value_lives_of, names_nobody as names_nobody_of};
ghost use Rattle.faults.specs.Names.{lives_in, Named};

use crate::placed::{Field, Fields};
use crate::{lengths, values};
use rules::{Manager, Managers, Parent, Runner, State, TrapKind, Wanted, tags};

fn entry(k: TrapKind, g: Managers) -> Manager
    ensures { result ≡ manager_of k g }
{
    match k {
        TrapKind::Program => g.program,
        TrapKind::Tlb => g.tlb,
        TrapKind::SysBp => g.sysbp,
    }
}

// The manager that a trapped thread waits for is set.
fn manager_set(g: Managers, s: State) -> bool
    ensures { result ≡ manager_set_of g s }
{
    match s {
        State::Trapped(k) => matches!(entry(k, g), Manager::Set(_)),
        _ => true,
    }
}

// The names that live: a mark for each number that a byte can have.
#[derive(Drop)]
pub struct Living {
    marks: [bool; 256],
}

impl Living {
    // The names of all fields 2. A value that is not there names 0, as in the rules: such a field has a fault of 15.
    pub fn told(bytes: &[u8]) -> Living
        ensures { Named bytes.now result }
    {
        let mut marks = [false; 256];
        for f in Fields::new(bytes) {
            if f.field.tag() == tags::THREAD {
                let name = f.field.value().first().copied().unwrap_or(0);
                marks[usize::from(name)] = true;
            }
        }
        Living { marks }
    }

    fn lives(&self, n: u8) -> bool
        ensures { result ≡ lives_in self.now n }
    {
        self.marks[usize::from(n)]
    }

    // A test for each type of the rules that can hold a name: each is a `match` of two arms, as their words in the contracts are.
    fn parent_lives(&self, p: Parent) -> bool
        ensures { result ≡ by_parent true (lives_in self.now) p }
    {
        match p {
            None => true,
            Some(n) => self.lives(n),
        }
    }

    fn wanted_lives(&self, s: State) -> bool
        ensures { result ≡ wanted_lives_of (lives_in self.now) s }
    {
        match s {
            State::Receiving(Wanted::Only(n)) => self.lives(n),
            _ => true,
        }
    }

    fn entry_lives(&self, m: Manager) -> bool
        ensures { result ≡ entry_lives_of (lives_in self.now) m }
    {
        match m {
            Manager::Set(n) => self.lives(n),
            _ => true,
        }
    }

    fn entries_live(&self, g: Managers) -> bool
        ensures { result ≡ entries_live_of (lives_in self.now) g }
    {
        self.entry_lives(g.program) && self.entry_lives(g.tlb) && self.entry_lives(g.sysbp)
    }

    fn runner_lives(&self, r: Runner) -> bool
        ensures { result ≡ by_runner true (λ n s. lives_in self.now n) r }
    {
        match r {
            Runner::NoRunner => true,
            Runner::Runs(n, _) => self.lives(n),
        }
    }

    // Field 1.
    fn head_lives(&self, v: &[u8]) -> bool
        requires { head_size ≤ length v.now }
        ensures { result ≡ head_lives_of (lives_in self.now) v.now }
    {
        self.runner_lives(values::runner_from(v[2], v[3]))
    }

    // Field 2, but for what asks for no name.
    fn thread_lives(&self, v: &[u8]) -> bool
        requires { thread_size ≤ length v.now }
        ensures { result ≡ thread_lives_of (lives_in self.now) v.now }
    {
        let t = values::read_thread(v);
        self.parent_lives(t.parent)
            && self.wanted_lives(t.state)
            && self.entries_live(t.managers)
            && manager_set(t.managers, t.state)
    }

    // Fields 3 and 4.
    fn all_live(&self, v: &[u8]) -> bool
        ensures { result ≡ list_all (lives_in self.now) v.now }
    {
        v.iter().all(|n| self.lives(*n))
    }

    // Field 5.
    fn message_lives(&self, v: &[u8]) -> bool
        requires { message_size ≤ length v.now }
        ensures { result ≡ message_lives_of (lives_in self.now) v.now }
    {
        self.lives(v[0]) && self.lives(v[1])
    }

    #[tactic(auto, unfolding(rules::specs::Faults::value_lives), using(crate::proofs::Fits::head_long, crate::proofs::Fits::thread_long, crate::proofs::Fits::message_long, crate::proofs::Alls::all_is))]
    fn value_lives(&self, tag: u8, v: &[u8]) -> bool
        requires { wrong_length (record { tag = tag; value = v.now }) ≡ false }
        ensures { result ≡ value_lives_of (lives_in self.now) tag v.now }
    {
        match tag {
            tags::HEAD => self.head_lives(v),
            tags::THREAD => self.thread_lives(v),
            tags::READY | tags::CLOCK => self.all_live(v),
            tags::MESSAGE => self.message_lives(v),
            _ => true,
        }
    }

    pub fn names_nobody(&self, field: &Field) -> bool
        ensures { result ≡ names_nobody_of (lives_in self.now) field.now }
    {
        !lengths::wrong_length(field) && !self.value_lives(field.tag(), field.value())
    }
}
