// The nine requests to the service interface.
ghost use Rattle.std.specs.Prelude.{◌≡◌, true, false, ◌+◌, ◌-◌, ◌%◌, ◌<◌, length};
ghost use Rattle.rules.specs.Numbers.{names, devices};
ghost use Rattle.rules.specs.Tables.{live, new_thread as new_thread_of};
ghost use Rattle.rules.specs.Refusals.{ends_nobody};
ghost use Rattle.rules.specs.Requests.{free_name, next_name as next_name_of, create as create_of, create_brother as create_brother_of};
ghost use Rattle.rules.specs.Requests.{create_son as create_son_of, terminate as terminate_of, set_manager as set_manager_of};
ghost use Rattle.rules.specs.Requests.{get_cpu_time as get_cpu_time_of, wait_for_clock as wait_for_clock_of, wait_for_io as wait_for_io_of};
ghost use Rattle.store.specs.Store.{limits, tables, Holding, Hands};
ghost use Rattle.handling.specs.Standing.{MidEvent, AtRest};

use crate::ending;
use handling::moves;
use rules::{Answer, Manager, Managers, Parent, State, Target, Thread, TrapKind, numbers};
use store;

// The next name modulo 254.
fn successor(name: u8) -> u8
    ensures { result ≡ (name + 1) % names }
{
    let next = (u16::from(name) + 1) % u16::from(numbers::NAMES);
    next as u8
}

// The first name behind `last`, up to 253, that no thread has, or 0 where all of them are in use: so the rules' free_name has it, which goes
// on from there, and 0 may be free. The threads stand by rising name: the
// walk begins at the first one that is not below, and each that has the name moves it on. It ends before a higher name, or behind the
// last thread.
fn free_behind(m: &[u32], last: u8) -> u8
    requires { Holding m.now }
    ensures { result ≡ free_name (names - (last + 1) % names) last (tables m.now) }
{
    let mut name = successor(last);
    let first = store::place_of(m, name);
    for i in first..store::thread_count(m) {
        if store::name_at(m, i) != name {
            return name;
        }
        name = successor(name);
    }
    name
}

// The first name behind the one given last that no thread has. Behind 253 the walk comes round, once.
fn next_name(m: &[u32]) -> u8
    requires { Holding m.now }
    ensures { result ≡ next_name_of (tables m.now) }
{
    let name = free_behind(m, store::last(m));
    if name == 0 {
        free_behind(m, numbers::NAMES - 1)
    } else {
        name
    }
}

// A thread with no managers and count 0.
pub fn new_thread(name: u8, p: Parent, s: State) -> Thread
    ensures { result ≡ new_thread_of name p s }
{
    Thread {
        name,
        parent: p,
        state: s,
        managers: Managers {
            program: Manager::Unset,
            tlb: Manager::Unset,
            sysbp: Manager::Unset,
        },
        ticks: 0,
        answer: Answer::Nothing,
    }
}

// A newcomer, ready at the tail. The result is its name.
fn create(m: &mut [u32], p: Parent) -> Answer
    requires { MidEvent m.old × ((limits m.old).threads < names) × (length (tables m.old).threads < (limits m.old).threads) }
    ensures { Hands m.old m.new result (create_of p (tables m.old)) }
{
    let name = next_name(m);
    store::add_thread(m, new_thread(name, p, State::Ready));
    store::join_ready(m, name);
    store::set_last(m, name);
    Answer::Result(u32::from(name))
}

pub fn create_brother(m: &mut [u32], me: u8) -> Answer
    requires { MidEvent m.old × ((limits m.old).threads < names) × (length (tables m.old).threads < (limits m.old).threads) }
    ensures { Hands m.old m.new result (create_brother_of me (tables m.old)) }
{
    create(m, store::parent_of(m, me))
}

pub fn create_son(m: &mut [u32], me: u8) -> Answer
    requires { MidEvent m.old × ((limits m.old).threads < names) × (length (tables m.old).threads < (limits m.old).threads) }
    ensures { Hands m.old m.new result (create_son_of me (tables m.old)) }
{
    create(m, Some(me))
}

pub fn terminate(m: &mut [u32], me: u8, who: Target) -> Answer
    requires { MidEvent m.old × (live me (tables m.old) ≡ true) × (ends_nobody (tables m.old) who ≡ false) }
    ensures { Hands m.old m.new result (terminate_of me who (tables m.old)) }
{
    match who {
        Target::Oneself => ending::end(m, me),
        Target::Named(n) => ending::end(m, n),
    }
    Answer::Nothing
}

// An entry that is not set yet is set; else the requester ends.
pub fn set_manager(m: &mut [u32], me: u8, k: TrapKind, n: u8) -> Answer
    requires { MidEvent m.old × (live me (tables m.old) ≡ true) }
    ensures { Hands m.old m.new result (set_manager_of me k n (tables m.old)) }
{
    if let Manager::Unset = store::manager_of(m, me, k) {
        store::set_manager(m, me, k, Manager::Set(n));
        return Answer::Result(0);
    }
    ending::end(m, me);
    Answer::Nothing
}

pub fn get_cpu_time(m: &[u32], me: u8) -> Answer
    requires { Holding m.now }
    ensures { result ≡ (get_cpu_time_of me (tables m.now)).answer }
{
    Answer::Result(store::ticks_of(m, me))
}

pub fn wait_for_clock(m: &mut [u32], me: u8) -> Answer
    requires { Holding m.old × (length (tables m.old).clock < (limits m.old).threads) }
    ensures { Hands m.old m.new result (wait_for_clock_of me (tables m.old)) }
{
    moves::stop(m, me, State::Clock);
    store::join_clock(m, me);
    Answer::Nothing
}

// A held word is taken at once and cleared, or the requester waits for the device.
pub fn wait_for_io(m: &mut [u32], me: u8, d: u8) -> Answer
    requires { AtRest m.old × (d < devices) }
    ensures { Hands m.old m.new result (wait_for_io_of me d (tables m.old)) }
{
    if let Some(word) = store::word_held(m, d) {
        store::clear_held(m, d);
        return Answer::Result(word);
    }
    moves::stop(m, me, State::Device(d));
    Answer::Nothing
}
