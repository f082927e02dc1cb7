// Threads, by name.
ghost use Rattle.std.specs.Prelude.{None as Parentless, ◌≡◌, ◌<◌, false, not, ltb, length, get_or, nat_lt};
ghost use Rattle.rules.specs.Lists.{any, insert};
ghost use Rattle.std.specs.List.{find};
ghost use Rattle.rules.specs.Tables.{named, of_thread, live, change, in_state, with_ticks, with_threads, with_managers, set_entry};
ghost use Rattle.rules.specs.Tables.{manager as manager_in};
ghost use Rattle.rules.specs.States.{receives, waits_for, wakes_from_outside, awaits};
ghost use Rattle.rules.specs.Tick.{one_more};
ghost use Rattle.rules.specs.Refusals.{no_thread_free};
ghost use Rattle.rules.specs.declared.Answer.TheVariants.{Nothing as NoAnswer};
ghost use Rattle.rules.specs.declared.Manager.TheVariants.{Unset as NoManager};
ghost use Rattle.memory.specs.Rows.{no_thread};
ghost use Rattle.store.specs.Store.{limits, tables, Shaped, Holding, Leaves, place, name_where};

use memory::records::ThreadWords;
use memory::{memory as rows, records};
use moving::threads;
use rules::{Answer, Manager, Parent, State, Thread, TrapKind};
use words::states;

// How many threads there are.
pub fn thread_count(m: &[u32]) -> usize
    requires { Shaped m.now }
    ensures { result ≡ length (tables m.now).threads }
{
    rows::count(m)
}

// The name of the thread at a place of the dump's order.
pub fn name_at(m: &[u32], i: usize) -> u8
    requires { Shaped m.now × (i < length (tables m.now).threads) }
    ensures { result ≡ (get_or (tables m.now).threads i no_thread).name }
{
    records::record(m, i).name()
}

// Where the first thread stands whose name is not below this one, or how many there are: a walk from there ends at once, so no Option.
pub fn place_of(m: &[u32], name: u8) -> usize
    requires { Holding m.now }
    ensures { result ≡ place (λ t. not (nat_lt t.name name)) (tables m.now).threads }
{
    threads::find_place(m, name)
}

// Is no thread block free?
pub fn threads_full(m: &[u32]) -> bool
    requires { Shaped m.now }
    ensures { result ≡ no_thread_free (limits m.now) (tables m.now) }
{
    rows::limit(m) <= rows::count(m)
}

pub fn is_live(m: &[u32], name: u8) -> bool
    requires { Holding m.now }
    ensures { result ≡ live name (tables m.now) }
{
    threads::find(m, name).is_some()
}

// ---- something of the thread of a name; what is said of a name that no thread has is never asked for

// Its record.
fn thread(m: &[u32], name: u8) -> Option<ThreadWords<'_>>
    requires { Holding m.now }
    ensures { result ≡ find (named name) (tables m.now).threads }
{
    let i = threads::find(m, name)?;
    Some(records::record(m, i))
}

// Would it receive from this sender?
pub fn receives_from(m: &[u32], name: u8, sender: u8) -> bool
    requires { Holding m.now }
    ensures { result ≡ of_thread false (λ t. receives sender t.state) name (tables m.now).threads }
{
    thread(m, name).is_some_and(|t| t.receives(sender))
}

// Is it trapped, and n the manager that it waits for?
pub fn trapped_on(m: &[u32], name: u8, n: u8) -> bool
    requires { Holding m.now }
    ensures { result ≡ of_thread false (awaits n) name (tables m.now).threads }
{
    thread(m, name).is_some_and(|t| t.awaits(n))
}

pub fn parent_of(m: &[u32], name: u8) -> Parent
    requires { Holding m.now }
    ensures { result ≡ of_thread Parentless (λ t. t.parent) name (tables m.now).threads }
{
    thread(m, name).map_or(None, |t| t.parent())
}

pub fn manager_of(m: &[u32], name: u8, k: TrapKind) -> Manager
    requires { Holding m.now }
    ensures { result ≡ of_thread NoManager (λ t. manager_in k t.managers) name (tables m.now).threads }
{
    thread(m, name).map_or(Manager::Unset, |t| t.manager(k))
}

pub fn ticks_of(m: &[u32], name: u8) -> u32
    requires { Holding m.now }
    ensures { result ≡ of_thread 0 (λ t. t.ticks) name (tables m.now).threads }
{
    thread(m, name).map_or(0, |t| t.ticks())
}

pub fn answer_of(m: &[u32], name: u8) -> Answer
    requires { Holding m.now }
    ensures { result ≡ of_thread NoAnswer (λ t. t.answer) name (tables m.now).threads }
{
    thread(m, name).map_or(Answer::Nothing, |t| t.answer())
}

// Who waits for a device.
pub fn waiter(m: &[u32], d: u8) -> Option<u8>
    requires { Shaped m.now }
    ensures { result ≡ name_where (waits_for d) (tables m.now).threads }
{
    let i = threads::find_waiter(m, d)?;
    Some(records::record(m, i).name())
}

// Does some thread wait for clock or device?
pub fn some_wakes(m: &[u32]) -> bool
    requires { Shaped m.now }
    ensures { result ≡ any (λ t. wakes_from_outside t.state) (tables m.now).threads }
{
    threads::some_wakes(m)
}

// ---- the thread of a name changed

// In another state, with another answer. Where a thread begins to wait for clock or device is noted, for some_wakes.
pub fn turn(m: &mut [u32], name: u8, s: State, a: Answer)
    requires { Holding m.old }
    ensures { Leaves m.old m.new (change name (in_state s a) (tables m.old)) }
{
    if let Some(i) = threads::find(m, name) {
        rows::turn(m, i, s, a);
        if states::wakes_from_outside(s) {
            rows::hint_waiter(m, i);
        }
    }
}

// Its tick count rises by 1; from 4,294,967,295 it goes to 0.
pub fn add_tick(m: &mut [u32], name: u8)
    requires { Holding m.old }
    ensures { Leaves m.old m.new
        (change name (λ t. with_ticks (one_more t.ticks) t) (tables m.old)) }
{
    if let Some(i) = threads::find(m, name) {
        let n = records::record(m, i).ticks().wrapping_add(1);
        rows::set_ticks(m, i, n);
    }
}

// Its manager entry of a kind.
pub fn set_manager(m: &mut [u32], name: u8, k: TrapKind, g: Manager)
    requires { Holding m.old }
    ensures { Leaves m.old m.new
        (change name (λ t. with_managers (set_entry k g t.managers) t) (tables m.old)) }
{
    if let Some(i) = threads::find(m, name) {
        rows::set_manager(m, i, k, g);
    }
}

// A newcomer, at the place of its name.
pub fn add_thread(m: &mut [u32], t: Thread)
    requires { Holding m.old × (length (tables m.old).threads < (limits m.old).threads)
        × (live t.name (tables m.old) ≡ false) }
    ensures { Leaves m.old m.new
        (with_threads (insert (λ u. ltb u.name t.name) t (tables m.old).threads) (tables m.old)) }
{
    let at = threads::find_place(m, t.name);
    threads::open_gap(m, at, t);
}
