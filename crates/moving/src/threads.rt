// The threads, by rising name.
ghost use Rattle.std.specs.Prelude.{◌≡◌, true, not, List, ◌∷◌, ◌++◌, map, ◌<◌, ◌≤◌, ltb, get_or, take, drop, position, if◌then◌else◌};
ghost use Rattle.rules.specs.Lists.{any, count as count_of};
ghost use Rattle.rules.specs.Tables.{named, in_state};
ghost use Rattle.laws.specs.Types.{Rising};
ghost use Rattle.rules.specs.States.{on_clock, waits_for, wakes_from_outside};
ghost use Rattle.rules.specs.declared.State.TheVariants.{Ready as ReadyState};
ghost use Rattle.rules.specs.declared.Answer.TheVariants.{Result as ResultIs};
ghost use Rattle.memory.specs.Rows.{view, Roomy, ThreadsAre, ThreadsLeft, place, no_thread};
ghost use Rattle.memory.specs.Memory.{rows_of};

use crate::row::{self, ThreadRow};
use memory::{memory as rows, records};
use rules::{Answer, State, Thread};

// Where the thread of a name stands. It is looked for first where the hint says.
pub fn find(m: &[u32], name: u8) -> Option<usize>
    requires { Roomy (rows_of m.now) × ((rows_of m.now).count ≤ (rows_of m.now).limits.threads)
        × (count_of (named name) (view (rows_of m.now)).threads ≤ 1) }
    ensures { result ≡ position (named name) (view (rows_of m.now)).threads }
{
    let hint = rows::place_hint(m, name);
    if hint < rows::count(m) && name == records::record(m, hint).name() {
        return Some(hint);
    }
    records::threads(m).position(|t| name == t.name())
}

// The clock waiters become ready with the number of the beat.
pub fn wake_clock(m: &mut [u32], beats: u32)
    requires { Roomy (rows_of m.old) × ((rows_of m.old).count ≤ (rows_of m.old).limits.threads) }
    ensures { ThreadsAre (rows_of m.old) (rows_of m.new)
        (map (λ t. if on_clock t.state then in_state ReadyState (ResultIs beats) t else t)
        (view (rows_of m.old)).threads) }
{
    for i in 0..rows::count(m) {
        if !records::record(m, i).on_clock() {
            continue;
        }
        rows::turn(m, i, State::Ready, Answer::Result(beats));
    }
}

// Where the thread stands that waits for a device.
pub fn find_waiter(m: &[u32], d: u8) -> Option<usize>
    requires { Roomy (rows_of m.now) × ((rows_of m.now).count ≤ (rows_of m.now).limits.threads) }
    ensures { result ≡ position (waits_for d) (view (rows_of m.now)).threads }
{
    records::threads(m).position(|t| t.waits_for(d))
}

// Does some thread wait for clock or device? It is looked for first where one last began to wait.
pub fn some_wakes(m: &[u32]) -> bool
    requires { Roomy (rows_of m.now) × ((rows_of m.now).count ≤ (rows_of m.now).limits.threads) }
    ensures { result ≡ any (λ t. wakes_from_outside t.state) (view (rows_of m.now)).threads }
{
    let hint = rows::waiter_hint(m);
    if hint < rows::count(m) && records::record(m, hint).wakes() {
        return true;
    }
    records::threads(m).any(|t| t.wakes())
}

// The place of a name: where the first thread stands whose name is not below it. The names rise, so each look halves what is left.
pub fn find_place(m: &[u32], name: u8) -> usize
    requires { Roomy (rows_of m.now) × ((rows_of m.now).count ≤ (rows_of m.now).limits.threads)
        × Rising (view (rows_of m.now)).threads }
    ensures { result ≡ place (λ t. not (ltb t.name name)) (view (rows_of m.now)).threads }
{
    // A loop of its own: the library's partition_point is on slices, and the names stand apart, one in each record.
    let mut low = 0;
    let mut high = rows::count(m);
    while low < high {
        let middle = low + (high - low) / 2;
        if records::record(m, middle).name() < name {
            low = middle + 1;
        } else {
            high = middle;
        }
    }
    low
}

// A thread comes in at a place: each from there on goes one further.
pub fn open_gap(m: &mut [u32], at: usize, t: Thread)
    requires { Roomy (rows_of m.old) × (at ≤ (rows_of m.old).count) × ((rows_of m.old).count < (rows_of m.old).limits.threads) }
    ensures { ThreadsLeft (rows_of m.old) (rows_of m.new) (take at (view (rows_of m.old)).threads
        ++ t ∷ drop at (view (rows_of m.old)).threads) }
{
    row::open_gap::<ThreadRow>(m, at, t);
}
