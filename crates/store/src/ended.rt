// The ended set, and the tables without it.
ghost use Rattle.std.specs.Prelude.{◌≡◌, ◌+◌, ◌<◌, ◌≤◌, not, ◌&&◌, [], ◌∷◌, length};
ghost use Rattle.rules.specs.Lists.{has, count as count_of};
ghost use Rattle.rules.specs.Ending.{depends, grow as grow_of, remove as remove_of, misses, release as release_of};
ghost use Rattle.store.specs.Store.{limits, tables, Holding, Leaves, found, Finding, Finds, Removes, Marks};

use memory::memory as rows;
use moving::members::{self, NameMarks};
use moving::without;
use rules::Runner;

// The set is one name alone.
pub fn begin_ended(m: &mut [u32], marks: &mut NameMarks, name: u8)
    requires { Holding m.old × (0 < (limits m.old).threads) × Marks [] marks.old }
    ensures { Finds m.old m.new (name ∷ []) × Marks (found m.new) marks.new }
{
    members::begin(m, marks, name);
}

// How many are in the set.
pub fn ended_count(m: &[u32]) -> usize
    requires { Finding m.now }
    ensures { result ≡ length (found m.now) }
{
    rows::ends(m)
}

// A round: those join that depend on who was in the set when it began.
pub fn grow_ended(m: &mut [u32], marks: &mut NameMarks)
    requires { Finding m.old
        × (length (found m.old) + count_of (λ t. depends (found m.old) t && not (has t.name (found m.old)))
        (tables m.old).threads ≤ (limits m.old).threads) × Marks (found m.old) marks.old }
    ensures { Finds m.old m.new (grow_of (tables m.old).threads (found m.old))
        × Marks (found m.new) marks.new }
{
    members::grow(m, marks);
}

// The tables without the set.
pub fn remove_ended(m: &mut [u32], marks: &NameMarks)
    requires { Finding m.old × Marks (found m.old) marks.now }
    ensures { Removes m.old m.new (remove_of (found m.old) (tables m.old)) }
{
    without::threads(m, marks);
    without::ready(m, marks);
    without::clock(m, marks);
    without::messages(m, marks);
    let r = rows::runner(m);
    match r {
        Runner::NoRunner => {}
        Runner::Runs(name, _) => {
            if members::is_member(m, marks, name) {
                rows::set_runner(m, Runner::NoRunner);
            }
        }
    }
}

// Those that receive from one of the set become ready, by rising name, told that the sender is gone.
pub fn release_ended(m: &mut [u32], marks: &NameMarks)
    requires { Finding m.old
        × (length (tables m.old).ready + count_of (λ t. misses (found m.old) t.state) (tables m.old).threads ≤ (limits
        m.old).threads) × Marks (found m.old) marks.now }
    ensures { Leaves m.old m.new (release_of (found m.old) (tables m.old)) }
{
    without::receivers(m, marks);
}
