// Ending: the ended set, and the tables without it.
ghost use Rattle.std.specs.Prelude.{◌≡◌, true, not, [], ◌+◌, ◌≤◌, length};
ghost use Rattle.rules.specs.Lists.{has, count as count_of, times};
ghost use Rattle.rules.specs.Tables.{live};
ghost use Rattle.rules.specs.Ending.{grow as grow_of, ended_set as ended_set_of, end as end_of};
ghost use Rattle.store.specs.Store.{limits, tables, found, Finding, Finds, Marks, Leaves};
ghost use Rattle.handling.specs.Standing.{MidEvent};

use store::{self, NameMarks};

// The set closed under dependants: as long as a round adds somebody, another follows.
// Threads not yet in the set are fewer with each round.
fn close(m: &mut [u32], marks: &mut NameMarks)
    requires { Finding m.old
        × (length (found m.old) + count_of (λ t. not (has t.name (found m.old))) (tables m.old).threads ≤ (limits m.old).threads)
        × Marks (found m.old) marks.old }
    ensures { Finds m.old m.new
        (times (count_of (λ t. not (has t.name (found m.old))) (tables m.old).threads)
        (grow_of (tables m.old).threads) (found m.old)) × Marks (found m.new) marks.new }
{
    let before = store::ended_count(m);
    store::grow_ended(m, marks);
    if store::ended_count(m) == before {
        return;
    }
    close(m, marks);
}

// The smallest set that holds a live thread and, with each member, its children and those trapped on it.
fn ended_set(m: &mut [u32], marks: &mut NameMarks, name: u8)
    requires { MidEvent m.old × (live name (tables m.old) ≡ true) × Marks [] marks.old }
    ensures { Finds m.old m.new (ended_set_of (tables m.old).threads name)
        × Marks (found m.new) marks.new }
{
    store::begin_ended(m, marks, name);
    close(m, marks);
}

pub fn end(m: &mut [u32], name: u8)
    requires { MidEvent m.old × (live name (tables m.old) ≡ true) }
    ensures { Leaves m.old m.new (end_of name (tables m.old)) }
{
    let mut marks = NameMarks::none();
    ended_set(m, &mut marks, name);
    store::remove_ended(m, &marks);
    store::release_ended(m, &marks);
}
