// The rows without the members of the ended set: what is left moves up, in order.
ghost use Rattle.std.specs.Prelude.{◌≡◌, not, ℕ, List, take, ◌||◌, ◌++◌, map, ◌+◌, ◌≤◌, if◌then◌else◌};
ghost use Rattle.rules.specs.Lists.{has as has_in, keep, count as count_of};
ghost use Rattle.rules.specs.Tables.{in_state};
ghost use Rattle.rules.specs.Ending.{without_managers, misses as Misses_of, told_gone as told_gone_of};
ghost use Rattle.rules.specs.declared.State.TheVariants.{Ready as ReadyState};
ghost use Rattle.memory.specs.Rows.{view, Roomy, members as members_of, ThreadsLeft, ReadyIs, ClockIs, MessagesAre, Woken};
ghost use Rattle.memory.specs.Memory.{rows_of};
ghost use Rattle.moving.specs.Marks.{Marks};
ghost use Rattle.moving.specs.Row.{RowIs, entries};

use crate::members::{self, NameMarks};
use crate::queues;
use crate::row::{self, ClockRow, MessageRow, ReadyRow, Row};
use memory::{memory as rows, records};
use rules::{Answer, Message, State, Wanted};

// Threads: the members go, and no manager entry names one. A record is changed before it is moved: what is read behind a move waits for
// its stores.
pub fn threads(m: &mut [u32], marks: &NameMarks)
    requires { Roomy (rows_of m.old) × ((rows_of m.old).ends ≤ (rows_of m.old).limits.threads)
        × ((rows_of m.old).count ≤ (rows_of m.old).limits.threads) × Marks (members_of (rows_of m.old)) marks.now }
    ensures { ThreadsLeft (rows_of m.old) (rows_of m.new)
        (map (without_managers (members_of (rows_of m.old)))
        (keep (λ t. not (has_in t.name (members_of (rows_of m.old)))) (view (rows_of m.old)).threads)) }
{
    let mut k = 0;
    for i in 0..rows::count(m) {
        if members::is_member(m, marks, records::record(m, i).name()) {
            continue;
        }
        members::lose_managers(m, marks, i);
        rows::move_thread(m, i, k);
        k += 1;
    }
    rows::set_count(m, k);
}

// The names of a queue.
fn names<R: Row<Entry = u8>>(m: &mut [u32], marks: &NameMarks)
    requires { Roomy (rows_of m.old) × ((rows_of m.old).ends ≤ (rows_of m.old).limits.threads)
        × (R.Row.row.count (rows_of m.old) ≤ R.Row.row.limit (rows_of m.old).limits) × Marks (members_of (rows_of m.old)) marks.now }
    ensures { RowIs R.Row.row (rows_of m.old) (rows_of m.new)
        (keep (λ x. not (has_in x (members_of (rows_of m.old)))) (entries R.Row.row (rows_of m.old))) }
{
    let n = rows::ends(m);
    let goes = |x: u8| -> bool
        requires { n ≤ 255 }
        ensures { (xs : List ℕ) → Marks xs marks.entry.now → result ≡ has_in x (take n xs) }
    { marks.has(n, x) };
    row::sift::<R, _>(m, goes);
}

// The ready queue.
pub fn ready(m: &mut [u32], marks: &NameMarks)
    requires { Roomy (rows_of m.old) × ((rows_of m.old).ends ≤ (rows_of m.old).limits.threads)
        × ((rows_of m.old).readies ≤ (rows_of m.old).limits.threads) × Marks (members_of (rows_of m.old)) marks.now }
    ensures { ReadyIs (rows_of m.old) (rows_of m.new)
        (keep (λ x. not (has_in x (members_of (rows_of m.old)))) (view (rows_of m.old)).ready) }
{
    names::<ReadyRow>(m, marks);
}

// The clock queue.
pub fn clock(m: &mut [u32], marks: &NameMarks)
    requires { Roomy (rows_of m.old) × ((rows_of m.old).ends ≤ (rows_of m.old).limits.threads)
        × ((rows_of m.old).clocks ≤ (rows_of m.old).limits.threads) × Marks (members_of (rows_of m.old)) marks.now }
    ensures { ClockIs (rows_of m.old) (rows_of m.new)
        (keep (λ x. not (has_in x (members_of (rows_of m.old)))) (view (rows_of m.old)).clock) }
{
    names::<ClockRow>(m, marks);
}

// Messages and notices to or from members.
pub fn messages(m: &mut [u32], marks: &NameMarks)
    requires { Roomy (rows_of m.old) × ((rows_of m.old).ends ≤ (rows_of m.old).limits.threads)
        × ((rows_of m.old).letters ≤ (rows_of m.old).limits.threads + (rows_of m.old).limits.blocks)
        × Marks (members_of (rows_of m.old)) marks.now }
    ensures { MessagesAre (rows_of m.old) (rows_of m.new)
        (keep (λ x. not (has_in x.to (members_of (rows_of m.old))
        || has_in x.from (members_of (rows_of m.old)))) (view (rows_of m.old)).messages) }
{
    let n = rows::ends(m);
    let goes = |x: Message| -> bool
        requires { n ≤ 255 }
        ensures { (xs : List ℕ) → Marks xs marks.entry.now → result ≡ (has_in x.to (take n xs) || has_in x.from (take n xs)) }
    { marks.has(n, x.to) || marks.has(n, x.from) };
    row::sift::<MessageRow, _>(m, goes);
}

#[tactic(auto, unfolding(rules::specs::Ending::told_gone))]
fn told_gone(s: State) -> Answer
    ensures { result ≡ told_gone_of s }
{
    match s {
        State::Receiving(Wanted::Only(n)) => Answer::SenderGone(n),
        _ => Answer::Nothing,
    }
}

// Those that receive from a member become ready, by rising name, told that the sender is gone.
pub fn receivers(m: &mut [u32], marks: &NameMarks)
    requires { Roomy (rows_of m.old) × ((rows_of m.old).ends ≤ (rows_of m.old).limits.threads)
        × ((rows_of m.old).count ≤ (rows_of m.old).limits.threads)
        × ((rows_of m.old).readies + count_of (λ t. Misses_of (members_of (rows_of m.old)) t.state) (view (rows_of m.old)).threads
        ≤ (rows_of m.old).limits.threads) × Marks (members_of (rows_of m.old)) marks.now }
    ensures { Woken (rows_of m.old) (rows_of m.new)
        (map (λ t. if Misses_of (members_of (rows_of m.old)) t.state then in_state ReadyState (told_gone_of t.state) t
        else t) (view (rows_of m.old)).threads) ((view (rows_of m.old)).ready
        ++ map (λ t. t.name) (keep (λ t. Misses_of (members_of (rows_of m.old)) t.state)
        (view (rows_of m.old)).threads)) }
{
    for i in 0..rows::count(m) {
        let t = records::record(m, i);
        let s = t.state();
        if !members::misses(m, marks, s) {
            continue;
        }
        let name = t.name();
        let a = told_gone(s);
        rows::turn(m, i, State::Ready, a);
        queues::join_ready(m, name);
    }
}
