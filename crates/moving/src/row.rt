// What is done alike in each row of the memory: a row counts its entries, and moves them as they stand.
ghost use Rattle.std.specs.Prelude.{◌≡◌, Bool, not, List, ℕ, [], ◌∷◌, ◌++◌, ◌+◌, ◌<◌, ◌≤◌, length, get_or, set, take, drop};
ghost use Rattle.rules.specs.Lists.{keep};
ghost use Rattle.memory.specs.Rows.{Roomy};
ghost use Rattle.memory.specs.Memory.{rows_of};
ghost use Rattle.moving.specs.Row.{Row as RowOf, RowIs, entries};

use memory::{memory as rows, records};
use rules::{Message, Thread};

pub trait Row {
    type Entry;

    ghost row: { RowOf Self.Entry };

    fn count(m: &[u32]) -> usize
        requires { Roomy (rows_of m.now) }
        ensures counts { result ≡ row.count (rows_of m.now) }
        ensures long { length (row.of (rows_of m.now)) ≡ row.limit (rows_of m.now).limits }
        ensures small { row.limit (rows_of m.now).limits < 4294967296 };

    fn set_count(m: &mut [u32], n: usize)
        requires { Roomy (rows_of m.old) × (n < 4294967296) }
        ensures { rows_of m.new ≡ row.put_count n (rows_of m.old) };

    fn entry(m: &[u32], i: usize) -> Self::Entry
        requires { Roomy (rows_of m.now) × (i < row.limit (rows_of m.now).limits) }
        ensures { result ≡ get_or (row.of (rows_of m.now)) i row.none };

    fn put(m: &mut [u32], i: usize, x: Self::Entry)
        requires { Roomy (rows_of m.old) × (i < row.limit (rows_of m.old).limits) }
        ensures { rows_of m.new ≡ row.put (set (row.of (rows_of m.old)) i x) (rows_of m.old) };

    // The entry at one place is written at another.
    fn shift(m: &mut [u32], from: usize, to: usize)
        requires { Roomy (rows_of m.old) × (from < row.limit (rows_of m.old).limits) × (to < row.limit (rows_of m.old).limits) }
        ensures { rows_of m.new ≡ row.put
            (set (row.of (rows_of m.old)) to (get_or (row.of (rows_of m.old)) from row.none)) (rows_of m.old) };
}

pub struct ThreadRow;

impl Row for ThreadRow {
    ghost use Rattle.moving.specs.Row.{the_threads};

    type Entry = Thread;

    ghost row = { the_threads };

    fn count(m: &[u32]) -> usize {
        rows::count(m)
    }

    fn set_count(m: &mut [u32], n: usize) {
        rows::set_count(m, n);
    }

    fn entry(m: &[u32], i: usize) -> Thread {
        records::record(m, i).thread()
    }

    fn put(m: &mut [u32], i: usize, x: Thread) {
        rows::put_thread(m, i, x);
    }

    fn shift(m: &mut [u32], from: usize, to: usize) {
        rows::move_thread(m, from, to);
    }
}

pub struct ReadyRow;

impl Row for ReadyRow {
    ghost use Rattle.moving.specs.Row.{the_ready};

    type Entry = u8;

    ghost row = { the_ready };

    fn count(m: &[u32]) -> usize {
        rows::readies(m)
    }

    fn set_count(m: &mut [u32], n: usize) {
        rows::set_readies(m, n);
    }

    fn entry(m: &[u32], i: usize) -> u8 {
        rows::ready_at(m, i)
    }

    fn put(m: &mut [u32], i: usize, x: u8) {
        rows::put_ready(m, i, x);
    }

    fn shift(m: &mut [u32], from: usize, to: usize) {
        rows::move_ready(m, from, to);
    }
}

pub struct ClockRow;

impl Row for ClockRow {
    ghost use Rattle.moving.specs.Row.{the_clock};

    type Entry = u8;

    ghost row = { the_clock };

    fn count(m: &[u32]) -> usize {
        rows::clocks(m)
    }

    fn set_count(m: &mut [u32], n: usize) {
        rows::set_clocks(m, n);
    }

    fn entry(m: &[u32], i: usize) -> u8 {
        rows::clock_at(m, i)
    }

    fn put(m: &mut [u32], i: usize, x: u8) {
        rows::put_clock(m, i, x);
    }

    fn shift(m: &mut [u32], from: usize, to: usize) {
        rows::move_clock(m, from, to);
    }
}

pub struct MessageRow;

impl Row for MessageRow {
    ghost use Rattle.moving.specs.Row.{the_messages};

    type Entry = Message;

    ghost row = { the_messages };

    fn count(m: &[u32]) -> usize {
        rows::letters(m)
    }

    fn set_count(m: &mut [u32], n: usize) {
        rows::set_letters(m, n);
    }

    fn entry(m: &[u32], i: usize) -> Message {
        records::letter(m, i).message()
    }

    fn put(m: &mut [u32], i: usize, x: Message) {
        rows::put_message(m, i, x);
    }

    fn shift(m: &mut [u32], from: usize, to: usize) {
        rows::move_message(m, from, to);
    }
}

// The entry at a place goes.
pub fn close_gap<R: Row>(m: &mut [u32], at: usize)
    requires { Roomy (rows_of m.old) × (at < R.Row.row.count (rows_of m.old))
        × (R.Row.row.count (rows_of m.old) ≤ R.Row.row.limit (rows_of m.old).limits) }
    ensures { RowIs R.Row.row (rows_of m.old) (rows_of m.new)
        (take at (entries R.Row.row (rows_of m.old)) ++ drop (at + 1) (entries R.Row.row (rows_of m.old))) }
{
    let last = R::count(m) - 1;
    for i in at..last {
        R::shift(m, i + 1, i);
    }
    R::set_count(m, last);
}

// An entry comes behind all.
pub fn join<R: Row>(m: &mut [u32], x: R::Entry)
    requires { Roomy (rows_of m.old) × (R.Row.row.count (rows_of m.old) < R.Row.row.limit (rows_of m.old).limits) }
    ensures { RowIs R.Row.row (rows_of m.old) (rows_of m.new) (entries R.Row.row (rows_of m.old) ++ (x ∷ [])) }
{
    let n = R::count(m);
    R::put(m, n, x);
    R::set_count(m, n + 1);
}

// Those that a test finds go, and what is left moves up, in order.
pub fn sift<R: Row, F: Fn(R::Entry) -> bool>(m: &mut [u32], goes: F)
    requires { Roomy (rows_of m.old) × (R.Row.row.count (rows_of m.old) ≤ R.Row.row.limit (rows_of m.old).limits)
        × F.IsAlwaysCallable goes }
    ensures { (q : _ → Bool) → ((x : _) (b : Bool) → F.post goes x b → b ≡ q x) →
        RowIs R.Row.row (rows_of m.old) (rows_of m.new) (keep (λ x. not (q x)) (entries R.Row.row (rows_of m.old))) }
{
    let n = R::count(m);
    let mut k = 0;
    for i in 0..n {
        if goes(R::entry(m, i)) {
            continue;
        }
        R::shift(m, i, k);
        k += 1;
    }
    R::set_count(m, k);
}

// An entry comes in at a place: each from there on goes one further.
pub fn open_gap<R: Row>(m: &mut [u32], at: usize, x: R::Entry)
    requires { Roomy (rows_of m.old) × (at ≤ R.Row.row.count (rows_of m.old))
        × (R.Row.row.count (rows_of m.old) < R.Row.row.limit (rows_of m.old).limits) }
    ensures { RowIs R.Row.row (rows_of m.old) (rows_of m.new)
        (take at (entries R.Row.row (rows_of m.old)) ++ x ∷ drop at (entries R.Row.row (rows_of m.old))) }
{
    let n = R::count(m);
    for i in (at..n).rev() {
        R::shift(m, i, i + 1);
    }
    R::put(m, at, x);
    R::set_count(m, n + 1);
}
