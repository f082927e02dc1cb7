// The ended set: who an ending has found, in the order found. It stands in the threads' records and lasts for one ending. Beside it are
// marks: at each name its first place in the set, or 255, so that a name is looked up in one look.
ghost use Rattle.std.specs.Prelude.{◌≡◌, false, not, ◌&&◌, ◌||◌, List, [], ◌∷◌, ◌++◌, ℕ, ◌+◌, ◌<◌, ◌≤◌, length, get_or, take, set};
ghost use Rattle.rules.specs.Lists.{any, has as has_in, count as count_of};
ghost use Rattle.rules.specs.Words.{by_parent, by_manager};
ghost use Rattle.rules.specs.Tables.{manager, with_managers, set_entry};
ghost use Rattle.rules.specs.States.{awaits};
ghost use Rattle.rules.specs.Ending.{depends as depends_of, grow as grow_of, gone_if, without_managers as without_managers_of};
ghost use Rattle.rules.specs.Ending.{misses as Misses_of};
ghost use Rattle.memory.specs.Rows.{view, Roomy, members as members_of, MembersAre, put_ends, put_ended, put_threads, no_thread};
ghost use Rattle.memory.specs.Rows.{no_message};
ghost use Rattle.memory.specs.Memory.{rows_of};
ghost use Rattle.moving.specs.Marks.{Marks};

use memory::{memory as rows, records};
use rules::{Manager, Parent, State, TrapKind, Wanted};
use std::marker::Model;

// The marks, a byte for each name. 255 and no None stands for no mark: it is behind every place, so a look-up is one compare of bytes.
// They stay beside the memory: they last for one ending, and the memory's words have no room for them. Any bytes can be marks: what is
// asked of them is a clause (Marks).
#[derive(Clone, Copy)]
pub struct NameMarks {
    pub at: [u8; 256],
}

impl Model for NameMarks {
    ghost Value = { List ℕ };

    ghost view = { λ s. s.at };

    ghost inverse = { λ xs. record { at = xs } };
}

impl NameMarks {
    // Nobody is marked.
    #[tactic(auto, using(crate::proofs::Marking::no_marks))]
    pub fn none() -> Self
        ensures { Marks [] result }
    {
        NameMarks { at: [255; 256] }
    }

    // Is the name among the first n of the set?
    pub(crate) fn has(&self, n: usize, name: u8) -> bool
        requires { n ≤ 255 }
        ensures { (xs : List ℕ) → Marks xs self.now → result ≡ has_in name (take n xs) }
    {
        usize::from(self.at[usize::from(name)]) < n
    }

    // A name is marked as the one at place n. A name that is marked stays at its first place.
    fn mark(&mut self, n: usize, name: u8)
        requires { n < 255 }
        ensures { (xs : List ℕ) → length xs ≡ n → Marks xs self.old → Marks (xs ++ (name ∷ [])) self.new }
    {
        if !self.has(255, name) {
            self.at[usize::from(name)] = n as u8;
        }
    }
}

// Is the name in the set?
pub fn is_member(m: &[u32], marks: &NameMarks, name: u8) -> bool
    requires { Roomy (rows_of m.now) × ((rows_of m.now).ends ≤ (rows_of m.now).limits.threads)
        × Marks (members_of (rows_of m.now)) marks.now }
    ensures { result ≡ has_in name (members_of (rows_of m.now)) }
{
    let n = rows::ends(m);
    marks.has(n, name)
}

// The set is one name alone.
pub fn begin(m: &mut [u32], marks: &mut NameMarks, name: u8)
    requires { Roomy (rows_of m.old) × (0 < (rows_of m.old).limits.threads) × Marks [] marks.old }
    ensures { MembersAre (rows_of m.old) (rows_of m.new) (name ∷ []) × Marks (name ∷ []) marks.new }
{
    marks.mark(0, name);
    rows::put_ended(m, 0, name);
    rows::set_ends(m, 1);
}

// A name joins the set.
fn add(m: &mut [u32], marks: &mut NameMarks, name: u8)
    requires { Roomy (rows_of m.old) × ((rows_of m.old).ends < (rows_of m.old).limits.threads)
        × Marks (members_of (rows_of m.old)) marks.old }
    ensures { (rows_of m.new ≡ put_ends ((rows_of m.old).ends + 1)
        (put_ended (set (rows_of m.old).ended (rows_of m.old).ends name) (rows_of m.old)))
        × Marks (members_of (rows_of m.new)) marks.new }
{
    let n = rows::ends(m);
    marks.mark(n, name);
    rows::put_ended(m, n, name);
    rows::set_ends(m, n + 1);
}

fn is_child(marks: &NameMarks, n: usize, p: Parent) -> bool
    requires { n ≤ 255 }
    ensures { (xs : List ℕ) → Marks xs marks.now → result ≡ by_parent false (λ k. has_in k (take n xs)) p }
{
    matches!(p, Some(name) if marks.has(n, name))
}

// Is the entry one of the first n?
fn is_managed(marks: &NameMarks, n: usize, g: Manager) -> bool
    requires { n ≤ 255 }
    ensures { (xs : List ℕ) → Marks xs marks.now → result ≡ by_manager false (λ k. has_in k (take n xs)) g }
{
    matches!(g, Manager::Set(name) if marks.has(n, name))
}

// Is the thread at a place trapped on one of the first n?
fn is_trapped_on(m: &[u32], marks: &NameMarks, n: usize, i: usize) -> bool
    requires { Roomy (rows_of m.now) × (n ≤ 255) × (i < (rows_of m.now).limits.threads)
        × Marks (members_of (rows_of m.now)) marks.now }
    ensures { result ≡ any (λ k. awaits k (get_or (rows_of m.now).threads i no_thread))
        (take n (members_of (rows_of m.now))) }
{
    let t = records::record(m, i);
    if let State::Trapped(k) = t.state() {
        is_managed(marks, n, t.manager(k))
    } else {
        false
    }
}

// Does the thread at a place depend on one of the first n, without being one of them?
fn joins(m: &[u32], marks: &NameMarks, n: usize, i: usize) -> bool
    requires { Roomy (rows_of m.now) × (n ≤ 255) × (i < (rows_of m.now).limits.threads)
        × Marks (members_of (rows_of m.now)) marks.now }
    ensures { result ≡ (depends_of (take n (members_of (rows_of m.now))) (get_or (rows_of m.now).threads i no_thread)
        && not (has_in (get_or (rows_of m.now).threads i no_thread).name (take n (members_of (rows_of m.now))))) }
{
    let t = records::record(m, i);
    !marks.has(n, t.name()) && (is_child(marks, n, t.parent()) || is_trapped_on(m, marks, n, i))
}

// A round: those join that depend on who was in the set when it began.
pub fn grow(m: &mut [u32], marks: &mut NameMarks)
    requires { Roomy (rows_of m.old) × ((rows_of m.old).count ≤ (rows_of m.old).limits.threads)
        × ((rows_of m.old).ends + count_of (λ t. depends_of (members_of (rows_of m.old)) t
        && not (has_in t.name (members_of (rows_of m.old)))) (view (rows_of m.old)).threads ≤ (rows_of m.old).limits.threads)
        × Marks (members_of (rows_of m.old)) marks.old }
    ensures { MembersAre (rows_of m.old) (rows_of m.new)
        (grow_of (view (rows_of m.old)).threads (members_of (rows_of m.old)))
        × Marks (members_of (rows_of m.new)) marks.new }
{
    let e = rows::ends(m);
    for i in 0..rows::count(m) {
        if !joins(m, marks, e, i) {
            continue;
        }
        let name = records::record(m, i).name();
        add(m, marks, name);
    }
}

// ---- what names a member

// The manager entry of a kind is gone if it names a member.
fn lose(m: &mut [u32], marks: &NameMarks, i: usize, k: TrapKind)
    requires { Roomy (rows_of m.old) × ((rows_of m.old).ends ≤ (rows_of m.old).limits.threads)
        × (i < (rows_of m.old).limits.threads) × Marks (members_of (rows_of m.old)) marks.now }
    ensures { rows_of m.new ≡ put_threads
        (set (rows_of m.old).threads i
        (with_managers
        (set_entry k (gone_if (members_of (rows_of m.old))
        (manager k (get_or (rows_of m.old).threads i no_thread).managers))
        (get_or (rows_of m.old).threads i no_thread).managers) (get_or (rows_of m.old).threads i no_thread)))
        (rows_of m.old) }
{
    let n = rows::ends(m);
    if is_managed(marks, n, records::record(m, i).manager(k)) {
        rows::set_manager(m, i, k, Manager::Gone);
    }
}

// The manager entries of the thread at a place that name a member are gone.
pub fn lose_managers(m: &mut [u32], marks: &NameMarks, i: usize)
    requires { Roomy (rows_of m.old) × ((rows_of m.old).ends ≤ (rows_of m.old).limits.threads)
        × (i < (rows_of m.old).limits.threads) × Marks (members_of (rows_of m.old)) marks.now }
    ensures { rows_of m.new ≡ put_threads
        (set (rows_of m.old).threads i
        (without_managers_of (members_of (rows_of m.old)) (get_or (rows_of m.old).threads i no_thread)))
        (rows_of m.old) }
{
    lose(m, marks, i, TrapKind::Program);
    lose(m, marks, i, TrapKind::Tlb);
    lose(m, marks, i, TrapKind::SysBp);
}

// Does it receive from a member alone?
#[tactic(auto, unfolding(rules::specs::Ending::misses))]
pub fn misses(m: &[u32], marks: &NameMarks, s: State) -> bool
    requires { Roomy (rows_of m.now) × ((rows_of m.now).ends ≤ (rows_of m.now).limits.threads)
        × Marks (members_of (rows_of m.now)) marks.now }
    ensures { result ≡ Misses_of (members_of (rows_of m.now)) s }
{
    matches!(s, State::Receiving(Wanted::Only(name)) if is_member(m, marks, name))
}
