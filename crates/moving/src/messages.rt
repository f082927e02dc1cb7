// The messages and notices, by rising receiver, oldest first.
ghost use Rattle.std.specs.Prelude.{◌≡◌, not, List, ◌∷◌, ◌++◌, ◌+◌, ◌<◌, ◌≤◌, leb, get_or, take, drop, position};
ghost use Rattle.rules.specs.Lists.{keep, count as count_of};
ghost use Rattle.rules.specs.Waking.{is_ordinary as is_ordinary_of, notice_of};
ghost use Rattle.rules.specs.Receive.{wanted_by};
ghost use Rattle.memory.specs.Rows.{view, Roomy, MessagesAre, place, no_message};
ghost use Rattle.memory.specs.Memory.{rows_of};

use crate::row::{self, MessageRow};
use memory::{memory as rows, records};
use rules::{Message, Wanted};
use words::states;

// Where the oldest message stands that a receiver wants.
pub fn seek_wanted(m: &[u32], me: u8, w: Wanted) -> Option<usize>
    requires { Roomy (rows_of m.now)
        × ((rows_of m.now).letters ≤ (rows_of m.now).limits.threads + (rows_of m.now).limits.blocks) }
    ensures { result ≡ position (wanted_by me w) (view (rows_of m.now)).messages }
{
    records::messages(m).position(|x| x.to() == me && states::matches(x.from(), w))
}

// Where the first message to a later receiver stands: the end of the receiver's inbox.
pub fn seek_end(m: &[u32], to: u8) -> usize
    requires { Roomy (rows_of m.now)
        × ((rows_of m.now).letters ≤ (rows_of m.now).limits.threads + (rows_of m.now).limits.blocks) }
    ensures { result ≡ place (λ x. not (leb x.to to)) (view (rows_of m.now)).messages }
{
    records::messages(m)
        .position(|x| x.to() > to)
        .unwrap_or(rows::letters(m))
}

// A message comes in at a place: each from there on goes one further.
pub fn open_gap(m: &mut [u32], at: usize, x: Message)
    requires { Roomy (rows_of m.old) × (at ≤ (rows_of m.old).letters)
        × ((rows_of m.old).letters < (rows_of m.old).limits.threads + (rows_of m.old).limits.blocks) }
    ensures { MessagesAre (rows_of m.old) (rows_of m.new) (take at (view (rows_of m.old)).messages
        ++ x ∷ drop at (view (rows_of m.old)).messages) }
{
    row::open_gap::<MessageRow>(m, at, x);
}

// The message at a place goes.
pub fn close_gap(m: &mut [u32], at: usize)
    requires { Roomy (rows_of m.old) × (at < (rows_of m.old).letters)
        × ((rows_of m.old).letters ≤ (rows_of m.old).limits.threads + (rows_of m.old).limits.blocks) }
    ensures { MessagesAre (rows_of m.old) (rows_of m.new) (take at (view (rows_of m.old)).messages
        ++ drop (at + 1) (view (rows_of m.old)).messages) }
{
    row::close_gap::<MessageRow>(m, at);
}

// The notice of a thread goes.
pub fn drop_notice(m: &mut [u32], name: u8)
    requires { Roomy (rows_of m.old)
        × ((rows_of m.old).letters ≤ (rows_of m.old).limits.threads + (rows_of m.old).limits.blocks) }
    ensures { MessagesAre (rows_of m.old) (rows_of m.new)
        (keep (λ x. not (notice_of name x)) (view (rows_of m.old)).messages) }
{
    row::sift::<MessageRow, _>(m, |x| !states::is_ordinary(x.kind) && x.from == name);
}

// How many ordinary messages there are: the blocks in use.
pub fn blocks_used(m: &[u32]) -> usize
    requires { Roomy (rows_of m.now)
        × ((rows_of m.now).letters ≤ (rows_of m.now).limits.threads + (rows_of m.now).limits.blocks) }
    ensures { result ≡ count_of (λ x. is_ordinary_of x.kind) (view (rows_of m.now)).messages }
{
    records::messages(m)
        .filter(|x| states::is_ordinary(x.kind()))
        .count()
}
