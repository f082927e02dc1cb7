// Inboxes: messages and notices by rising receiver, oldest first.
ghost use Rattle.std.specs.Prelude.{◌≡◌, ◌+◌, ◌<◌, not, length};
ghost use Rattle.rules.specs.Lists.{keep, pull};
ghost use Rattle.rules.specs.Tables.{with_messages};
ghost use Rattle.rules.specs.Waking.{notice_of, queue as queue_of};
ghost use Rattle.rules.specs.Receive.{wanted_by};
ghost use Rattle.rules.specs.Refusals.{no_block_free};
ghost use Rattle.store.specs.Store.{limits, tables, Shaped, Holding, Leaves, Takes};

use memory::memory as rows;
use moving::messages;
use rules::{Message, Wanted};

// How many messages and notices there are.
pub fn message_count(m: &[u32]) -> usize
    requires { Shaped m.now }
    ensures { result ≡ length (tables m.now).messages }
{
    rows::letters(m)
}

// Is no block free? With fewer messages than blocks nothing has to be counted.
pub fn blocks_full(m: &[u32]) -> bool
    requires { Shaped m.now }
    ensures { result ≡ no_block_free (limits m.now) (tables m.now) }
{
    if rows::letters(m) < rows::blocks(m) {
        return false;
    }
    rows::blocks(m) <= messages::blocks_used(m)
}

// A message or notice joins the end of its receiver's inbox.
pub fn queue(m: &mut [u32], x: Message)
    requires { Holding m.old × (length (tables m.old).messages < (limits m.old).threads + (limits m.old).blocks) }
    ensures { Leaves m.old m.new (queue_of x (tables m.old)) }
{
    let at = messages::seek_end(m, x.to);
    messages::open_gap(m, at, x);
}

// The oldest message or notice that a receiver wants is taken out of its inbox.
pub fn take_message(m: &mut [u32], me: u8, w: Wanted) -> Option<Message>
    requires { Holding m.old }
    ensures { Takes m.old m.new result (pull (wanted_by me w) (tables m.old).messages) }
{
    if let Some(i) = messages::seek_wanted(m, me, w) {
        let x = rows::message_at(m, i);
        messages::close_gap(m, i);
        Some(x)
    } else {
        None
    }
}

// An unread notice of a thread goes.
pub fn discard_notice(m: &mut [u32], name: u8)
    requires { Holding m.old }
    ensures { Leaves m.old m.new
        (with_messages (keep (λ x. not (notice_of name x)) (tables m.old).messages) (tables m.old)) }
{
    messages::drop_notice(m, name);
}
