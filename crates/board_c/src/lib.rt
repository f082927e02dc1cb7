// The entries for a board's C code, by the names and with the promises of crate board. The archive of this crate is what C links.
#![tactic(auto)]

ghost use Rattle.std.specs.Prelude.{◌≡◌, length};
ghost use Rattle.rules.specs.Pick.{pick as pick_of};
ghost use Rattle.loading.specs.Loading.{Loads};
ghost use Rattle.lending.specs.Lent.{Started, check_of, dumped, buffer_after};
ghost use Rattle.batching.specs.Batching.{Batches};
ghost use Rattle.board.specs.Board.{Steps};
ghost use Rattle.board.specs.Layout.{sizes_of};

use board::{Report, Sizes};
use lending::{Dumped, Tables};
use rules::{Picked, Verdict};

// Starting is never refused, and looks at nothing that stood there.
#[unsafe(no_mangle)]
pub extern "C" fn nucleus_start(t: &mut Tables)
    ensures { Started t.new.words }
{
    board::nucleus_start(t);
}

#[unsafe(no_mangle)]
pub extern "C" fn nucleus_step(t: &mut Tables, event: &[u8]) -> Report
    ensures { Steps t.old.words event.now t.new.words result }
{
    board::nucleus_step(t, event)
}

#[unsafe(no_mangle)]
pub extern "C" fn nucleus_batch<'a>(
    t: &mut Tables,
    events: &mut &'a [u8],
    out: &mut [u32],
    refusal: &mut u8,
)
    ensures { Batches t.old.words events.old out.old events.new t.new.words
        out.new refusal.new }
{
    board::nucleus_batch(t, events, out, refusal);
}

// 11 if the tables stand for none that meet the table rules, else 0.
#[unsafe(no_mangle)]
pub extern "C" fn nucleus_check(t: &Tables) -> u8
    ensures { result ≡ check_of t.now.words }
{
    board::nucleus_check(t)
}

#[unsafe(no_mangle)]
pub extern "C" fn nucleus_dump(t: &Tables, out: &mut [u8]) -> Dumped
    ensures { (result ≡ dumped t.now.words (length out.old))
        × (out.new ≡ buffer_after t.now.words out.old) }
{
    board::nucleus_dump(t, out)
}

#[unsafe(no_mangle)]
pub extern "C" fn nucleus_load(t: &mut Tables, bytes: &[u8]) -> Verdict
    ensures { Loads t.old.words bytes.now t.new.words result }
{
    board::nucleus_load(t, bytes)
}

#[unsafe(no_mangle)]
pub extern "C" fn nucleus_pick(pending: u64) -> Picked
    ensures { result ≡ pick_of pending }
{
    board::nucleus_pick(pending)
}

#[unsafe(no_mangle)]
pub extern "C" fn nucleus_sizes() -> Sizes
    ensures { result ≡ sizes_of }
{
    board::nucleus_sizes()
}
