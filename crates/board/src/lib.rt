// The nucleus for a board, whose C code lends the tables: crate board_c exports these functions to it. An entry takes the value behind
// the reference, calls a function by value and stores what that gives; a dump is read in place. The contract speaks of the words that
// stand behind the reference at entry and at exit.
#![tactic(auto)]

pub mod values;

ghost use Rattle.std.specs.Prelude.{◌≡◌, length};
ghost use Rattle.rules.specs.Pick.{pick as pick_of};
ghost use Rattle.loading.specs.Loading.{Loads};
ghost use Rattle.lending.specs.Lent.{Started, check_of, dumped, buffer_after};
ghost use Rattle.batching.specs.Batching.{Batches};
ghost use Rattle.board.specs.Board.{Steps};
ghost use Rattle.board.specs.Layout.{sizes_of};

use batching::batch;
use fields::cuts;
use lending::{Dumped, Tables, check, dump, start};
use loading::load as reading;
use rules::{Picked, Verdict, pick};

// A decision as numbers.
#[repr(C)]
#[derive(Clone, Copy)]
pub struct Report {
    pub refusal: u8,
    pub status: u8,
    pub runner: u8,
    pub kind: u8,
    pub sender: u8,
    pub word: u32,
}

// What a step leaves.
#[derive(Clone, Copy)]
pub struct Served {
    pub tables: Tables,
    pub report: Report,
}

// How many bytes a Tables and a Report take, and how many suffice for every dump. C code holds its own header to them.
#[repr(C)]
#[derive(Clone, Copy)]
pub struct Sizes {
    pub tables: u32,
    pub report: u32,
    pub dump: u32,
}

// Starting is never refused, and looks at nothing that stood there.
pub fn nucleus_start(t: &mut Tables)
    ensures { Started t.new.words }
{
    *t = start::start_value();
}

pub fn nucleus_step(t: &mut Tables, event: &[u8]) -> Report
    ensures { Steps t.old.words event.now t.new.words result }
{
    let r = values::step_numbers(*t, event);
    *t = r.tables;
    r.report
}

// A batch. C gets no slice as a result, so what `batch` hands back is left in the place of the events that were lent: a slice is a
// pointer and a length. The numbers are those of a Report, in its order.
pub fn nucleus_batch<'a>(t: &mut Tables, events: &mut &'a [u8], out: &mut [u32], refusal: &mut u8)
    ensures { Batches t.old.words events.old out.old events.new t.new.words
        out.new refusal.new }
{
    let b = batch::batch_value(*t, *events, out);
    *t = b.tables;
    *refusal = b.refusal;
    *events = cuts::rest_at(*events, b.used);
}

// 11 if the tables stand for none that meet the table rules, else 0.
pub fn nucleus_check(t: &Tables) -> u8
    ensures { result ≡ check_of t.now.words }
{
    check::check_value(*t)
}

pub fn nucleus_dump(t: &Tables, out: &mut [u8]) -> Dumped
    ensures { (result ≡ dumped t.now.words (length out.old))
        × (out.new ≡ buffer_after t.now.words out.old) }
{
    dump::dump_value(*t, out)
}

// The dump is read in place. Nothing looks at the tables that came, and a refused reading leaves them as they were.
pub fn nucleus_load(t: &mut Tables, bytes: &[u8]) -> Verdict
    ensures { Loads t.old.words bytes.now t.new.words result }
{
    reading::load_in(&mut t.words, bytes)
}

pub fn nucleus_pick(pending: u64) -> Picked
    ensures { result ≡ pick_of pending }
{
    pick::pick(pending)
}

pub fn nucleus_sizes() -> Sizes
    ensures { result ≡ sizes_of }
{
    Sizes {
        tables: values::TABLES_BYTES,
        report: values::REPORT_BYTES,
        dump: values::DUMP_BYTES,
    }
}
