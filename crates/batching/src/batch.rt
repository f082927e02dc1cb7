// The batch. Nothing is asked of anything that is lent. The room for decisions is looked at before the tables are, and these are checked
// once: what each step leaves passes the check again.
ghost use Rattle.std.specs.Prelude.{◌≡◌, ◌*◌, ◌≤◌, length};
ghost use Rattle.std.specs.Result.{result_unwrap_or};
ghost use Rattle.rules.specs.Numbers.{decision_numbers};
ghost use Rattle.rules.specs.Refused.{refusal_told};
ghost use Rattle.rules.specs.Runs.{line};
ghost use Rattle.rules.specs.Batch.{complete as complete_of};
ghost use Rattle.buffer.specs.Puts.{Puts};
ghost use Rattle.lending.specs.Lent.{valid, Answered};
ghost use Rattle.batching.specs.Batching.{RanAll, Serves, Batches, BatchesValue};

use crate::{Batched, complete};
use checking::check;
use fields::cuts;
use lending::Tables;
use lending::step::no_tables;
use rules::refusal::{Refusal, told};
use rules::{Decision, numbers};
use stepping::step;

// The numbers of a decision, at the front of what is left of the buffer.
#[tactic(auto, unfolding(rules::specs::Runs::line))]
fn put_decision(out: &mut [u32], d: Decision)
    requires { decision_numbers ≤ length out.old }
    ensures { Puts (line d) out.old out.new decision_numbers }
{
    let a = d.answer;
    let row = [
        u32::from(d.refusal),
        u32::from(d.status),
        u32::from(d.runner),
        u32::from(a.kind()),
        u32::from(a.sender()),
        a.word(),
    ];
    out[..numbers::DECISION].copy_from_slice(&row);
}

// One event, on tables of which it is known whether they pass the check: that is asked once for a batch, and no caller chooses it.
fn answer(m: &mut [u32], good: bool, event: &[u8]) -> Decision
    requires { good ≡ valid m.old }
    ensures { Answered m.old event.now m.new result }
{
    if !good {
        return no_tables();
    }
    step::step(m, event)
}

// Each of the complete fields, in order.
fn run(m: &mut [u32], events: &[u8], count: usize, out: &mut [u32])
    requires { (count ≡ length (complete_of events.now)) × (decision_numbers * count ≤ length out.old) }
    ensures { RanAll m.old events.now out.old m.new out.new }
{
    let good = check::check(m);
    let mut used = 0;
    // Over the count, and not over a reader: k also says where in the buffer the decision stands.
    for k in 0..count {
        let end = cuts::cut_at(events, used).end;
        let d = answer(m, good, &events[used..end]);
        put_decision(&mut out[k * numbers::DECISION..], d);
        used = end;
    }
}

// How many bytes are read, or why none is.
fn serve(m: &mut [u32], events: &[u8], out: &mut [u32]) -> Result<usize, Refusal>
    ensures { Serves m.old events.now out.old m.new out.new (result_unwrap_or result 0)
        (refusal_told result) }
{
    let c = complete::count_complete(events);
    if out.len() < c.count * numbers::DECISION {
        return Err(Refusal::RoomShort);
    }
    run(m, events, c.count, out);
    Ok(c.end)
}

// In place. What is handed back is the unread end of the caller's bytes, and the refusal is left where the caller says:
// "The refusal, 0 or 14, is left in a lent number" (document 02, CR 2).
pub fn batch<'a>(m: &mut [u32], events: &'a [u8], out: &mut [u32], refusal: &mut u8) -> &'a [u8]
    ensures { Batches m.old events.entry out.old result m.new out.new
        refusal.new }
{
    let taken = serve(m, events, out);
    *refusal = told(taken);
    let used = taken.unwrap_or(0);
    cuts::rest_at(events, used)
}

// The same by value.
pub fn batch_value(t: Tables, events: &[u8], out: &mut [u32]) -> Batched
    ensures { BatchesValue t events.now out.old out.new result }
{
    let mut words = t.words;
    let taken = serve(&mut words, events, out);
    Batched {
        tables: Tables { words },
        used: taken.unwrap_or(0),
        refusal: told(taken),
    }
}
