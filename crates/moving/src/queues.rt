// The ready queue and the clock queue, front first.
ghost use Rattle.std.specs.Prelude.{List, [], ◌∷◌, ◌++◌, ◌+◌, ◌<◌, ◌≤◌, drop};
ghost use Rattle.memory.specs.Rows.{view, Roomy, ReadyIs, ClockIs};
ghost use Rattle.memory.specs.Memory.{rows_of};

use crate::row::{self, ClockRow, ReadyRow};
use memory::memory as rows;

// A name joins the tail of the ready queue.
pub fn join_ready(m: &mut [u32], name: u8)
    requires { Roomy (rows_of m.old) × ((rows_of m.old).readies < (rows_of m.old).limits.threads) }
    ensures { ReadyIs (rows_of m.old) (rows_of m.new) ((view (rows_of m.old)).ready
        ++ (name ∷ [])) }
{
    row::join::<ReadyRow>(m, name);
}

// The front of the ready queue goes.
pub fn drop_front(m: &mut [u32])
    requires { Roomy (rows_of m.old) × (0 < (rows_of m.old).readies)
        × ((rows_of m.old).readies ≤ (rows_of m.old).limits.threads) }
    ensures { ReadyIs (rows_of m.old) (rows_of m.new) (drop 1 (view (rows_of m.old)).ready) }
{
    row::close_gap::<ReadyRow>(m, 0);
}

// All who wait for the clock join the ready queue, in order of waiting.
pub fn clock_joins_ready(m: &mut [u32])
    requires { Roomy (rows_of m.old) × ((rows_of m.old).readies + (rows_of m.old).clocks ≤ (rows_of m.old).limits.threads) }
    ensures { ReadyIs (rows_of m.old) (rows_of m.new) ((view (rows_of m.old)).ready
        ++ (view (rows_of m.old)).clock) }
{
    for i in 0..rows::clocks(m) {
        let x = rows::clock_at(m, i);
        join_ready(m, x);
    }
}

// A name joins the tail of the clock queue.
pub fn join_clock(m: &mut [u32], name: u8)
    requires { Roomy (rows_of m.old) × ((rows_of m.old).clocks < (rows_of m.old).limits.threads) }
    ensures { ClockIs (rows_of m.old) (rows_of m.new) ((view (rows_of m.old)).clock
        ++ (name ∷ [])) }
{
    row::join::<ClockRow>(m, name);
}
