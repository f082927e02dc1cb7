// The ready queue and the clock queue.
ghost use Rattle.std.specs.Prelude.{◌≡◌, ◌+◌, ◌<◌, ◌≤◌, [], ◌∷◌, ◌++◌, length, drop, slice_index};
ghost use Rattle.rules.specs.Tables.{with_ready, with_clock};
ghost use Rattle.rules.specs.States.{on_clock};
ghost use Rattle.rules.specs.Waking.{wake_those};
ghost use Rattle.rules.specs.declared.Answer.TheVariants.{Result as ResultIs};
ghost use Rattle.store.specs.Store.{limits, tables, Shaped, Holding, Leaves};

use memory::memory as rows;
use moving::{queues, threads};

// How many are ready.
pub fn ready_count(m: &[u32]) -> usize
    requires { Shaped m.now }
    ensures { result ≡ length (tables m.now).ready }
{
    rows::readies(m)
}

// The front of the ready queue is at 0.
pub fn ready_at(m: &[u32], i: usize) -> u8
    requires { Shaped m.now × (i < length (tables m.now).ready) }
    ensures { result ≡ slice_index (tables m.now).ready i }
{
    rows::ready_at(m, i)
}

// How many wait for the clock.
pub fn clock_count(m: &[u32]) -> usize
    requires { Shaped m.now }
    ensures { result ≡ length (tables m.now).clock }
{
    rows::clocks(m)
}

// A name joins the ready queue at its tail.
pub fn join_ready(m: &mut [u32], name: u8)
    requires { Holding m.old × (length (tables m.old).ready < (limits m.old).threads) }
    ensures { Leaves m.old m.new
        (with_ready ((tables m.old).ready ++ (name ∷ [])) (tables m.old)) }
{
    queues::join_ready(m, name);
}

// The front of the ready queue goes.
pub fn drop_front(m: &mut [u32])
    requires { Holding m.old × (0 < length (tables m.old).ready) }
    ensures { Leaves m.old m.new
        (with_ready (drop 1 (tables m.old).ready) (tables m.old)) }
{
    queues::drop_front(m);
}

// A name joins those who wait for the clock.
pub fn join_clock(m: &mut [u32], name: u8)
    requires { Holding m.old × (length (tables m.old).clock < (limits m.old).threads) }
    ensures { Leaves m.old m.new
        (with_clock ((tables m.old).clock ++ (name ∷ [])) (tables m.old)) }
{
    queues::join_clock(m, name);
}

// All who wait for the clock become ready, in order of waiting, with the number of the beat.
pub fn wake_clock(m: &mut [u32], beats: u32)
    requires { Holding m.old × (length (tables m.old).ready + length (tables m.old).clock ≤ (limits m.old).threads) }
    ensures { Leaves m.old m.new
        (wake_those (λ t. on_clock t.state) (λ t. ResultIs beats) (tables m.old).clock
        (with_clock [] (tables m.old))) }
{
    threads::wake_clock(m, beats);
    queues::clock_joins_ready(m);
    rows::set_clocks(m, 0);
}
