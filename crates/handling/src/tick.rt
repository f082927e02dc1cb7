// Tick.
ghost use Rattle.std.specs.Prelude.{◌<◌};
ghost use Rattle.rules.specs.Numbers.{beat_ticks};
ghost use Rattle.rules.specs.Tick.{charge as charge_of, beat as beat_of, rotate as rotate_of, tick as tick_of};
ghost use Rattle.laws.specs.Types.{Steady};
ghost use Rattle.store.specs.Store.{tables, Leaves};
ghost use Rattle.handling.specs.Standing.{MidEvent, AtRest};

use crate::moves;
use rules::{Answer, Runner, numbers};
use store;

// The runner's count rises, its slice falls.
fn charge(m: &mut [u32])
    requires { MidEvent m.old × Steady (tables m.old) }
    ensures { Leaves m.old m.new (charge_of (tables m.old)) }
{
    if let Runner::Runs(name, slice) = store::runner(m) {
        store::add_tick(m, name);
        store::set_runner(m, Runner::Runs(name, slice - 1));
    }
}

// At every twentieth tick the beat rises and the clock waiters become ready.
fn beat(m: &mut [u32])
    requires { MidEvent m.old × ((tables m.old).since < beat_ticks) }
    ensures { Leaves m.old m.new (beat_of (tables m.old)) }
{
    let since = store::since(m) + 1;
    let beats = store::beats(m);
    if since == numbers::BEAT {
        let next = beats.wrapping_add(1);
        store::set_time(m, 0, next);
        store::wake_clock(m, next);
    } else {
        store::set_time(m, since, beats);
    }
}

// A used-up slice sends the runner to the tail.
fn rotate(m: &mut [u32])
    requires { MidEvent m.old }
    ensures { Leaves m.old m.new (rotate_of (tables m.old)) }
{
    if let Runner::Runs(name, slice) = store::runner(m) {
        if slice == 0 {
            moves::wake(m, name, Answer::Nothing);
            store::set_runner(m, Runner::NoRunner);
        }
    }
}

pub fn tick(m: &mut [u32])
    requires { AtRest m.old }
    ensures { Leaves m.old m.new (tick_of (tables m.old)) }
{
    charge(m);
    beat(m);
    rotate(m);
}
