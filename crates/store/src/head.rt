// The head: name given last, runner, time.
ghost use Rattle.std.specs.Prelude.{◌≡◌};
ghost use Rattle.rules.specs.Tables.{with_last, with_runner, with_time};
ghost use Rattle.store.specs.Store.{tables, Shaped, Holding, Leaves};

use memory::memory as rows;
use rules::Runner;

// The name given last.
pub fn last(m: &[u32]) -> u8
    requires { Shaped m.now }
    ensures { result ≡ (tables m.now).last }
{
    rows::last(m)
}

pub fn runner(m: &[u32]) -> Runner
    requires { Shaped m.now }
    ensures { result ≡ (tables m.now).runner }
{
    rows::runner(m)
}

// Ticks since the beat.
pub fn since(m: &[u32]) -> u8
    requires { Shaped m.now }
    ensures { result ≡ (tables m.now).since }
{
    rows::since(m)
}

pub fn beats(m: &[u32]) -> u32
    requires { Shaped m.now }
    ensures { result ≡ (tables m.now).beats }
{
    rows::beats(m)
}

pub fn set_last(m: &mut [u32], name: u8)
    requires { Holding m.old }
    ensures { Leaves m.old m.new (with_last name (tables m.old)) }
{
    rows::set_last(m, name);
}

pub fn set_runner(m: &mut [u32], r: Runner)
    requires { Holding m.old }
    ensures { Leaves m.old m.new (with_runner r (tables m.old)) }
{
    rows::set_runner(m, r);
}

// Ticks since the beat, and beats.
pub fn set_time(m: &mut [u32], since: u8, beats: u32)
    requires { Holding m.old }
    ensures { Leaves m.old m.new (with_time since beats (tables m.old)) }
{
    rows::set_since(m, since);
    rows::set_beats(m, beats);
}
