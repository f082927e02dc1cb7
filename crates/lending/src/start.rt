// The start on lent tables. It is never refused and looks at nothing that stood there.
ghost use Rattle.std.specs.Prelude.{◌≤◌, length};
ghost use Rattle.rules.specs.Numbers.{small};
ghost use Rattle.memory.specs.Layout.{size};
ghost use Rattle.lending.specs.Lent.{Started};

use crate::{Tables, WORDS};
use rules::numbers;

// In place: the room is long enough.
pub fn start_in(m: &mut [u32])
    requires { size small ≤ length m.old }
    ensures { Started m.new }
{
    stepping::start::start(m, numbers::SMALL);
}

// The same by value.
pub fn start_value() -> Tables
    ensures { Started result.words }
{
    let mut words = [0; WORDS];
    start_in(&mut words);
    Tables { words }
}
