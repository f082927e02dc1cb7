// The check of a memory of any length and contents.
ghost use Rattle.std.specs.Prelude.{◌≡◌, ◌<◌, ◌≤◌};
ghost use Rattle.rules.specs.Numbers.{small, names};
ghost use Rattle.memory.specs.Layout.{most_blocks};
ghost use Rattle.checking.specs.Stands.{stands};

use crate::rules_met;
use memory::memory as rows;
use rules::numbers::{self, Limits};

// The same code for any limits.
pub fn check_for(m: &[u32], l: Limits) -> bool
    requires { (l.threads < names) × (l.blocks ≤ most_blocks) }
    ensures { result ≡ stands l m.now }
{
    rows::shaped(m, l) && rules_met::rules_met(m)
}

pub fn check(m: &[u32]) -> bool
    ensures { result ≡ stands small m.now }
{
    check_for(m, numbers::SMALL)
}
