// The check of lent tables, as a refusal.
ghost use Rattle.std.specs.Prelude.{◌≡◌};
ghost use Rattle.lending.specs.Lent.{check_of, standing_of};

use crate::Tables;
use checking::check;
use rules::refusal::{self, Refusal};

// What each operation asks first: tables that meet the table rules.
pub(crate) fn standing(m: &[u32]) -> Result<(), Refusal>
    ensures { result ≡ standing_of m.now }
{
    if check::check(m) {
        Ok(())
    } else {
        Err(Refusal::NoTables)
    }
}

// In place. The refusal is a number here: it is what C is handed (nucleus_check).
pub fn check_in(m: &[u32]) -> u8
    ensures { result ≡ check_of m.now }
{
    refusal::told(standing(m))
}

// The same by value.
pub fn check_value(t: Tables) -> u8
    ensures { result ≡ check_of t.words }
{
    check_in(&t.words)
}
