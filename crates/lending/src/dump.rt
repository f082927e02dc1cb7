// Writing a dump of lent tables. Nothing is asked of them or of the buffer.
ghost use Rattle.std.specs.Prelude.{◌≡◌, length};
ghost use Rattle.lending.specs.Lent.{dumped, outcome_of, buffer_after};

use crate::{Dumped, Tables, check};
use dumping::writing;
use rules::refusal::{self, Refusal};

// The dump's length, or why there is none.
fn written(m: &[u32], out: &mut [u8]) -> Result<usize, Refusal>
    ensures { (outcome_of result ≡ dumped m.now (length out.old))
        × (out.new ≡ buffer_after m.now out.old) }
{
    check::standing(m)?;
    if out.len() < writing::dump_length(m) {
        return Err(Refusal::BufferShort);
    }
    Ok(writing::write_dump(m, out))
}

// In place. The answer is laid out as in C: a refused dump has length 0.
pub fn dump_in(m: &[u32], out: &mut [u8]) -> Dumped
    ensures { (result ≡ dumped m.now (length out.old))
        × (out.new ≡ buffer_after m.now out.old) }
{
    let outcome = written(m, out);
    Dumped {
        refusal: refusal::told(outcome),
        length: outcome.unwrap_or(0),
    }
}

// The same by value.
pub fn dump_value(t: Tables, out: &mut [u8]) -> Dumped
    ensures { (result ≡ dumped t.words (length out.old))
        × (out.new ≡ buffer_after t.words out.old) }
{
    dump_in(&t.words, out)
}
