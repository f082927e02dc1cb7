// Reading a dump, in stages: the fields are cut and their values put into a memory of its own; that meets the table rules; the writer gives
// those bytes again, so that every value was in its range. Only then the lent memory is written. Where a stage fails the bytes are no
// dump, and crates/faults says where: a dump pays nothing for that.
ghost use Rattle.std.specs.Prelude.{◌≡◌, true, ◌≤◌, length};
ghost use Rattle.rules.specs.Lists.{same as same_of};
ghost use Rattle.rules.specs.Numbers.{small};
ghost use Rattle.rules.specs.Dump.{dump};
ghost use Rattle.memory.specs.Layout.{size};
ghost use Rattle.store.specs.Store.{tables};
ghost use Rattle.checking.specs.Stands.{stands};
ghost use Rattle.loading.specs.Reading.{Accepts};
ghost use Rattle.loading.specs.Loading.{Loads};

use crate::reading;
use checking::check;
use dumping::writing;
use faults::find;
use rules::Verdict;

// The words that tables of 20 threads and 20 blocks need.
pub const WORDS: usize = 656;

// A dump has at most so many bytes.
const LONGEST: usize = 1241;

// Does the writer give these bytes?
fn gives(m: &[u32], bytes: &[u8]) -> bool
    requires { stands small m.now ≡ true }
    ensures { result ≡ same_of (dump (tables m.now)) bytes.now }
{
    let mut again = [0; LONGEST];
    let n = writing::write_dump(m, &mut again);
    &again[..n] == bytes
}

// Are the bytes a dump? Then the memory holds what they tell; else it holds anything.
fn reads(m: &mut [u32], bytes: &[u8]) -> bool
    requires { size small ≤ length m.old }
    ensures { Accepts bytes.now m.new result }
{
    reading::read_fields(m, bytes) && check::check(m) && gives(m, bytes)
}

// Reading into a lent memory: refused, every word of it is as it was.
pub fn load_in(m: &mut [u32], bytes: &[u8]) -> Verdict
    requires { size small ≤ length m.old }
    ensures { Loads m.old bytes.now m.new result }
{
    let mut own = [0; WORDS];
    if !reads(&mut own, bytes) {
        return find::find(bytes);
    }
    m[..WORDS].copy_from_slice(&own);
    Verdict {
        refusal: 0,
        offset: 0,
    }
}
