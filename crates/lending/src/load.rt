// Reading a dump into lent tables, by value. Nothing looks at the tables that came: they are handed in so that a refused reading gives
// them back.
ghost use Rattle.loading.specs.Loading.{Loads};

use crate::{Loaded, Tables};

pub fn load_value(t: Tables, bytes: &[u8]) -> Loaded
    ensures { Loads t.words bytes.now result.tables.words result.verdict }
{
    let mut words = t.words;
    let verdict = loading::load::load_in(&mut words, bytes);
    Loaded {
        tables: Tables { words },
        verdict,
    }
}
