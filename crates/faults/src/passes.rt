// A pass over the fields for each number: over tags and lengths (15, 16), and over values (17, 18). Each finds the first fault.
ghost use Rattle.std.specs.Prelude.{◌≡◌};
ghost use Rattle.rules.specs.Faults.{faults_15, faults_16, faults_17, faults_18};
ghost use Rattle.faults.specs.Names.{Named};
ghost use Rattle.faults.specs.Passes.{earliest_of};

use crate::names::Living;
use crate::placed::Fields;
use crate::{lengths, ranges};

// A field of a wrong length, or else the end, if the bytes end badly.
pub fn cut_short(bytes: &[u8]) -> Option<usize>
    ensures { result ≡ earliest_of (faults_15 bytes.now) }
{
    let mut fields = Fields::new(bytes);
    match fields.find(|f| lengths::wrong_length(&f.field)) {
        Some(f) => Some(f.at),
        None => fields.ends_badly().then_some(bytes.len()),
    }
}

pub fn out_of_order(bytes: &[u8]) -> Option<usize>
    ensures { result ≡ earliest_of (faults_16 bytes.now) }
{
    let first = Fields::new(bytes).find(|f| f.before.misplaces(f.field.tag()));
    first.map(|f| f.at)
}

pub fn out_of_range(bytes: &[u8]) -> Option<usize>
    ensures { result ≡ earliest_of (faults_17 bytes.now) }
{
    let first = Fields::new(bytes).find(|f| ranges::out_of_range(&f.field));
    first.map(|f| f.at)
}

pub fn names_nobody(bytes: &[u8], living: &Living) -> Option<usize>
    requires { Named bytes.now living.now }
    ensures { result ≡ earliest_of (faults_18 bytes.now) }
{
    let first = Fields::new(bytes).find(|f| living.names_nobody(&f.field));
    first.map(|f| f.at)
}
