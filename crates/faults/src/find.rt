// "Where several rules fail, the first in the list below counts, and within it the earliest field; for 19 the offset is 0."
ghost use Rattle.std.specs.Prelude.{◌≡◌};
ghost use Rattle.rules.specs.Faults.{where_bad};
ghost use Rattle.rules.specs.Refused.{refusal_number};

use crate::names::Living;
use crate::passes;
use rules::Verdict;
use rules::refusal::Refusal;

// A verdict holds the number of a refusal, since it is laid out as in C.
fn bad(refusal: Refusal, offset: usize) -> Verdict
    ensures { result ≡ record { refusal = refusal_number refusal; offset = offset } }
{
    Verdict {
        refusal: u8::from(refusal),
        offset,
    }
}

// Of bytes that are no dump.
#[tactic(auto, unfolding(rules::specs::Faults::where_bad, rules::specs::Refused::refusal_number), using(crate::proofs::Finding::found_first, crate::proofs::Finding::none_first))]
pub fn find(bytes: &[u8]) -> Verdict
    ensures { result ≡ where_bad bytes.now }
{
    if let Some(at) = passes::cut_short(bytes) {
        return bad(Refusal::CutShort, at);
    }
    if let Some(at) = passes::out_of_order(bytes) {
        return bad(Refusal::OutOfOrder, at);
    }
    if let Some(at) = passes::out_of_range(bytes) {
        return bad(Refusal::OutOfRange, at);
    }
    let living = Living::told(bytes);
    if let Some(at) = passes::names_nobody(bytes, &living) {
        return bad(Refusal::NamesNobody, at);
    }
    bad(Refusal::TableRule, 0)
}
