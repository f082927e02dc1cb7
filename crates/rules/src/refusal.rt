// Why something is refused: the list of document 01, and document 02's numbers behind it. Number 13 is given no more: 15 to 19 split it.
#![tactic(auto, unfolding(crate::specs::Refused::refusal_number, crate::specs::Refused::refusal_told))]

ghost use Rattle.std.specs.Prelude.{◌≡◌};
ghost use Rattle.rules.specs.Refused.{refusal_number, refusal_told};

#[derive(Clone, Copy, PartialEq, Eq)]
pub enum Refusal {
    Over,
    Malformed,
    NobodyRuns,
    NotLive,
    NoBlockFree,
    NoThreadFree,
    BrotherOfFirst,
    DeviceTaken,
    NoDecision,
    OwnName,
    NoTables,
    BufferShort,
    RoomShort,
    CutShort,
    OutOfOrder,
    OutOfRange,
    NamesNobody,
    TableRule,
}

impl From<Refusal> for u8 {
    ghost from_gives = { λ r n. n ≡ refusal_number r };

    fn from(r: Refusal) -> u8 {
        match r {
            Refusal::Over => 1,
            Refusal::Malformed => 2,
            Refusal::NobodyRuns => 3,
            Refusal::NotLive => 4,
            Refusal::NoBlockFree => 5,
            Refusal::NoThreadFree => 6,
            Refusal::BrotherOfFirst => 7,
            Refusal::DeviceTaken => 8,
            Refusal::NoDecision => 9,
            Refusal::OwnName => 10,
            Refusal::NoTables => 11,
            Refusal::BufferShort => 12,
            Refusal::RoomShort => 14,
            Refusal::CutShort => 15,
            Refusal::OutOfOrder => 16,
            Refusal::OutOfRange => 17,
            Refusal::NamesNobody => 18,
            Refusal::TableRule => 19,
        }
    }
}

// The number that is told of an outcome: 0 where nothing is refused.
pub fn told<T: Drop>(outcome: Result<T, Refusal>) -> u8
    ensures { result ≡ refusal_told outcome }
{
    match outcome {
        Ok(_) => 0,
        Err(r) => u8::from(r),
    }
}
