// The fields of a stream of events: where a field ends, and a reader that goes from one to the next.
#![tactic(auto)]

pub mod cuts;
pub mod reader;

ghost use Rattle.std.specs.Prelude.{◌≡◌};
ghost use Rattle.fields.specs.Fields.{cut};

// Where a field ends, and whether it is all there. One that is cut off ends with the bytes. At their end and past it there is none:
// it ends where it starts. `whole` is a flag beside `end` since both stand for each field: a turn answers one that is cut off, too.
#[derive(Clone, Copy)]
pub struct Cut {
    pub end: usize,
    pub whole: bool,
}

// The field at a place, by the reader that the pages tell of; `cuts::cut_at` is the work under it.
pub fn field_at(input: &[u8], place: usize) -> Cut
    ensures { result ≡ cut input.now place }
{
    reader::Reader::at_place(input, place).cut()
}
