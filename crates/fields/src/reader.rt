// A reader of events: the input, and the place of the next field. It goes on behind a field's length, whatever the field holds.
ghost use Rattle.std.specs.Prelude.{◌≡◌};
ghost use Rattle.fields.specs.Fields.{cut, EndOf};
ghost use Rattle.fields.specs.Reading.{reader_at};

use crate::{Cut, cuts};

#[derive(Clone, Copy)]
pub struct Reader<'a> {
    pub input: &'a [u8],
    pub place: usize,
}

impl<'a> Reader<'a> {
    pub fn new(input: &'a [u8]) -> Reader<'a>
        ensures { result ≡ reader_at input.entry 0 }
    {
        Reader { input, place: 0 }
    }

    pub fn at_place(input: &'a [u8], place: usize) -> Reader<'a>
        ensures { result ≡ reader_at input.entry place }
    {
        Reader { input, place }
    }

    pub fn place(&self) -> usize
        ensures { result ≡ self.now.place }
    {
        self.place
    }

    // The bytes from the place on, where they stand; past the end there are none.
    pub fn rest(&self) -> &'a [u8]
        ensures { EndOf self.now.input self.now.place result }
    {
        cuts::rest_at(self.input, self.place)
    }

    // The field at the place. A cut that ends at the place says that the input has ended.
    pub fn cut(&self) -> Cut
        ensures { result ≡ cut self.now.input.now self.now.place }
    {
        cuts::cut_at(self.input, self.place)
    }

    // The reader behind that field.
    pub fn advance(self) -> Reader<'a>
        ensures { result ≡ reader_at self.entry.input (cut self.entry.input.now self.entry.place).end }
    {
        Reader {
            place: self.cut().end,
            ..self
        }
    }
}

// The whole fields from the place on. It stops before one that is cut off.
impl<'a> Iterator for Reader<'a> {
    ghost use Rattle.std.specs.Iterator.{item_count};
    ghost use Rattle.fields.specs.Reading.{wholes, GivesWhole};

    type Item = &'a [u8];

    ghost next_gives = { GivesWhole };

    ghost remaining = { item_count wholes };

    #[tactic(auto, using(crate::proofs::Wholes::ends_within, crate::proofs::Wholes::none_whole, crate::proofs::Wholes::first_whole))]
    fn next(&mut self) -> Option<&'a [u8]> {
        let c = self.cut();
        if !c.whole {
            return None;
        }
        let field = &self.input[self.place..c.end];
        self.place = c.end;
        Some(field)
    }
}
