// The whole fields of some bytes, one after the other: where each begins, and what stood before it.
ghost use Rattle.std.specs.Prelude.{◌≡◌};
ghost use Rattle.faults.specs.Fields.{fields_from, ends_at};

use crate::order::Before;
use fields::cuts;
use rules::tags;
use std::marker::Model;

// One field: its tag, a length, and its value.
#[derive(Drop)]
pub struct Field<'a> {
    bytes: &'a [u8],
}

impl<'a> Model for Field<'a> {
    ghost use Rattle.std.specs.Prelude.{◌≤◌, length};
    ghost use Rattle.rules.specs.Tags.{before_value};
    ghost use Rattle.rules.specs.Load.{Field, as_field};

    ghost Value = { Field };

    ghost view = { λ f. as_field f.bytes.now };

    ghost invariant = { λ f. before_value ≤ length f.bytes.now };
}

impl<'a> Field<'a> {
    pub fn tag(&self) -> u8
        ensures { result ≡ self.now.tag }
    {
        self.bytes[0]
    }

    pub fn value(&self) -> &'a [u8]
        ensures { result.now ≡ self.now.value }
    {
        &self.bytes[tags::BEFORE_VALUE..]
    }
}

// A field with the offset of its first byte, and what stood before it.
#[derive(Drop)]
pub struct Placed<'a> {
    pub at: usize,
    pub before: Before,
    pub field: Field<'a>,
}

// The fields from an offset on. It stops before one that is cut off. The reader of crates/fields gives the fields alone; here each comes with
// its offset and what stood before it.
#[derive(Drop)]
pub struct Fields<'a> {
    bytes: &'a [u8],
    pub at: usize,
    before: Before,
}

impl<'a> Fields<'a> {
    pub fn new(bytes: &'a [u8]) -> Fields<'a>
        ensures { result ≡ fields_from bytes.entry }
    {
        Fields {
            bytes,
            at: 0,
            before: Before::default(),
        }
    }

    // Where no field is left: are there bytes behind the last one, or is there no field 1, 3 or 4?
    pub fn ends_badly(&self) -> bool
        ensures { result ≡ ends_at self.now }
    {
        self.at < self.bytes.len() || self.before.missing()
    }
}

impl<'a> Iterator for Fields<'a> {
    ghost use Rattle.std.specs.Iterator.{item_count};
    ghost use Rattle.faults.specs.Fields.{left, Gives};

    type Item = Placed<'a>;

    ghost next_gives = { Gives };

    ghost remaining = { item_count left };

    #[tactic(auto, using(fields::proofs::Wholes::ends_behind, fields::proofs::Wholes::ends_within, crate::proofs::Standing::none_stands, crate::proofs::Standing::next_stands))]
    fn next(&mut self) -> Option<Placed<'a>> {
        let c = cuts::cut_at(self.bytes, self.at);
        if !c.whole {
            return None;
        }
        let field = Field {
            bytes: &self.bytes[self.at..c.end],
        };
        let next = Placed {
            at: self.at,
            before: self.before,
            field,
        };
        self.at = c.end;
        self.before = self.before.after(next.field.tag());
        Some(next)
    }
}
