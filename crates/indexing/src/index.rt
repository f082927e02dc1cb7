// Where each name stands among the threads: a rule then finds a name in one look, and the check stays a few passes.
#![tactic(auto, unfolding(store::specs::Store::Shaped, store::specs::Store::tables))]

ghost use Rattle.std.specs.Prelude.{◌≡◌, ◌≤◌, ℕ, List, position, ◌==◌};
ghost use Rattle.rules.specs.Lists.{count};
ghost use Rattle.rules.specs.Tables.{named, live as live_of};
ghost use Rattle.store.specs.Store.{Shaped, tables};
ghost use Rattle.indexing.specs.Index.{Once, Places};

use memory::{memory as rows, records};
use std::marker::Model;

// A memory that is shaped, with a place for each name: that of the first thread of this name, or how many threads there are where nobody has
// it. A byte for a place keeps it within four lines of a cache.
#[derive(Drop)]
pub struct NamePlaces<'a> {
    m: &'a [u32],
    at: [u8; 256],
    count: usize,
}

impl<'a> Model for NamePlaces<'a> {
    ghost Value = { List ℕ };

    ghost view = { λ x. x.m.now };

    ghost invariant = { λ x. Places x.m.now x.at x.count };
}

impl<'a> NamePlaces<'a> {
    // From the last thread to the first, so that the first of a name stands.
    pub fn of(m: &'a [u32]) -> Self
        requires { Shaped m.now }
        ensures { result ≡ m.now }
    {
        let count = rows::count(m);
        let mut at = [count as u8; 256];
        for i in (0..count).rev() {
            at[usize::from(records::record(m, i).name())] = i as u8;
        }
        NamePlaces { m, at, count }
    }

    // The memory.
    pub fn words(&self) -> &'a [u32]
        ensures same { result.now ≡ self.now }
        ensures shaped { Shaped result.now }
    {
        self.m
    }

    // The place of a name, if a thread has it.
    pub fn place_of(&self, name: u8) -> Option<usize>
        ensures { result ≡ position (named name) (tables self.now).threads }
    {
        let i = usize::from(self.at[usize::from(name)]);
        (i < self.count).then_some(i)
    }

    pub fn is_live(&self, name: u8) -> bool
        ensures { result ≡ live_of name (tables self.now) }
    {
        self.place_of(name).is_some()
    }
}

// The places of a memory that shows each name once at most: what asks a rule of it needs no clause on names.
#[derive(Drop)]
pub struct Index<'a> {
    places: NamePlaces<'a>,
}

impl<'a> Model for Index<'a> {
    ghost Value = { List ℕ };

    ghost view = { λ x. x.places };

    ghost invariant = { λ x. Once x.places };
}

impl<'a> Index<'a> {
    pub fn of(m: &'a [u32]) -> Self
        requires { Shaped m.now × ((k : ℕ) → count (λ t. k == t.name) (tables m.now).threads ≤ 1) }
        ensures { result ≡ m.now }
    {
        Index {
            places: NamePlaces::of(m),
        }
    }

    // For what goes by the places alone.
    pub fn places(&self) -> &NamePlaces<'a>
        ensures same { result.now ≡ self.now }
        ensures once { Once result.now }
    {
        &self.places
    }

    pub fn words(&self) -> &'a [u32]
        ensures same { result.now ≡ self.now }
        ensures shaped { Shaped result.now }
        ensures once { (k : ℕ) → count (λ t. k == t.name) (tables result.now).threads ≤ 1 }
    {
        self.places.words()
    }

    pub fn place_of(&self, name: u8) -> Option<usize>
        ensures { result ≡ position (named name) (tables self.now).threads }
    {
        self.places.place_of(name)
    }

    pub fn is_live(&self, name: u8) -> bool
        ensures { result ≡ live_of name (tables self.now) }
    {
        self.places.is_live(name)
    }
}
