// "Unknown tag, tags out of order, or a second 1, 3 or 4" (16), and which of these three is missing (15).
ghost use Rattle.std.specs.Prelude.{◌≡◌};
ghost use Rattle.rules.specs.Tags.{dump_facts};
ghost use Rattle.faults.specs.Order.{seen as seen_of, misplaced_behind, after as after_of, missing as missing_of};

use rules::tags;

// The place of a field that no dump has: behind them all. No None: the rules' dump_facts gives it this place, and it is compared with others.
const BEHIND_ALL: u8 = 6;

#[tactic(auto, unfolding(rules::specs::Tags::dump_field, rules::specs::Tags::dump_facts, rules::specs::Tags::dump_facts_in))]
fn place_of(tag: u8) -> u8
    ensures { result ≡ (dump_facts tag).place }
{
    match tags::dump_facts(tag) {
        None => BEHIND_ALL,
        Some(field) => field.place,
    }
}

// What stood before a field, by default nothing: the place of the nearest one in the order of a dump, and whether a field 1, 3 and 4 was
// among them. The flags are what the document asks, once for each of three tags.
#[derive(Clone, Copy, Default)]
pub struct Before {
    pub place: u8,
    pub head: bool,
    pub ready: bool,
    pub clock: bool,
}

#[tactic(auto, unfolding(crate::specs::Order::seen, crate::specs::Order::misplaced_behind, crate::specs::Order::after, crate::specs::Order::missing, rules::specs::Tags::dump_field))]
impl Before {
    // Was a field of this tag, 1, 3 or 4, among those before?
    fn seen(&self, tag: u8) -> bool
        ensures { result ≡ seen_of self.now tag }
    {
        match tag {
            tags::HEAD => self.head,
            tags::READY => self.ready,
            _ => self.clock,
        }
    }

    pub fn misplaces(&self, tag: u8) -> bool
        ensures { result ≡ misplaced_behind self.now tag }
    {
        match tags::dump_facts(tag) {
            None => true,
            Some(field) => field.place < self.place || field.once && self.seen(tag),
        }
    }

    // What stands before the next field.
    pub fn after(&self, tag: u8) -> Before
        ensures { result ≡ after_of self.now tag }
    {
        Before {
            place: place_of(tag),
            head: tag == tags::HEAD || self.head,
            ready: tag == tags::READY || self.ready,
            clock: tag == tags::CLOCK || self.clock,
        }
    }

    // Is there no field 1, 3 or 4?
    pub fn missing(&self) -> bool
        ensures { result ≡ missing_of self.now }
    {
        !self.head || !self.ready || !self.clock
    }
}
