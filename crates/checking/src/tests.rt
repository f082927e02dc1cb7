// What an index tells, and what the rules that take one say, of tables written by hand: one word changed at a time, or two.
ghost use Rattle.std.specs.Prelude.{◌≡◌};

use agreeing::inboxes;
use indexing::index::Index;
use memory::memory as rows;
use ranging::{parents, ranges};
use rules::numbers;
use std::process::Abort;

const WORDS: usize = 656;

// Thread 0 runs. Its son 1 is trapped on it, with the notice in 0's inbox. The son's son 3 receives from 1, with a message from 0.
fn tables(rt: &impl Abort) -> [u32; WORDS] {
    let mut m = [0; WORDS];
    for (at, word) in [
        (0, 20), // the limits
        (1, 20),
        (2, 3), // the name given last
        (4, 5), // the slice of thread 0
        (7, 3), // threads
        (10, 2), // messages
        (177, 256), // thread 0: no parent, no managers
        (180, 256),
        (181, 256),
        (182, 256),
        (192, 1), // thread 1: its parent is 0, trapped, its manager for program traps is 0
        (194, 5),
        (197, 256),
        (198, 256),
        (208, 3), // thread 3: its parent is 1, it receives from 1
        (209, 1),
        (210, 2),
        (211, 1),
        (212, 256),
        (213, 256),
        (214, 256),
        (497, 257), // the notice from 1 to 0
        (500, 3), // the message from 0 to 3
    ] {
        assert!(rt; at < WORDS);
        m[at] = word;
    }
    m
}

fn index<'a>(rt: &impl Abort, m: &'a [u32]) -> Index<'a>
    ensures { result ≡ m.now }
{
    assert!(rt; rows::shaped(m, numbers::SMALL));
    assert!(rt; ranges::names_right(m));
    Index::of(m)
}

#[test]
fn an_index_tells_places(rt: HostRuntime) {
    let m = tables(&rt);
    let x = index(&rt, &m);
    assert_eq!(rt; x.words(), m.as_slice());
    for (name, place) in [
        (0, Some(0)),
        (1, Some(1)),
        (2, None),
        (3, Some(2)),
        (255, None),
    ] {
        assert_eq!(rt; x.place_of(name), place, "name {name}");
        assert_eq!(rt; x.is_live(name), place.is_some(), "name {name}");
        assert_eq!(rt; x.places().place_of(name), place, "name {name}");
    }
}

#[test]
fn rules_by_an_index(rt: HostRuntime) {
    for (at, word, other, parents, inboxes, notices) in [
        (2, 3, 3, true, true, true), // as they are
        (193, 3, 3, false, true, true), // 1 and 3 are each other's parents
        (209, 256, 3, false, true, true), // 3 has no parent
        (211, 0, 3, true, false, true), // 3 receives from 0
        (211, 256, 3, true, false, true), // 3 receives from anybody
        (195, 1, 3, true, true, false), // 1 is trapped on nobody
        (501, 257, 3, true, false, false), // a notice from 1 to 3, who would receive it
        (501, 257, 0, true, true, false), // a second notice from 1 to 0
    ] {
        let mut m = tables(&rt);
        assert!(rt; at < WORDS);
        m[at] = word;
        m[500] = other; // to whom the second message goes
        let x = index(&rt, &m);
        assert_eq!(rt; parents::parents_right(&x), parents, "word {at}");
        assert_eq!(rt; inboxes::inboxes_right(&x), inboxes, "word {at}");
        assert_eq!(rt; inboxes::notices_right(&x), notices, "word {at}");
    }
}
