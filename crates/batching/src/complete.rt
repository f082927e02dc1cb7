// The complete fields at the front of some bytes.
ghost use Rattle.batching.specs.Batching.{AllCounted};

use fields::reader::Reader;

// How many there are, and where the last one ends.
#[derive(Clone, Copy)]
pub struct Complete {
    pub count: usize,
    pub end: usize,
}

pub fn count_complete(events: &[u8]) -> Complete
    ensures { AllCounted events.now result }
{
    let mut count = 0;
    let mut end = 0;
    for field in Reader::new(events) {
        count += 1;
        end += field.len();
    }
    Complete { count, end }
}
