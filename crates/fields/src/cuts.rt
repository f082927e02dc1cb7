// The work of the reader, on a slice and a number.
ghost use Rattle.std.specs.Prelude.{◌≡◌};
ghost use Rattle.fields.specs.Fields.{cut, EndOf};

use crate::Cut;
use rules::tags;

// The field at a place.
#[tactic(auto, unfolding(crate::specs::Fields::field_size, crate::specs::Fields::whole))]
pub fn cut_at(input: &[u8], place: usize) -> Cut
    ensures { result ≡ cut input.now place }
{
    let left = rest_at(input, place);
    if let [_, high, low, value @ ..] = left {
        let size = usize::from(u16::from_be_bytes([*high, *low]));
        if size <= value.len() {
            return Cut {
                end: place + tags::BEFORE_VALUE + size,
                whole: true,
            };
        }
    }
    Cut {
        end: place + left.len(),
        whole: false,
    }
}

// The bytes from a place on, where they stand; past the end there are none.
pub fn rest_at(input: &[u8], place: usize) -> &[u8]
    ensures { EndOf input.entry place result }
{
    let start = place.min(input.len());
    &input[start..]
}
