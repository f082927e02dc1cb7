// How a field opens: its tag and its length, and the value behind them.
ghost use Rattle.std.specs.Prelude.{◌≡◌, ◌≤◌, length};
ghost use Rattle.loading.specs.Reading.{opens as Opens_of, FieldAt};

use rules::tags;

// Do the bytes start with a whole field of this tag and this length?
#[tactic(auto, unfolding(crate::specs::Reading::opens))]
pub fn opens(s: &[u8], tag: u8, size: u8) -> bool
    ensures { result ≡ Opens_of tag size s.now }
{
    match s {
        [t, high, low, rest @ ..] => {
            *t == tag
                && u16::from_be_bytes([*high, *low]) == u16::from(size)
                && usize::from(size) <= rest.len()
        }
        _ => false,
    }
}

// The value of the field of this tag and this length that starts at a place, if one does.
pub fn value_at(bytes: &[u8], at: usize, tag: u8, size: u8) -> Option<&[u8]>
    requires { at ≤ length bytes.now }
    ensures { FieldAt tag size bytes.now at result }
{
    if !opens(&bytes[at..], tag, size) {
        return None;
    }
    let start = at + tags::BEFORE_VALUE;
    let end = start + usize::from(size);
    Some(&bytes[start..end])
}
