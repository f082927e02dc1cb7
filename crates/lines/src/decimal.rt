// Numbers in decimal, with single spaces between them, at the front of a lent buffer.
ghost use Rattle.std.specs.Prelude.{◌≡◌, ◌+◌, ◌*◌, ◌≤◌, ◌∷◌, length};
ghost use Rattle.buffer.specs.Puts.{Puts};
ghost use Rattle.lines.specs.Text.{decimal, numbers_line};

// No Display: `fmt` writes by a formatter, and a line goes into a lent buffer, of which the clause says each byte.
// From the last digit to the first. Most numbers of a line have one digit, so that case goes by itself.
pub fn put_decimal(out: &mut [u8], n: u64) -> usize
    requires { 20 ≤ length out.old }
    ensures { Puts (decimal n) out.old out.new result }
{
    if n < 10 {
        out[0] = b'0' + n as u8;
        return 1;
    }
    let k = n.ilog10() as usize + 1;
    let mut rest = n;
    for i in (0..k).rev() {
        out[i] = b'0' + (rest % 10) as u8;
        rest /= 10;
    }
    k
}

// A number behind a space.
pub(crate) fn put_spaced(out: &mut [u8], n: u64) -> usize
    requires { 21 ≤ length out.old }
    ensures { Puts (32 ∷ decimal n) out.old out.new result }
{
    out[0] = b' ';
    1 + put_decimal(&mut out[1..], n)
}

// A line of numbers.
pub fn put_numbers(out: &mut [u8], row: &[u64]) -> usize
    requires { 1 + 21 * length row.now ≤ length out.old }
    ensures { Puts (numbers_line row.now) out.old out.new result }
{
    let [first, others @ ..] = row else {
        out[0] = b'\n';
        return 1;
    };
    let mut at = put_decimal(out, *first);
    for n in others {
        at += put_spaced(&mut out[at..], *n);
    }
    out[at] = b'\n';
    at + 1
}
