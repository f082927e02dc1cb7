// One turn of the event program: the fields that have been read are served, and their lines put into a buffer.
ghost use Rattle.std.specs.Prelude.{◌+◌, ◌<◌, length};
ghost use Rattle.printing.specs.Printing.{Standing, Turns};

use crate::Turned;
use lines::line;
use stepping::step;

// `ended` says that nothing comes behind the input: a field that is cut off is then answered too. It is
// a fact of the input, which the claims' Turns has as a Bool. No `for`: a turn also ends where the next line has no room.
pub fn turn(m: &mut [u32], first: u64, input: &[u8], ended: bool, out: &mut [u8]) -> Turned
    requires { Standing m.old × (first + length input.now < 18446744073709551616) }
    ensures { Turns m.old first input.now ended out.old out.new result m.new }
{
    let mut line = first;
    let mut used = 0;
    let mut filled = 0;
    // A `for` over the fields' reader would end before a field that is cut off, which is answered too where nothing comes behind it.
    while used < input.len() {
        let next = fields::field_at(input, used);
        if !next.whole && !ended {
            return Turned { line, used, filled };
        }
        if out.len() - filled < line::ROOM {
            return Turned { line, used, filled };
        }
        let end = next.end;
        let d = step::step(m, &input[used..end]);
        filled += line::put_line(&mut out[filled..], line, d);
        line += 1;
        used = end;
    }
    Turned { line, used, filled }
}
