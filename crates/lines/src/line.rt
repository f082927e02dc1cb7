// The line of a decision.
ghost use Rattle.std.specs.Prelude.{◌≤◌, length};
ghost use Rattle.buffer.specs.Puts.{Puts};
ghost use Rattle.lines.specs.Text.{line};

use crate::decimal;
use rules::Decision;

// The room that a line is given: seven numbers of at most 20 digits, each with a space or the line's end.
pub const ROOM: usize = 160;

pub fn put_line(out: &mut [u8], k: u64, d: Decision) -> usize
    requires { 160 ≤ length out.old }
    ensures { Puts (line k d) out.old out.new result }
{
    let a = d.answer;
    let row = [
        k,
        d.refusal as u64,
        d.status as u64,
        d.runner as u64,
        a.kind() as u64,
        a.sender() as u64,
        a.word() as u64,
    ];
    decimal::put_numbers(out, &row)
}
