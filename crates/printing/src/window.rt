// A window over the input: what has been read and is not served yet. The input streams through one buffer.
ghost use Rattle.std.specs.Prelude.{◌≡◌, ◌+◌, ◌<◌, ◌≤◌, length};
ghost use Rattle.printing.specs.Input.{Settled, Refilled, moved, heard as heard_of};

use crate::{Reading, Span};
use std::io::Read;

// The window after a read behind the first `left` bytes: how many it put there, or none where it failed.
fn heard(left: usize, got: Option<usize>) -> Span
    requires { left + moved got < 18446744073709551616 }
    ensures { result ≡ heard_of left got }
{
    Span {
        at: 0,
        held: left + got.unwrap_or(0),
        reading: match got {
            None => Reading::Failed,
            Some(0) => Reading::Ended,
            Some(_) => Reading::Open,
        },
    }
}

impl Span {
    // What waits moves to the front of the buffer, if it does not stand there: else each read of a long input would copy all that came before
    // it. The answer: how many bytes that is.
    fn settle(self, buf: &mut [u8]) -> usize
        requires { (self.at ≤ self.held) × (self.held ≤ length buf.old) }
        ensures { Settled self buf.old buf.new result }
    {
        let n = self.held - self.at;
        if self.at > 0 {
            buf.copy_within(self.at..self.held, 0);
        }
        n
    }

    // That the window lies in the buffer is a clause: the buffer's length is no part of the window.
    // What comes next is read behind what waits. What the read answers is handed on as it is: no contract can say it.
    pub fn refill<R: Read>(self, reader: &mut R, buf: &mut [u8]) -> Span
        requires { (self.at ≤ self.held) × (self.held ≤ length buf.old) }
        ensures { Refilled self buf.old result buf.new }
    {
        let left = self.settle(buf);
        heard(left, reader.read(&mut buf[left..]).ok())
    }
}
