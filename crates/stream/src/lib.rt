// The loop that the programs share, a round at a time: the fields that have been read are served (crates/printing), and where none is left
// that is all there, more is read. What is written and what is left to serve is promised exactly, but for the bytes that a read gives.
#![tactic(auto)]

ghost use Rattle.std.specs.Prelude.{◌≡◌, ◌+◌, ◌≤◌, length};
ghost use Rattle.rules.specs.Numbers.{small};
ghost use Rattle.memory.specs.Layout.{size};
ghost use Rattle.stream.specs.Stream.{Right, Begins, Serves, Reads, Rounds};

use printing::{Reading, Span, turn};
use std::io::Read;

// The number of the next line, the window over the input's buffer, and how many bytes of lines wait to be written.
#[derive(Clone, Copy)]
pub struct Run {
    pub line: u64,
    pub window: Span,
    pub filled: usize,
}

// Three rooms by name: each size is in the clauses of who asks for it, and one function of a size would say no more than `[0; N]`.
// Room for the input: no field is longer than 65,538 bytes, so that a window without a whole field has room for more.
pub fn input_buffer() -> [u8; 131072]
    ensures { 131072 ≡ length result }
{
    [0; 131072]
}

// Room for the lines of one turn.
pub fn output_buffer() -> [u8; 65536]
    ensures { 65536 ≡ length result }
{
    [0; 65536]
}

// Room for tables of 20 threads and 20 blocks.
pub fn room() -> [u32; 656]
    ensures { 656 ≡ length result }
{
    [0; 656]
}

impl Run {
    // From a start: nothing is read yet.
    pub fn begin(m: &mut [u32]) -> Run
        requires { size small ≤ length m.old }
        ensures { Begins m.new result }
    {
        lending::start::start_in(m);
        Run {
            line: 1,
            window: Span {
                at: 0,
                held: 0,
                reading: Reading::Open,
            },
            filled: 0,
        }
    }

    // The fields in the window are served. `last`: nothing comes behind them.
    pub fn serve(self, m: &mut [u32], last: bool, input: &[u8], out: &mut [u8]) -> Run
        requires { Right m.old self (length input.now) (length out.old) × (self.line + length input.now ≤ 9223372036854775808) }
        ensures { Serves m.old self last input.now out.old out.new m.new result }
    {
        let window = self.window;
        let t = turn::turn(m, self.line, &input[window.at..window.held], last, out);
        Run {
            line: t.line,
            window: Span {
                at: window.at + t.used,
                ..window
            },
            filled: t.filled,
        }
    }

    // More is read behind the window.
    pub fn read_more<R: Read>(self, reader: &mut R, input: &mut [u8]) -> Run
        requires { (self.window.at ≤ self.window.held) × (self.window.held ≤ length input.old) }
        ensures { Reads self input.old input.new result }
    {
        Run {
            window: self.window.refill(reader, input),
            ..self
        }
    }

    // One round: lines to be written, or more read.
    pub fn round<R: Read>(
        self,
        reader: &mut R,
        m: &mut [u32],
        input: &mut [u8],
        out: &mut [u8],
    ) -> Run
        requires { Right m.old self (length input.old) (length out.old) × (self.line + length input.old ≤ 9223372036854775808) }
        ensures { Rounds m.old self input.old out.old m.new input.new out.new
            result }
    {
        let v = self.serve(m, false, input, out);
        if 0 < v.filled {
            return v;
        }
        v.read_more(reader, input)
    }
}
