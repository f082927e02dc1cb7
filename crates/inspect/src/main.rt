// Reads a dump on standard input. First line: refusal and offset. Then, if it is one, a line for each field: the tag, and its values in
// decimal.
#![tactic(auto)]

ghost use Rattle.std.specs.Prelude.{◌≡◌, length};

use lines::{decimal, tables};
use loading::load;
use printing::{Reading, Span};

// Room for the input. All of it must be there to be judged, so that bytes that fill the buffer are not.
const ROOM: usize = 1048576;

// Each round but the last reads a byte or more.
const ROUNDS: u64 = 1048577;

// Why the program stops before its output. The text is all that is told of it, so it is the error.
const CANNOT_READ: &str = "inspect: cannot read\n";

const CANNOT_WRITE: &str = "inspect: cannot write\n";

const TOO_LONG: &str = "inspect: too long\n";

// A function, as the rooms of crates/stream: so its length is known by its clause.
fn buffer() -> [u8; 1048576]
    ensures { 1048576 ≡ length result }
{
    [0; ROOM]
}

fn run(rt: &HostRuntime) -> Result<(), &'static str> {
    let mut m = stream::room();
    let mut input = buffer();
    let mut out = stream::output_buffer();
    let mut w = Span {
        at: 0,
        held: 0,
        reading: Reading::Open,
    };
    let mut reader = rt.stdin();
    for _ in 0..ROUNDS {
        if w.reading == Reading::Ended {
            break;
        }
        w = w.refill(&mut reader, &mut input);
        if w.reading == Reading::Failed {
            return Err(CANNOT_READ);
        }
    }
    if w.held == ROOM {
        return Err(TOO_LONG);
    }
    let v = load::load_in(&mut m, &input[..w.held]);
    let k = decimal::put_numbers(&mut out, &[v.refusal as u64, v.offset as u64]);
    rt.write_all(&out[..k]).or(Err(CANNOT_WRITE))?;
    if v.refusal != 0 {
        return Ok(());
    }
    let n = tables::put_tables(&mut out, &m);
    rt.write_all(&out[..n]).or(Err(CANNOT_WRITE))
}

fn main(rt: HostRuntime) {
    if let Err(text) = run(&rt) {
        let _ = rt.eprint(text);
    }
}
