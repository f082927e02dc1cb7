// The event program: events on standard input, a line for each field on standard output, and the last line.
// A thin loop over the rounds of crates/stream. No contract can say what is read or written.
#![tactic(auto)]

use lines::last;
use printing::Reading;
use stream::Run;

// A proved loop has to end, and nothing says that the input does: this many rounds no run uses up.
const ROUNDS: u64 = 35184372088832;

// Why the program stops before its input ends. The text is all that is told of it, so it is the error.
const CANNOT_READ: &str = "node: cannot read\n";

const CANNOT_WRITE: &str = "node: cannot write\n";

fn run(rt: &HostRuntime) -> Result<(), &'static str> {
    let mut m = stream::room();
    let mut input = stream::input_buffer();
    let mut out = stream::output_buffer();
    let mut run = Run::begin(&mut m);
    let mut reader = rt.stdin();
    for _ in 0..ROUNDS {
        if run.window.reading == Reading::Ended {
            break;
        }
        run = run.round(&mut reader, &mut m, &mut input, &mut out);
        if run.window.reading == Reading::Failed {
            return Err(CANNOT_READ);
        }
        rt.write_all(&out[..run.filled]).or(Err(CANNOT_WRITE))?;
    }
    // A field that the end of the input cuts off is the last.
    run = run.serve(&mut m, true, &input, &mut out);
    rt.write_all(&out[..run.filled]).or(Err(CANNOT_WRITE))?;
    let n = last::put_last(&mut out, &m);
    rt.write_all(&out[..n]).or(Err(CANNOT_WRITE))
}

fn main(rt: HostRuntime) {
    if let Err(text) = run(&rt) {
        let _ = rt.eprint(text);
    }
}
