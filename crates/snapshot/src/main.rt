// Runs the events on standard input from a start, and writes the dump's bytes to standard output.
// A thin loop over the rounds of crates/stream. Their lines are those of the event program, and are not written.
#![tactic(auto)]

use dumping::writing;
use printing::Reading;
use stream::Run;

// As in the event program: a proved loop has to end.
const ROUNDS: u64 = 35184372088832;

// Why the program stops before its input ends. The text is all that is told of it, so it is the error.
const CANNOT_READ: &str = "snapshot: cannot read\n";

const CANNOT_WRITE: &str = "snapshot: cannot write\n";

fn run(rt: &HostRuntime) -> Result<(), &'static str> {
    let mut m = stream::room();
    let mut input = stream::input_buffer();
    let mut out = stream::output_buffer();
    let mut run = Run::begin(&mut m);
    let mut reader = rt.stdin();
    for _ in 0..ROUNDS {
        if run.window.reading == Reading::Ended {
            break;
        }
        run = run.round(&mut reader, &mut m, &mut input, &mut out);
        if run.window.reading == Reading::Failed {
            return Err(CANNOT_READ);
        }
    }
    // A field that the end of the input cuts off is the last.
    run.serve(&mut m, true, &input, &mut out);
    let n = writing::write_dump(&m, &mut out);
    rt.write_all(&out[..n]).or(Err(CANNOT_WRITE))
}

fn main(rt: HostRuntime) {
    if let Err(text) = run(&rt) {
        let _ = rt.eprint(text);
    }
}
