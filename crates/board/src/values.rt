// The step by value under its entry, its decision as numbers, and the sizes.
ghost use Rattle.std.specs.Prelude.{◌≡◌};
ghost use Rattle.board.specs.Board.{report_of, Steps};

use crate::{Report, Served};
use lending::{Tables, step};
use rules::Decision;

fn report(d: Decision) -> Report
    ensures { result ≡ report_of d }
{
    let a = d.answer;
    Report {
        refusal: d.refusal,
        status: d.status,
        runner: d.runner,
        kind: a.kind(),
        sender: a.sender(),
        word: a.word(),
    }
}

pub fn step_numbers(t: Tables, event: &[u8]) -> Served
    ensures { Steps t.words event.now result.tables.words result.report }
{
    let s = step::step_value(t, event);
    let tables = s.tables;
    let d = s.decision;
    let given = report(d);
    Served {
        tables,
        report: given,
    }
}

// The language has no size_of. These are numbers, and specs/Layout.antt adds the first two up field by field.
pub const TABLES_BYTES: u32 = 2624;

pub const REPORT_BYTES: u32 = 12;

// "1,241 bytes always suffice."
pub const DUMP_BYTES: u32 = 1241;
