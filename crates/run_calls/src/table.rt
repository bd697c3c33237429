//! Tables of calls, each beside the answer that is expected of it.
ghost use Rattle.std.specs.Prelude.{◌≤◌};

use assembly::build::Built;
use ledger::call::{Answer, Call, Turn};
use refusals::build::BuildFault;
use std::process::Abort;
use theory::step::{Step, Triangle};

/// A call, and the answer that is expected of it.
pub(super) type Row = (Call, Answer);

/// A join or an unjoin that is accepted.
pub(super) const DONE: Answer = Answer::Edited(Ok(()));

/// A record that no list has.
pub(super) const BLANK: Step = Step::Edge { v: 7, w: 7 };

// The steps of the list of the graph of five tables with the joins 0–1, 0–4, 1–2, 1–3, 2–3 and 3–4.
pub(super) const PUT_3: Step = Step::Node { u: 3, v: 0, w: 2 };

pub(super) const JOIN_1_3: Step = Step::Edge { v: 1, w: 3 };

pub(super) const PUT_4: Step = Step::Node { u: 4, v: 0, w: 3 };

/// A list of three steps after the triangle of the first three tables.
pub(super) const THREE: Result<Built, BuildFault> = Ok(Built {
    triangle: FIRST,
    steps: 3,
});

/// The first three tables.
pub(super) const FIRST: Triangle = Triangle { a: 0, b: 1, c: 2 };

/// The calls of a table, not yet performed.
pub(super) fn asked<const N: usize>(table: &[Row; N]) -> [Turn; N]
    requires { N ≤ 64 }
{
    table.map(|(call, _)| Turn { call, answer: None })
}

/// Each call has the answer that the table has beside it.
pub(super) fn compare(rt: &impl Abort, turns: &[Turn], table: &[Row]) {
    assert_eq!(rt; turns.len(), table.len());
    for (turn, (call, answer)) in turns.iter().zip(table) {
        let expected = Turn {
            call: *call,
            answer: Some(*answer),
        };
        assert_eq!(rt; *turn, expected);
    }
}
