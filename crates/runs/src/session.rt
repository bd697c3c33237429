//! The memory that a run is lent.
ghost use Rattle.std.specs.Prelude.{◌≡◌, ◌<◌, length};
ghost use Rattle.runs.specs.Turns.{answered_at};

use ledger::call::{Answer, Turn};
use reports::record::ReportRecord;
use theory::mark::Mark;
use theory::step::Step;
use trees::tree::SpanningTree;

/// The memory that a run is lent.
// stays: the marks are only read, so they have a lifetime of their own
#[derive(Drop)]
pub struct Session<'a, 'm> {
    /// The calls, in order; the answers are put beside them.
    pub turns: &'a mut [Turn],
    /// Each list given is laid behind the one before.
    pub steps: &'a mut [Step],
    /// Each report is laid behind the one before.
    pub reports: &'a mut [ReportRecord],
    /// The trees that fillings and driving requests name by their places.
    pub trees: &'a mut [SpanningTree],
    /// The marks that fillings take.
    pub marks: &'m [Mark],
}

impl Session<'_, '_> {
    /// How many calls there are.
    pub(super) fn calls(&self) -> usize
        ensures { result ≡ length self.now.turns.now }
    {
        self.turns.len()
    }
}

/// How many records the lists given so far fill, and how many the reports.
#[derive(Clone, Copy)]
pub(super) struct Filled {
    pub(super) steps: usize,
    pub(super) reports: usize,
}

/// Puts an answer beside its call.
pub(super) fn put_answer(turns: &mut [Turn], turn: usize, answer: Answer)
    requires { turn < length turns.old }
    ensures { turns.new ≡ answered_at turns.old turn answer }
{
    turns[turn].answer = Some(answer);
}
