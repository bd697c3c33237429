//! One call of a run, performed.
ghost use Rattle.std.specs.Prelude.{◌≡◌, ◌≤◌, ◌+◌, ◌-◌, min, length, map};
ghost use Rattle.theory.specs.Graph.{table_count};
ghost use Rattle.assembly.specs.Build.{build_answer, records_after};
ghost use Rattle.driving.specs.Drive.{drive_judged, report_after};
ghost use Rattle.trees.specs.Spanner.{tree_of};
ghost use Rattle.trees.specs.Tree.{marked, fill_answer};
ghost use Rattle.ledger.specs.Run.{lent_from, laid_from, tree_at, planted, given_steps, given_reports, answer_to, state_after};
ghost use Rattle.ledger.specs.declared.call.Answer.TheVariants as answers;
ghost use Rattle.runs.specs.Session.{state_of, Left};

use super::session::{Filled, Session};
use assembly::build::{Built, build};
use driving::drive::drive;
use driving::fault::DriveFault;
use graph::graph::{EditableGraph, ReadableGraph};
use ledger::call::{Answer, Call};
use refusals::build::BuildFault;
use reports::record::ReportRecord;
use theory::mark::Mark;
use theory::step::Step;
use trees::fault::TreeFault;
use trees::tree::SpanningTree;

/// Where the next `records` records behind the first `from` end; with the last of all, where they are fewer.
fn end_of(from: usize, records: usize, all: usize) -> usize
    requires { from ≤ all }
    ensures { result ≡ from + min records (all - from) }
{
    from + records.min(all - from)
}

/// How many records the list of a build request fills.
fn steps_given(outcome: Result<Built, BuildFault>) -> usize
    ensures { result ≡ given_steps outcome }
{
    outcome.map_or(0, |built| built.steps)
}

/// The build request, with a word on how many records are filled.
fn build_within<G: ReadableGraph>(graph: &G, records: &mut [Step]) -> Result<Built, BuildFault>
    ensures answer { result ≡ build_answer (G.meaning graph.now) (length records.old) }
    ensures filled { records.new ≡ records_after (G.meaning graph.now) records.old }
    ensures within { given_steps result ≤ length records.old }
{
    build(graph, records)
}

/// A build request. The list is laid behind the first `laid` records.
fn build_next<G: ReadableGraph>(
    graph: &G,
    records: usize,
    steps: &mut [Step],
    laid: &mut usize,
) -> Answer
    requires { laid.old ≤ length steps.old }
    ensures answer { result ≡ answers.Built laid.old (build_answer (G.meaning graph.now) (length (lent_from laid.old records steps.old))) }
    ensures steps { steps.new ≡ laid_from laid.old records (records_after (G.meaning graph.now) (lent_from laid.old records steps.old)) steps.old }
    ensures laid { laid.new ≡ laid.old + given_steps (build_answer (G.meaning graph.now) (length (lent_from laid.old records steps.old))) }
    ensures within { laid.new ≤ length steps.new }
{
    let from = *laid;
    let end = end_of(from, records, steps.len());
    let outcome = build_within(graph, &mut steps[from..end]);
    *laid = from + steps_given(outcome);
    Answer::Built { from, outcome }
}

/// How many records the report of a driving request fills, of a graph of so many tables.
fn reports_given(tables: u32, outcome: Result<(), DriveFault>) -> usize
    ensures { result ≡ given_reports tables outcome }
{
    outcome.map_or(0, |()| tables as usize)
}

/// The tree at a place; past the end, the tree of one table.
fn tree_named(trees: &[SpanningTree], tree: usize) -> SpanningTree
    ensures { tree_of result ≡ tree_at (map tree_of trees.now) tree }
{
    if tree < trees.len() {
        trees[tree]
    } else {
        SpanningTree::new()
    }
}

/// A driving request. The report is laid behind the first `told` records.
fn drive_next<G: ReadableGraph>(
    graph: &G,
    tree: &SpanningTree,
    records: usize,
    reports: &mut [ReportRecord],
    told: &mut usize,
) -> Answer
    requires { told.old ≤ length reports.old }
    ensures answer { result ≡ answers.Driven told.old (drive_judged (G.meaning graph.now) (tree_of tree.now) (length (lent_from told.old records reports.old))) }
    ensures reports { let lent = lent_from told.old records reports.old in
        reports.new ≡ laid_from told.old records (report_after (drive_judged (G.meaning graph.now) (tree_of tree.now) (length lent)) (G.meaning graph.now) (tree_of tree.now) lent) reports.old }
    ensures told { told.new ≡ told.old + given_reports (table_count (G.meaning graph.now)) (drive_judged (G.meaning graph.now) (tree_of tree.now) (length (lent_from told.old records reports.old))) }
    ensures within { told.new ≤ length reports.new }
{
    let from = *told;
    let end = end_of(from, records, reports.len());
    let outcome = drive(graph, tree, &mut reports[from..end]);
    *told = from + reports_given(graph.tables(), outcome);
    Answer::Driven { from, outcome }
}

/// The `count` marks from the one at `first` on, or those that there are.
fn marks_from(marks: &[Mark], first: usize, count: usize) -> &[Mark]
    ensures { result.now ≡ lent_from first count marks.now }
{
    let rest = &marks[first.min(marks.len())..];
    &rest[..count.min(rest.len())]
}

/// A filling. Where there is no such place, it is judged and kept nowhere.
fn fill_tree<G: ReadableGraph>(
    graph: &G,
    tree: usize,
    marks: &[Mark],
    trees: &mut [SpanningTree],
) -> Result<(), TreeFault>
    ensures answer { result ≡ fill_answer (G.meaning graph.now) marks.now }
    ensures trees { map tree_of trees.new ≡ planted (fill_answer (G.meaning graph.now) marks.now) (marked (table_count (G.meaning graph.now)) marks.now) tree (map tree_of trees.old) }
{
    if tree < trees.len() {
        trees[tree].fill(graph, marks)
    } else {
        SpanningTree::new().fill(graph, marks)
    }
}

/// A filling with some of the marks.
fn fill_at<G: ReadableGraph>(
    graph: &G,
    tree: usize,
    first: usize,
    count: usize,
    marks: &[Mark],
    trees: &mut [SpanningTree],
) -> Result<(), TreeFault>
    ensures answer { result ≡ fill_answer (G.meaning graph.now) (lent_from first count marks.now) }
    ensures trees { let taken = lent_from first count marks.now in
        map tree_of trees.new ≡ planted (fill_answer (G.meaning graph.now) taken) (marked (table_count (G.meaning graph.now)) taken) tree (map tree_of trees.old) }
{
    fill_tree(graph, tree, marks_from(marks, first, count), trees)
}

/// Performs one call.
pub(super) fn perform<G: EditableGraph>(
    graph: &mut G,
    call: Call,
    session: &mut Session,
    filled: &mut Filled,
) -> Answer
    requires steps { filled.old.steps ≤ length session.old.steps.now }
    requires reports { filled.old.reports ≤ length session.old.reports.now }
    ensures answer { result ≡ answer_to (G.limit graph.old) session.old.marks.now (state_of (G.ReadableGraph.meaning graph.old) session.old filled.old.steps filled.old.reports) call }
    ensures meant { state_of (G.ReadableGraph.meaning graph.new) session.new filled.new.steps filled.new.reports ≡ state_after (G.limit graph.old) session.old.marks.now (state_of (G.ReadableGraph.meaning graph.old) session.old filled.old.steps filled.old.reports) call }
    ensures same { G.limit graph.new ≡ G.limit graph.old }
    ensures left { Left session.old session.new }
    ensures turns { session.new.turns.now ≡ session.old.turns.now }
    ensures steps { filled.new.steps ≤ length session.new.steps.now }
    ensures reports { filled.new.reports ≤ length session.new.reports.now }
{
    match call {
        Call::Join { a, b } => Answer::Edited(graph.join(a, b)),
        Call::Unjoin { a, b } => Answer::Edited(graph.unjoin(a, b)),
        Call::Build { records } => build_next(graph, records, session.steps, &mut filled.steps),
        Call::Drive { tree, records } => {
            let trees = &mut *session.trees;
            let named = tree_named(trees, tree);
            drive_next(graph, &named, records, session.reports, &mut filled.reports)
        }
        Call::Fill { tree, first, count } => {
            let marks = session.marks;
            Answer::Filled(fill_at(graph, tree, first, count, marks, session.trees))
        }
        Call::Tables => Answer::Tables(graph.tables()),
        Call::Joined { a, b } => Answer::Joined(graph.joined(a, b)),
        Call::NextNeighbour { table, bound } => {
            Answer::Neighbour(graph.next_neighbour(table, bound))
        }
        Call::Capacity => Answer::Capacity(graph.capacity()),
    }
}
