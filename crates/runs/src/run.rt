//! Runs: the calls of a session performed on any editable graph, one after another; and two runs, on two graphs of any two kinds.
ghost use Rattle.std.specs.Prelude.{◌≡◌};
ghost use Rattle.ledger.specs.RunLaw.{Run, Foretells, OneKeyBetween};
ghost use Rattle.runs.specs.Session.{Ran, Empty, run_of};

use super::perform::perform;
use super::session::{Filled, Session, put_answer};
use graph::graph::EditableGraph;

/// Performs the calls of a session, one after another, and puts each answer beside its call.
///
/// For every graph, `ran` says what is answered, what graph is left and what is left in the records, and `same` that the capacity stays.
/// For a graph that has no joins, the rest says what this amounts to.
pub fn run<G: EditableGraph>(graph: &mut G, session: &mut Session)
    ensures ran { Ran (G.limit graph.old) (G.ReadableGraph.meaning graph.old) (G.ReadableGraph.meaning graph.new) session.old session.new }
    ensures same { G.limit graph.new ≡ G.limit graph.old }
    // every answer, the graph and the records are what the ledger foretells, which is fed the calls alone
    ensures foretold { Empty (G.ReadableGraph.meaning graph.old)
        → Foretells (run_of (G.limit graph.old) (G.ReadableGraph.meaning graph.old) (G.ReadableGraph.meaning graph.new) session.old session.new) }
    // a list given, and one given in any run whatever on a graph without joins, be it this run itself, are equal exactly when at those two
    // requests the last accepted call on every pair was a join in both, or in neither
    ensures keys { Empty (G.ReadableGraph.meaning graph.old) → (other : Run) → Foretells other
        → OneKeyBetween (run_of (G.limit graph.old) (G.ReadableGraph.meaning graph.old) (G.ReadableGraph.meaning graph.new) session.old session.new) other }
{
    let mut filled = Filled {
        steps: 0,
        reports: 0,
    };
    for i in 0..session.calls() {
        let call = session.turns[i].call;
        let answer = perform(graph, call, session, &mut filled);
        put_answer(session.turns, i, answer);
    }
}

/// Two runs, on two graphs of any two kinds.
///
/// For every two graphs, `first_ran` and `second_ran` say what is answered and what is left by each, and the capacities stay. For graphs that
/// have no joins, the rest says what this amounts to.
pub fn run_two<G: EditableGraph, H: EditableGraph>(
    first: &mut G,
    second: &mut H,
    one: &mut Session,
    two: &mut Session,
)
    ensures first_ran { Ran (G.limit first.old) (G.ReadableGraph.meaning first.old) (G.ReadableGraph.meaning first.new) one.old one.new }
    ensures second_ran { Ran (H.limit second.old) (H.ReadableGraph.meaning second.old) (H.ReadableGraph.meaning second.new) two.old two.new }
    ensures first_same { G.limit first.new ≡ G.limit first.old }
    ensures second_same { H.limit second.new ≡ H.limit second.old }
    // every answer, the graphs and the records are what the ledgers foretell, each of which is fed the calls of its run alone
    ensures first_foretold { Empty (G.ReadableGraph.meaning first.old)
        → Foretells (run_of (G.limit first.old) (G.ReadableGraph.meaning first.old) (G.ReadableGraph.meaning first.new) one.old one.new) }
    ensures second_foretold { Empty (H.ReadableGraph.meaning second.old)
        → Foretells (run_of (H.limit second.old) (H.ReadableGraph.meaning second.old) (H.ReadableGraph.meaning second.new) two.old two.new) }
    // any two lists given, in one run or one in each, are equal exactly when at those two requests the last accepted call on every pair
    // was a join in both, or in neither
    ensures first_keys { let runs = run_of (G.limit first.old) (G.ReadableGraph.meaning first.old) (G.ReadableGraph.meaning first.new) one.old one.new in
        Empty (G.ReadableGraph.meaning first.old) → OneKeyBetween runs runs }
    ensures second_keys { let runs = run_of (H.limit second.old) (H.ReadableGraph.meaning second.old) (H.ReadableGraph.meaning second.new) two.old two.new in
        Empty (H.ReadableGraph.meaning second.old) → OneKeyBetween runs runs }
    ensures keys { Empty (G.ReadableGraph.meaning first.old) → Empty (H.ReadableGraph.meaning second.old)
        → OneKeyBetween (run_of (G.limit first.old) (G.ReadableGraph.meaning first.old) (G.ReadableGraph.meaning first.new) one.old one.new)
        (run_of (H.limit second.old) (H.ReadableGraph.meaning second.old) (H.ReadableGraph.meaning second.new) two.old two.new) }
{
    run(first, one);
    run(second, two);
}
