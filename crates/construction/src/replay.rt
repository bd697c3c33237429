//! A build list played back into any editable graph: a triangle, steps one after another, and a look at whether all
//! tables are in use. The tables in use are kept as a set; the joins are kept by the graph alone.
//!
//! The inner functions are small, one for each thing that is judged or done. Those that change something say in `answer`
//! what they answer, in `meant` what they leave (a refusal changes nothing), and in `same` that the capacity stays.
//! stays: a caller knows of a graph that it lent no more than the contract of the call says, so each says `same`. The graph and
//! the tables in use are two parameters: of a struct with the graph in a field each method would owe, besides, that it lends
//! the same graph on. Where they are only read, they and the tables of a step are parameters of their own: a struct of them
//! would be made for the call and taken apart in it.
ghost use Rattle.std.specs.Prelude.{◌≡◌, ℕ, ◌<◌, ◌≤◌, true, false, Ok, ◌≢◌};
ghost use Rattle.theory.specs.Graph.{joined as joins, table_count, unjoining, some_join};
ghost use Rattle.theory.specs.declared.step.Step.TheVariants.{Edge, Node};
ghost use Rattle.graph.specs.Store.{unjoin_answer};
ghost use Rattle.sets.specs.Set.{bit};
ghost use Rattle.construction.specs.Replay.{start_answer, started, step_answer, step_after, close_from, replayed};
ghost use Rattle.construction.specs.Law.{AcceptedExactly, AcceptedWithRoom, RefusedAtFirst, UnusedTold, StartTold};
ghost use Rattle.construction.specs.Inner.{under_way, left, WithinUse, corners, used_answer, edge_used, named_answer, node_judged, held_answer, splice_answer, spliced};

use graph::fault::{At, StoreFault, at_place};
use graph::graph::{EditableGraph, ReadableGraph};
use refusals::fault::ReplayFault;
use sets::set::TableSet;
use theory::step::{Step, Triangle};

/// Whether a table has a neighbour.
fn has_neighbour<G: ReadableGraph>(graph: &G, table: u32) -> bool
    ensures one { result ≡ true → (x : ℕ) × (joins (G.meaning graph.now) table x ≡ true) }
    ensures none { result ≡ false → (x : ℕ) → joins (G.meaning graph.now) table x ≡ false }
{
    graph.next_neighbour(table, 0).is_some()
}

/// Whether there is any join: a table that has a neighbour.
fn has_joins<G: ReadableGraph>(graph: &G) -> bool
    ensures { result ≡ some_join (G.meaning graph.now) }
{
    (0..graph.tables()).any(|table| has_neighbour(graph, table))
}

/// What stands against a triangle at the start: 10, 11 and 5.
fn judge_start<G: EditableGraph>(graph: &G, t: Triangle) -> Result<(), ReplayFault>
    ensures { result ≡ start_answer (G.ReadableGraph.meaning graph.now) (G.limit graph.now) t }
{
    if has_joins(graph) {
        return Err(ReplayFault::HasJoins);
    }
    if !(t.a < t.b && t.b < t.c && t.c < graph.tables()) {
        return Err(ReplayFault::NotTriangle);
    }
    let capacity = graph.capacity();
    if capacity < 3 {
        return Err(ReplayFault::Store {
            step: 0,
            fault: StoreFault::Full { capacity },
        });
    }
    Ok(())
}

/// Joins the three tables of a triangle. Where nothing stands against it, the store refuses none of its joins.
fn start<G: EditableGraph>(graph: &mut G, t: Triangle) -> Result<(), ReplayFault>
    ensures answer { result ≡ start_answer (G.ReadableGraph.meaning graph.old) (G.limit graph.old) t }
    ensures meant { G.ReadableGraph.meaning graph.new ≡ left result (started (G.ReadableGraph.meaning graph.old) t).graph (G.ReadableGraph.meaning graph.old) }
    ensures same { G.limit graph.new ≡ G.limit graph.old }
{
    judge_start(graph, t)?;
    at_place(0, graph.join(t.a, t.b))?;
    at_place(0, graph.join(t.a, t.c))?;
    at_place(0, graph.join(t.b, t.c))?;
    Ok(())
}

/// The two tables of a step that have to be in use, with the step's number, by which a refusal names it.
#[derive(Clone, Copy)]
struct Ends {
    step: usize,
    v: u32,
    w: u32,
}

/// A node step: the new table, and the two that it is put between.
#[derive(Clone, Copy)]
struct NodeStep {
    u: u32,
    ends: Ends,
}

/// 1 and 2 for the tables of a node step.
fn named(tables: u32, node: NodeStep) -> Result<(), StoreFault>
    ensures { result ≡ named_answer tables node.u node.ends.v node.ends.w }
{
    let NodeStep { u, ends } = node;
    let Ends { v, w, .. } = ends;
    if u >= tables {
        Err(StoreFault::UnknownTable { table: u })
    } else if v >= tables {
        Err(StoreFault::UnknownTable { table: v })
    } else if w >= tables {
        Err(StoreFault::UnknownTable { table: w })
    } else if u == v || u == w {
        Err(StoreFault::SameTable { table: u })
    } else if v == w {
        Err(StoreFault::SameTable { table: v })
    } else {
        Ok(())
    }
}

/// The tables of a triangle, which are the first in use.
fn seated(t: Triangle) -> TableSet
    requires { (t.a < 64) × ((t.b < 64) × (t.c < 64)) }
    ensures { (x : ℕ) → bit result x ≡ corners t x }
{
    TableSet::new().with(t.a).with(t.b).with(t.c)
}

/// 13 where a table that a step needs is not in use: `v`, or else `w`.
fn judge_ends(used: TableSet, ends: Ends) -> Result<(), ReplayFault>
    ensures { result ≡ used_answer (bit used) ends.step ends.v ends.w }
{
    let Ends { step, v, w } = ends;
    if !used.contains(v) {
        Err(ReplayFault::NotInUse { step, table: v })
    } else if !used.contains(w) {
        Err(ReplayFault::NotInUse { step, table: w })
    } else {
        Ok(())
    }
}

/// 13 for an edge step. Where the store will refuse with 1 or 2, which come first, it is left to do so.
fn judge_edge<G: ReadableGraph>(graph: &G, used: TableSet, ends: Ends) -> Result<(), ReplayFault>
    ensures { result ≡ edge_used (table_count (G.meaning graph.now)) (bit used) ends.step ends.v ends.w }
{
    let tables = graph.tables();
    if ends.v < tables && ends.w < tables && ends.v != ends.w {
        judge_ends(used, ends)
    } else {
        Ok(())
    }
}

/// What can be wrong with the tables of a node step: 1, 2, 12 and 13.
fn judge_node<G: ReadableGraph>(
    graph: &G,
    used: TableSet,
    node: NodeStep,
) -> Result<(), ReplayFault>
    ensures { result ≡ node_judged (table_count (G.meaning graph.now)) (bit used) node.ends.step node.u node.ends.v node.ends.w }
{
    let NodeStep { u, ends } = node;
    at_place(ends.step, named(graph.tables(), node))?;
    if used.contains(u) {
        return Err(ReplayFault::InUse {
            step: ends.step,
            table: u,
        });
    }
    judge_ends(used, ends)
}

/// 14 with the lowest table that is not in use.
fn close<G: ReadableGraph>(graph: &G, used: TableSet) -> Result<(), ReplayFault>
    ensures { result ≡ close_from 0 (table_count (G.meaning graph.now)) (bit used) }
{
    let unused = TableSet::below(graph.tables()).difference(used);
    match unused.first() {
        Some(table) => Err(ReplayFault::Unused { table }),
        None => Ok(()),
    }
}

/// An edge step.
fn take_edge<G: EditableGraph>(graph: &mut G, used: TableSet, ends: Ends) -> Result<(), ReplayFault>
    ensures answer { result ≡ step_answer (G.limit graph.old) ends.step (under_way (G.ReadableGraph.meaning graph.old) used) (Edge ends.v ends.w) }
    ensures meant { under_way (G.ReadableGraph.meaning graph.new) used ≡ left result (step_after (under_way (G.ReadableGraph.meaning graph.old) used) (Edge ends.v ends.w)) (under_way (G.ReadableGraph.meaning graph.old) used) }
    ensures same { G.limit graph.new ≡ G.limit graph.old }
{
    judge_edge(graph, used, ends)?;
    at_place(ends.step, graph.join(ends.v, ends.w))?;
    Ok(())
}

/// 4 where the two tables are not joined.
fn held<G: ReadableGraph>(graph: &G, ends: Ends) -> Result<(), StoreFault>
    ensures { result ≡ held_answer (G.meaning graph.now) ends.v ends.w }
{
    let Ends { v, w, .. } = ends;
    if graph.joined(v, w) {
        Ok(())
    } else {
        Err(StoreFault::NotJoined { a: v, b: w })
    }
}

/// Takes the join of the two tables out, which is there, so that the store never refuses. What lets it be taken out stands here,
/// apart from the answers of the two joins that are made around it.
fn take_out<G: EditableGraph>(graph: &mut G, ends: Ends) -> Result<(), At<StoreFault>>
    requires able { unjoin_answer (G.ReadableGraph.meaning graph.old) ends.v ends.w ≡ Ok tt }
    requires there { held_answer (G.ReadableGraph.meaning graph.old) ends.v ends.w ≡ Ok tt }
    ensures answer { result ≡ Ok tt }
    ensures meant { G.ReadableGraph.meaning graph.new ≡ unjoining (G.ReadableGraph.meaning graph.old) ends.v ends.w }
    ensures same { G.limit graph.new ≡ G.limit graph.old }
{
    at_place(ends.step, graph.unjoin(ends.v, ends.w))?;
    Ok(())
}

/// Puts the new table, which has no joins, into the join of the two ends. Of the three edits only the first can be
/// refused, by 5, and then nothing has changed.
fn splice<G: EditableGraph>(graph: &mut G, node: NodeStep) -> Result<(), ReplayFault>
    requires tables { (node.u < table_count (G.ReadableGraph.meaning graph.old)) × ((node.ends.v < table_count (G.ReadableGraph.meaning graph.old)) × (node.ends.w < table_count (G.ReadableGraph.meaning graph.old))) }
    requires apart { (node.u ≢ node.ends.v) × ((node.u ≢ node.ends.w) × (node.ends.v ≢ node.ends.w)) }
    requires alone { (x : ℕ) → joins (G.ReadableGraph.meaning graph.old) node.u x ≡ false }
    ensures answer { result ≡ splice_answer (G.ReadableGraph.meaning graph.old) (G.limit graph.old) node.ends.step node.ends.v node.ends.w }
    ensures meant { G.ReadableGraph.meaning graph.new ≡ left result (spliced (G.ReadableGraph.meaning graph.old) node.u node.ends.v node.ends.w) (G.ReadableGraph.meaning graph.old) }
    ensures same { G.limit graph.new ≡ G.limit graph.old }
{
    let NodeStep { u, ends } = node;
    at_place(ends.step, held(graph, ends))?;
    at_place(ends.step, graph.join(u, ends.v))?;
    take_out(graph, ends)?;
    at_place(ends.step, graph.join(u, ends.w))?;
    Ok(())
}

/// A node step. That every join is between tables in use tells that a table not in use has none.
fn take_node<G: EditableGraph>(
    graph: &mut G,
    used: &mut TableSet,
    node: NodeStep,
) -> Result<(), ReplayFault>
    requires { WithinUse (G.ReadableGraph.meaning graph.old) (bit used.old) }
    ensures answer { result ≡ step_answer (G.limit graph.old) node.ends.step (under_way (G.ReadableGraph.meaning graph.old) used.old) (Node node.u node.ends.v node.ends.w) }
    ensures meant { under_way (G.ReadableGraph.meaning graph.new) used.new ≡ left result (step_after (under_way (G.ReadableGraph.meaning graph.old) used.old) (Node node.u node.ends.v node.ends.w)) (under_way (G.ReadableGraph.meaning graph.old) used.old) }
    ensures same { G.limit graph.new ≡ G.limit graph.old }
{
    judge_node(graph, *used, node)?;
    splice(graph, node)?;
    *used = used.with(node.u);
    Ok(())
}

/// One step of the list.
fn take_step<G: EditableGraph>(
    graph: &mut G,
    used: &mut TableSet,
    number: usize,
    step: Step,
) -> Result<(), ReplayFault>
    requires { WithinUse (G.ReadableGraph.meaning graph.old) (bit used.old) }
    ensures answer { result ≡ step_answer (G.limit graph.old) number (under_way (G.ReadableGraph.meaning graph.old) used.old) step }
    ensures meant { under_way (G.ReadableGraph.meaning graph.new) used.new ≡ left result (step_after (under_way (G.ReadableGraph.meaning graph.old) used.old) step) (under_way (G.ReadableGraph.meaning graph.old) used.old) }
    ensures same { G.limit graph.new ≡ G.limit graph.old }
{
    match step {
        Step::Edge { v, w } => take_edge(graph, *used, Ends { step: number, v, w }),
        Step::Node { u, v, w } => {
            let ends = Ends { step: number, v, w };
            take_node(graph, used, NodeStep { u, ends })
        }
    }
}

/// Plays a build list into a graph, up to the first refusal. A refused step leaves the graph as the steps before it made
/// it, and a refused triangle leaves it as it was.
///
/// For every graph, triangle and list, `answer` says what is answered, `meant` what graph is left, `same` that its
/// capacity stays, and `start` that a refused triangle leaves the graph as it was. For a graph that has no joins, the rest
/// says what this amounts to:
/// `accepted`, that the list is accepted exactly when it is a legal build of the graph that is left;
/// `room`, that where the capacity suffices for all of its joins it is accepted exactly when it is a legal build of some
/// graph of as many tables;
/// `refused`, that a refused step is the first that is not allowed, and is refused for the first condition that it fails;
/// `unused`, that a refusal at the close comes after all steps, each allowed, and names the lowest table not in use.
pub fn replay<G: EditableGraph>(
    graph: &mut G,
    triangle: Triangle,
    steps: &[Step],
) -> Result<(), ReplayFault>
    ensures answer { result ≡ (replayed (G.limit graph.old) (G.ReadableGraph.meaning graph.old) triangle steps.now).told }
    ensures meant { G.ReadableGraph.meaning graph.new ≡ (replayed (G.limit graph.old) (G.ReadableGraph.meaning graph.old) triangle steps.now).graph }
    ensures same { G.limit graph.new ≡ G.limit graph.old }
    ensures accepted { AcceptedExactly (G.ReadableGraph.meaning graph.old) triangle steps.now result (G.ReadableGraph.meaning graph.new) }
    ensures room { AcceptedWithRoom (G.limit graph.old) (G.ReadableGraph.meaning graph.old) triangle steps.now result }
    ensures refused { RefusedAtFirst (G.limit graph.old) (G.ReadableGraph.meaning graph.old) triangle steps.now result (G.ReadableGraph.meaning graph.new) }
    ensures unused { UnusedTold (G.ReadableGraph.meaning graph.old) triangle steps.now result (G.ReadableGraph.meaning graph.new) }
    ensures start { StartTold (G.ReadableGraph.meaning graph.old) result (G.ReadableGraph.meaning graph.new) }
{
    start(graph, triangle)?;
    let mut used = seated(triangle);
    for (i, step) in steps.iter().enumerate() {
        take_step(graph, &mut used, i + 1, *step)?;
    }
    close(graph, used)
}
