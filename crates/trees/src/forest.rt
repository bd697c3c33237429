//! Marks without a ring, put in one by one.
ghost use Rattle.std.specs.Prelude.{◌≡◌, ℕ, ◌<◌, ◌≤◌, false, ◌==◌};
ghost use Rattle.theory.specs.Graph.{joining, no_joins, table_count};
ghost use Rattle.bits.specs.Table.{graph_of};
ghost use Rattle.graph.specs.Store.{unjoin_answer};
ghost use Rattle.spanning.specs.Laws.{Acyclic};
ghost use Rattle.trees.specs.Labels.{label};
ghost use Rattle.trees.specs.Forest.{with_marks};
ghost use Rattle.trees.specs.Tree.{leads, mark_answer, marks_judged};

use super::fault::{MarkFault, TreeFault};
use super::labels::Labels;
use bits::table::BitTable;
use graph::fault::{StoreFault, at_place};
use graph::graph::{EditableGraph, ReadableGraph};
use theory::mark::Mark;

/// Marks without a ring, and labels that tell which tables they connect.
#[derive(Clone, Copy)]
pub struct Forest {
    pub marks: BitTable,
    labels: Labels,
    /// No mark lies on a ring of marks.
    ghost acyclic: { Acyclic (graph_of marks) },
    /// Two tables have the same label exactly where the marks lead from one to the other.
    ghost labelled: { (x y : ℕ) → x < table_count (graph_of marks) → y < table_count (graph_of marks) → (label labels x == label labels y) ≡ leads (graph_of marks) x y },
}

/// What stands against a mark as a join of the graph.
fn held<G: ReadableGraph>(graph: &G, mark: Mark) -> Result<(), StoreFault>
    ensures { result ≡ unjoin_answer (G.meaning graph.now) mark.v mark.w }
{
    let Mark { v, w } = mark;
    let tables = graph.tables();
    if v >= tables {
        return Err(StoreFault::UnknownTable { table: v });
    }
    if w >= tables {
        return Err(StoreFault::UnknownTable { table: w });
    }
    if v == w {
        return Err(StoreFault::SameTable { table: v });
    }
    if !graph.joined(v, w) {
        return Err(StoreFault::NotJoined { a: v, b: w });
    }
    Ok(())
}

impl Forest {
    /// The tables alone.
    pub fn new(tables: u32) -> Forest
        requires { (1 ≤ tables) × (tables ≤ 64) }
        ensures { graph_of result.marks ≡ no_joins tables }
    {
        Forest {
            marks: BitTable::new(tables),
            labels: Labels::new(),
        }
    }

    /// What stands against one more mark, of a graph of as many tables.
    pub fn judge<G: ReadableGraph>(&self, graph: &G, mark: Mark) -> Result<(), MarkFault>
        requires { table_count (graph_of self.now.marks) ≡ table_count (G.meaning graph.now) }
        ensures { result ≡ mark_answer (G.meaning graph.now) (graph_of self.now.marks) mark }
    {
        held(graph, mark)?;
        let Mark { v, w } = mark;
        if self.labels.same(v, w) {
            return Err(MarkFault::ClosesRing { v, w });
        }
        Ok(())
    }

    /// Puts in a mark of two tables that the marks do not connect.
    pub fn put(&mut self, mark: Mark)
        requires tables { (mark.v < table_count (graph_of self.old.marks)) × (mark.w < table_count (graph_of self.old.marks)) }
        requires apart { leads (graph_of self.old.marks) mark.v mark.w ≡ false }
        ensures { graph_of self.new.marks ≡ joining (graph_of self.old.marks) mark.v mark.w }
    {
        let Mark { v, w } = mark;
        let _ = self.marks.join(v, w);
        self.labels.merge(v, w);
    }

    /// Puts in marks of a graph of as many tables, in turn, up to the first that is refused.
    pub fn gather<G: ReadableGraph>(&mut self, graph: &G, marks: &[Mark]) -> Result<(), TreeFault>
        requires { table_count (graph_of self.old.marks) ≡ table_count (G.meaning graph.now) }
        ensures answer { result ≡ marks_judged (G.meaning graph.now) (graph_of self.old.marks) 0 marks.now }
        ensures gathered { result ≡ Ok tt → graph_of self.new.marks ≡ with_marks (graph_of self.old.marks) marks.now }
    {
        for (i, mark) in marks.iter().enumerate() {
            at_place(i, self.judge(graph, *mark))?;
            self.put(*mark);
        }
        Ok(())
    }
}
