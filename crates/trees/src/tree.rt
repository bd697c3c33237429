//! A spanning tree of marked joins. It has no root.
ghost use Rattle.std.specs.Prelude.{◌≡◌, ◌+◌, ◌-◌, cond, length, MatchResult, IfOk, ◌==◌};
ghost use Rattle.theory.specs.Graph.{no_joins, size, table_count};
ghost use Rattle.bits.specs.Table.{graph_of};
ghost use Rattle.spanning.specs.Spanning.{Spanning};
ghost use Rattle.spanning.specs.Laws.{Acyclic};
ghost use Rattle.trees.specs.Tree.{marked, fill_answer, tree_after, FillsExactly, FillRefused};

use super::fault::TreeFault;
use super::forest::Forest;
use bits::table::BitTable;
use graph::graph::ReadableGraph;
use theory::mark::Mark;

/// The marks, kept as the joins of a table of bits.
#[derive(Clone, Copy)]
pub struct SpanningTree {
    marks: BitTable,
    /// No mark lies on a ring of marks.
    ghost acyclic: { Acyclic (graph_of marks) },
    /// There is one mark fewer than tables; so they connect all tables.
    ghost fewer: { size (graph_of marks) + 1 ≡ table_count (graph_of marks) },
}

/// Its tables, and its marks as joins.
impl ReadableGraph for SpanningTree {
    ghost use Rattle.trees.specs.Spanner.{tree_of};
    ghost use Rattle.bits.proofs.Edits.{simple_of};

    ghost meaning = { tree_of };

    ghost simple = { λ s. simple_of s.marks };

    fn tables(&self) -> u32 {
        self.marks.tables()
    }

    // stays: two tables, or a table and a bound, are two arguments, as in the trait
    fn joined(&self, a: u32, b: u32) -> bool {
        self.marks.joined(a, b)
    }

    fn next_neighbour(&self, table: u32, bound: u32) -> Option<u32> {
        self.marks.next_neighbour(table, bound)
    }
}

/// 18 where the marks are not one fewer than the tables.
fn judge_count<G: ReadableGraph>(graph: &G, marks: &[Mark]) -> Result<(), TreeFault>
    ensures { result ≡ cond (length marks.now + 1 == table_count (G.meaning graph.now)) (Ok tt) (Err (TreeFault.WrongCount (table_count (G.meaning graph.now) - 1))) }
{
    let needed = graph.tables() as usize - 1;
    if marks.len() == needed {
        Ok(())
    } else {
        Err(TreeFault::WrongCount { needed })
    }
}

impl SpanningTree {
    ghost use Rattle.trees.specs.Spanner.{tree_of};

    /// The tree of one table, without marks.
    pub fn new() -> SpanningTree
        ensures tree { tree_of result ≡ no_joins 1 }
    {
        SpanningTree {
            marks: BitTable::new(1),
        }
    }

    /// The marks, as a graph: the tables of the tree, and a join for each mark.
    pub fn marks(&self) -> &BitTable
        ensures is { graph_of result.now ≡ tree_of self.now }
        // they connect all tables without a ring
        ensures spanning { Spanning (tree_of self.now) }
    {
        &self.marks
    }

    /// The tree of the marks, where they make one of the graph.
    fn grown<G: ReadableGraph>(graph: &G, marks: &[Mark]) -> Result<SpanningTree, TreeFault>
        ensures answer { MatchResult result (λ t. fill_answer (G.meaning graph.now) marks.now ≡ Ok tt) (λ f. fill_answer (G.meaning graph.now) marks.now ≡ Err f) }
        ensures filled { IfOk result (λ t. tree_of t ≡ marked (table_count (G.meaning graph.now)) marks.now) }
    {
        judge_count(graph, marks)?;
        let mut forest = Forest::new(graph.tables());
        forest.gather(graph, marks)?;
        Ok(SpanningTree {
            marks: forest.marks,
        })
    }

    /// Fills the tree with marks of a graph, in place of what it held, or refuses and keeps that.
    #[tactic(auto, using(crate::proofs::Spans::tree_spans))]
    pub fn fill<G: ReadableGraph>(&mut self, graph: &G, marks: &[Mark]) -> Result<(), TreeFault>
        ensures answer { result ≡ fill_answer (G.ReadableGraph.meaning graph.now) marks.now }
        ensures filled { tree_of self.new ≡ tree_after result (marked (table_count (G.ReadableGraph.meaning graph.now)) marks.now) (tree_of self.old) }
        // it is accepted exactly when the marks make a spanning tree of the graph
        ensures exactly { FillsExactly (G.ReadableGraph.meaning graph.now) marks.now result }
        // what a refusal tells
        ensures refused { FillRefused (G.ReadableGraph.meaning graph.now) marks.now result }
        // and in any case it is a spanning tree
        ensures spanning { Spanning (tree_of self.new) }
    {
        let tree = SpanningTree::grown(graph, marks)?;
        *self = tree;
        Ok(())
    }
}
