//! The cross counts of all tables.
ghost use Rattle.std.specs.Prelude.{◌≡◌, ℕ, ◌<◌, slice_index};
ghost use Rattle.theory.specs.Graph.{table_count};
ghost use Rattle.spanning.specs.Crossing.{cross_count};
ghost use Rattle.spanning.specs.Laws.{MarksOf};
ghost use Rattle.bits.specs.Table.{graph_of};
ghost use Rattle.traversal.specs.Survey.{Searches};

use super::counters::counters;
use super::subtrees::subtrees_of;
use super::sums::sums;
use bits::table::BitTable;
use graph::graph::ReadableGraph;
use traversal::survey::Survey;

/// For each table the number of cross joins: joins that are not marked, with neither end on the marked path from the table to the
/// other. The cost grows with the number of tables alone.
pub(super) fn cross_counts(graph: &BitTable, marks: &BitTable, survey: &Survey) -> [u32; 64]
    requires { MarksOf (graph_of graph.now) (graph_of marks.now) × Searches (graph_of marks.now) 0 survey.now }
    ensures { (x : ℕ) → x < table_count (graph_of graph.now)
        → slice_index result x ≡ cross_count (graph_of graph.now) (graph_of marks.now) x }
{
    let joins = graph.rows();
    let marked = marks.rows();
    let trees = subtrees_of(&joins, &marked, survey);
    let counters = counters(&joins, &marked, survey, &trees.under, graph.tables());
    sums(survey, trees.cross, &counters)
}
