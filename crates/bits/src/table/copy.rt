//! A table of bits as a whole: made without joins, or from any readable graph by its questions alone, and given out.
//! stays: the graph is the caller's, and its tables are asked for one by one, so both are arguments.
ghost use Rattle.std.specs.Prelude.{◌≡◌, ℕ, ◌+◌, ◌<◌, length};
ghost use Rattle.theory.specs.Graph.{table_count, is_table, size, no_joins, clamped};
ghost use Rattle.sets.specs.Set.{bit};
ghost use Rattle.bits.specs.Table.{graph_of, rows_of};
ghost use Rattle.bits.specs.Copy.{copied};

use super::BitTable;
use graph::graph::ReadableGraph;
use graph::neighbours::neighbours_of;
use sets::rows::Rows;
use sets::set::TableSet;

/// Puts in the joins of `v` with the tables above it.
fn copy_row<G: ReadableGraph>(graph: &G, v: u32, copy: &mut BitTable)
    requires { (v < table_count (G.meaning graph.now)) × (graph_of copy.old ≡ copied (G.meaning graph.now) v (v + 1)) }
    ensures { graph_of copy.new ≡ copied (G.meaning graph.now) (v + 1) (v + 2) }
{
    for w in neighbours_of(graph, v, v + 1) {
        copy.put(v, w);
    }
}

impl BitTable {
    /// A graph without joins, of as many tables as asked for, but at least 1 and at most 64.
    pub fn new(tables: u32) -> BitTable
        ensures { graph_of result ≡ no_joins (clamped tables) }
    {
        BitTable {
            count: tables.clamp(1, 64),
            rows: Rows::new(),
            joins: 0,
        }
    }

    /// A table of bits with the tables and the joins of a graph. Each join is asked for once.
    pub fn copy_of<G: ReadableGraph>(graph: &G) -> BitTable
        ensures { graph_of result ≡ G.meaning graph.now }
    {
        let tables = graph.tables();
        let mut copy = BitTable::new(tables);
        for v in 0..tables {
            copy_row(graph, v, &mut copy);
        }
        copy
    }

    /// All of its tables.
    pub fn all_tables(&self) -> TableSet
        ensures { (x : ℕ) → bit result x ≡ is_table (graph_of self.now) x }
    {
        TableSet::below(self.count)
    }

    /// The rows: in row `a` are the tables that table `a` is joined with.
    pub fn rows(&self) -> Rows
        ensures is { result ≡ rows_of self.now }
        // one for each of 64 tables
        ensures long { length result ≡ 64 }
    {
        let _ = self.rows.to_array();
        self.rows // a copy
    }

    /// The number of joins.
    pub fn joins(&self) -> u32
        ensures { result ≡ size (graph_of self.now) }
    {
        self.joins
    }
}
