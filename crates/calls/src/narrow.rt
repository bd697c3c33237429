//! A table of bits that takes fewer joins than it has room for.
ghost use Rattle.std.specs.Prelude.{◌≡◌, ℕ, min, ◌≤◌};
ghost use Rattle.theory.specs.Graph.{size, no_joins, clamped};
ghost use Rattle.bits.specs.Table.{graph_of};
ghost use Rattle.bits.specs.contracts.table.BitTableReadableGraph.TheImpl.Laws.{simple-law};

use bits::table::BitTable;
use graph::fault::StoreFault;
use graph::graph::{EditableGraph, ReadableGraph};

/// A graph of at most `most` joins.
#[derive(Clone, Copy)]
pub struct Narrow {
    graph: BitTable,
    most: u32,
    /// It has no more.
    ghost fits: { size (graph_of graph) ≤ most },
    /// A table of bits has room for them.
    ghost low: { most ≤ 2016 },
}

impl ReadableGraph for Narrow {
    ghost meaning = { λ s. graph_of s.graph };

    ghost simple = { λ s. simple-law s.graph };

    fn tables(&self) -> u32 {
        self.graph.tables()
    }

    // stays: a store in front of another hands each question on to it
    fn joined(&self, a: u32, b: u32) -> bool {
        self.graph.joined(a, b)
    }

    fn next_neighbour(&self, table: u32, bound: u32) -> Option<u32> {
        self.graph.next_neighbour(table, bound)
    }
}

impl EditableGraph for Narrow {
    ghost limit = { λ s. s.most };

    ghost within = { λ s. s.fits };

    ghost bounded = { λ s. s.low };

    fn capacity(&self) -> u32 {
        self.most
    }

    fn join(&mut self, a: u32, b: u32) -> Result<(), StoreFault> {
        // a copy takes the pair, and is kept unless that is one too many
        let mut joined = self.graph;
        joined.join(a, b)?;
        if joined.joins() > self.most {
            return Err(StoreFault::Full {
                capacity: self.most,
            });
        }
        self.graph = joined;
        Ok(())
    }

    fn unjoin(&mut self, a: u32, b: u32) -> Result<(), StoreFault> {
        self.graph.unjoin(a, b)
    }
}

impl Narrow {
    /// A graph without joins, of at most `most` joins, and of no more than a table of bits has room for.
    pub fn new(tables: u32, most: u32) -> Narrow
        ensures empty { graph_of result.graph ≡ no_joins (clamped tables) }
        ensures narrow { result.most ≡ min most 2016 }
    {
        Narrow {
            graph: BitTable::new(tables),
            most: most.min(2016),
        }
    }
}
