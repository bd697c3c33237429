//! The neighbours of a table, one after another.
ghost use Rattle.std.specs.Prelude.{◌≡◌};
ghost use Rattle.std.specs.Iterator.{YieldsFirst, item_count};
ghost use Rattle.graph.specs.Neighbours.{neighbours_from};

use super::graph::ReadableGraph;

/// The neighbours of `table` that are not below `bound`, in rising number. Each is asked for when it is its turn.
#[derive(Drop)]
pub struct Neighbours<'a, G> {
    graph: &'a G,
    table: u32,
    bound: u32,
}

/// The neighbours of a table from a bound on.
pub fn neighbours_of<G: ReadableGraph>(graph: &G, table: u32, bound: u32) -> Neighbours<'_, G>
    ensures { neighbours_from (G.meaning result.graph.now) result.table result.bound ≡ neighbours_from (G.meaning graph.now) table bound }
{
    Neighbours {
        graph,
        table,
        bound,
    }
}

impl<'a, G: ReadableGraph> Iterator for Neighbours<'a, G> {
    type Item = u32;

    ghost next_gives = { YieldsFirst (λ s. neighbours_from (G.meaning s.graph.now) s.table s.bound) };

    ghost remaining = { item_count (λ s. neighbours_from (G.meaning s.graph.now) s.table s.bound) };

    fn next(&mut self) -> Option<u32> {
        let table = self.graph.next_neighbour(self.table, self.bound)?;
        self.bound = table + 1;
        Some(table)
    }
}
