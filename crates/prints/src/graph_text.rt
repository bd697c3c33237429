//! A graph written as a G line and one J line a join.
ghost use Rattle.std.specs.Prelude.{◌≡◌, ℕ, ◌+◌, ◌-◌, ◌*◌, ◌<◌, ◌≤◌, length};
ghost use Rattle.theory.specs.Graph.{table_count, size};
ghost use Rattle.graph.specs.Neighbours.{neighbours_from};
ghost use Rattle.theory.specs.Listing.{joins_of, ListsJoins};
ghost use Rattle.writer.specs.Laid.{laid};
ghost use Rattle.prints.specs.GraphText.{join_lines, row_above, graph_answer, graph_written};

use graph::graph::ReadableGraph;
use graph::neighbours::neighbours_of;
use texts::fault::TextFault;
use writer::line::put_line;

/// How many tables above `v` are joined with it.
fn row_count<G: ReadableGraph>(graph: &G, v: u32) -> usize
    requires { v < table_count (G.meaning graph.now) }
    ensures { result ≡ length (neighbours_from (G.meaning graph.now) v (v + 1)) }
{
    neighbours_of(graph, v, v + 1).count()
}

/// How many joins a graph has.
pub fn count_joins<G: ReadableGraph>(graph: &G) -> usize
    ensures { result ≡ size (G.meaning graph.now) }
{
    (0..graph.tables()).map(|v| row_count(graph, v)).sum()
}

/// The J lines of the joins of `v` with tables above it, from `at` on; where the next line goes.
// stays: bytes and the place in them are two arguments, as of `put_line`. The place is counted on, since it is what the row gives
// back: with the row's lines numbered by `enumerate` the row would be gone through again for it
fn put_row<G: ReadableGraph>(graph: &G, out: &mut [u8], at: usize, v: u32) -> usize
    requires { (v < table_count (G.meaning graph.now))
        × (at + 17 * length (row_above (G.meaning graph.now) v) ≤ length out.old) }
    ensures next { result ≡ at + 17 * length (row_above (G.meaning graph.now) v) }
    ensures written { out.new ≡ laid out.old at (join_lines (row_above (G.meaning graph.now) v)) }
{
    let mut at = at;
    for w in neighbours_of(graph, v, v + 1) {
        put_line(out, at, b'J', [None, Some(v), Some(w)]);
        at += 17;
    }
    at
}

/// Writes a graph's text over the first bytes of `out`, and says how many they are. A refusal writes nothing.
pub fn write_graph<G: ReadableGraph>(graph: &G, out: &mut [u8]) -> Result<usize, TextFault>
    ensures answer { result ≡ graph_answer (G.meaning graph.now) (length out.old) }
    // bytes past the text keep their contents
    ensures written { out.new ≡ graph_written (G.meaning graph.now) out.old }
    // the J lines are the joins, each once, in rising order
    ensures listed { ListsJoins (G.meaning graph.now) (joins_of (G.meaning graph.now)) }
{
    let tables = graph.tables();
    let joins = count_joins(graph);
    let needed = 17 + 17 * joins;
    if out.len() < needed {
        return Err(TextFault::TooFew { needed });
    }
    put_line(out, 0, b'G', [Some(tables), Some(joins as u32), None]);
    // stays: the rows were counted for their sum alone, so each takes its place from the one before
    let mut at = 17;
    for v in 0..tables {
        at = put_row(graph, out, at, v);
    }
    Ok(needed)
}
