//! The reading trait and the editing trait. Numbers of any size may be asked; no call has a precondition.
ghost use Rattle.std.specs.Prelude.{◌≡◌, ℕ, ◌≤◌, Bool};
ghost use Rattle.theory.specs.Graph.{Graph, Simple, Next, joined as joins, table_count, joining, unjoining, size};
ghost use Rattle.graph.specs.Store.{join_answer, unjoin_answer, after};

use super::fault::StoreFault;

/// A join graph that can be asked. Every answer depends on the meaning alone, and a question changes nothing.
pub trait ReadableGraph {
    /// The number of tables, and the set of joined pairs.
    ghost meaning: { Self → Graph };

    /// The number of tables.
    fn tables(&self) -> u32
        ensures { result ≡ table_count (meaning self.now) };

    /// Whether the two tables are joined.
    // stays: two tables are two arguments, here and below; a pair would be made for the call and taken apart in it
    fn joined(&self, a: u32, b: u32) -> bool
        ensures { result ≡ joins (meaning self.now) a b };

    /// The lowest table, not below `bound`, that is joined with `table`, or none.
    fn next_neighbour(&self, table: u32, bound: u32) -> Option<u32>
        ensures { Next (joins (meaning self.now) table) bound result };

    /// What always holds of it: 1 to 64 tables, and joins between two different tables of them.
    ghost simple: { (s : Self) → Simple (meaning s) };
}

/// A readable graph that can be edited. Its promises are about the reading trait's meaning.
pub trait EditableGraph: ReadableGraph {
    /// The most joins that it can hold.
    ghost limit: { Self → ℕ };

    /// The most joins that it can hold.
    fn capacity(&self) -> u32
        ensures { result ≡ limit self.now };

    /// Puts the pair in, or refuses and changes nothing.
    fn join(&mut self, a: u32, b: u32) -> Result<(), StoreFault>
        ensures answer { result ≡ join_answer (Self.ReadableGraph.meaning self.old) (limit self.old) a b }
        ensures meant { Self.ReadableGraph.meaning self.new ≡ after result (joining (Self.ReadableGraph.meaning self.old) a b) (Self.ReadableGraph.meaning self.old) }
        ensures same { limit self.new ≡ limit self.old };

    /// Takes the pair out, or refuses and changes nothing.
    fn unjoin(&mut self, a: u32, b: u32) -> Result<(), StoreFault>
        ensures answer { result ≡ unjoin_answer (Self.ReadableGraph.meaning self.old) a b }
        ensures meant { Self.ReadableGraph.meaning self.new ≡ after result (unjoining (Self.ReadableGraph.meaning self.old) a b) (Self.ReadableGraph.meaning self.old) }
        ensures same { limit self.new ≡ limit self.old };

    /// It never holds more.
    ghost within: { (s : Self) → size (Self.ReadableGraph.meaning s) ≤ limit s };

    /// No graph holds more than one join for each pair of 64 tables.
    ghost bounded: { (s : Self) → limit s ≤ 2016 };
}
