//! The table of bits: for each table one 64-bit row, the set of the tables that it is joined with.
//! stays: two tables, or a table and a bound, are two arguments, as in the traits; a pair would be made and unmade at each call.
ghost use Rattle.std.specs.Prelude.{◌≡◌, ℕ, ◌<◌, ◌≤◌, true, false, Ok, ◌≢◌};
ghost use Rattle.std.proofs.Common.{lit≤, arith};
ghost use Rattle.theory.specs.Graph.{size, joining};
ghost use Rattle.bits.specs.Rows.{rows_graph, pair_answer};

use graph::fault::StoreFault;
use graph::graph::{EditableGraph, ReadableGraph};
use sets::rows::Rows;

pub mod copy;

/// A join graph of up to 64 tables. A row has a bit for every table, so there is room for all 2016 joins of 64 tables.
// stays: the memory is fixed, so there are rows past the last table, which the invariants keep empty
#[derive(Clone, Copy)]
pub struct BitTable {
    count: u32,
    rows: Rows,
    joins: u32,
    /// There is a table at least.
    ghost some: { 1 ≤ count },
    /// A row has a bit for each table.
    ghost few: { count ≤ 64 },
    /// The two bits of a pair agree.
    ghost symmetric: { (a b : ℕ) → (rows_graph count rows).adj a b ≡ (rows_graph count rows).adj b a },
    /// No table is joined with itself.
    ghost loopless: { (a : ℕ) → (rows_graph count rows).adj a a ≡ false },
    /// Only the rows of tables have bits set, so, as the two bits of a pair agree, only at tables.
    ghost within: { (a b : ℕ) → (rows_graph count rows).adj a b ≡ true → a < count },
    /// `joins` is the number of joined pairs.
    ghost counted: { joins ≡ size (rows_graph count rows) },
    /// There are at most as many as pairs of 64 tables.
    ghost fits: { joins ≤ 2016 },
}

impl BitTable {
    /// What stands against any edit of a pair: 1 where one of the two is no table, and 2 where they are the same.
    fn judge_pair(&self, a: u32, b: u32) -> Result<(), StoreFault>
        ensures answer { result ≡ pair_answer self.now.count a b }
        ensures two { result ≡ Ok tt → (a < self.now.count) × ((b < self.now.count) × (a ≢ b)) }
    {
        if a >= self.count {
            return Err(StoreFault::UnknownTable { table: a });
        }
        if b >= self.count {
            return Err(StoreFault::UnknownTable { table: b });
        }
        if a == b {
            return Err(StoreFault::SameTable { table: a });
        }
        Ok(())
    }

    /// Puts in the pair of two different tables that are not joined.
    fn put(&mut self, a: u32, b: u32)
        requires { (a < self.old.count) × ((b < self.old.count) × ((a ≢ b) × ((rows_graph self.old.count self.old.rows).adj a b ≡ false))) }
        ensures { rows_graph self.new.count self.new.rows ≡ joining (rows_graph self.old.count self.old.rows) a b }
    {
        // so that the compiler need not test it in each row and set below
        if a >= 64 || b >= 64 {
            unreachable!();
        }
        self.rows.join(a, b);
        self.joins += 1;
    }
}

impl ReadableGraph for BitTable {
    ghost use Rattle.bits.specs.Table.{graph_of};

    ghost meaning = { graph_of };

    ghost simple = { λ s. record { some = s.some; few = s.few; symmetric = s.symmetric; loopless = s.loopless; within = s.within } };

    fn tables(&self) -> u32 {
        self.count
    }

    // stays: a store hands the question on to its rows
    fn joined(&self, a: u32, b: u32) -> bool {
        self.rows.joined(a, b)
    }

    fn next_neighbour(&self, table: u32, bound: u32) -> Option<u32> {
        self.rows.row(table).first_from(bound)
    }
}

impl EditableGraph for BitTable {
    ghost limit = { λ _. 2016 };

    ghost within = { λ s. Prim.omega (arith, s.counted, s.fits) };

    ghost bounded = { λ _. lit≤ tt };

    fn capacity(&self) -> u32 {
        2016
    }

    fn join(&mut self, a: u32, b: u32) -> Result<(), StoreFault> {
        self.judge_pair(a, b)?;
        if self.joined(a, b) {
            return Err(StoreFault::AlreadyJoined { a, b });
        }
        if self.joins >= 2016 {
            return Err(StoreFault::Full { capacity: 2016 });
        }
        self.put(a, b);
        Ok(())
    }

    fn unjoin(&mut self, a: u32, b: u32) -> Result<(), StoreFault> {
        self.judge_pair(a, b)?;
        if !self.joined(a, b) {
            return Err(StoreFault::NotJoined { a, b });
        }
        self.rows.unjoin(a, b);
        self.joins -= 1;
        Ok(())
    }
}
