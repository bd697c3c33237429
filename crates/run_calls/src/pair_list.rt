//! A store that keeps a list of its pairs, and has room for six.
ghost use Rattle.std.specs.Prelude.{◌≡◌, ℕ, ◌≤◌, ◌<◌, true, false, Ok, ◌≢◌, length, filter};
ghost use Rattle.std.proofs.Common.{lit≤, arith};
ghost use Rattle.theory.specs.Graph.{size, no_joins, clamped, same_pair};
ghost use Rattle.bits.specs.Rows.{pair_answer};
ghost use Rattle.run_calls.specs.Pairs.{held, listed, others};

use arrayvec::ArrayVec;
use graph::fault::StoreFault;
use graph::graph::{EditableGraph, ReadableGraph};

/// A graph of at most six joins.
#[derive(Drop)]
pub struct PairList {
    count: u32,
    pairs: ArrayVec<(u32, u32), 6>,
    /// There is a table at least.
    ghost some: { 1 ≤ count },
    /// There are at most 64.
    ghost few: { count ≤ 64 },
    /// A pair counts either way round.
    ghost symmetric: { (a b : ℕ) → held pairs.items a b ≡ held pairs.items b a },
    /// No table is paired with itself.
    ghost loopless: { (a : ℕ) → held pairs.items a a ≡ false },
    /// All pairs are of tables.
    ghost within: { (a b : ℕ) → held pairs.items a b ≡ true → a < count },
    /// There are as many pairs as joins: none is there twice.
    ghost counted: { length pairs.items ≡ size (listed count pairs.items) },
    ghost fits: { length pairs.items ≤ 6 },
}

impl PairList {
    /// So many tables, between 1 and 64, without joins.
    pub fn new(tables: u32) -> PairList
        ensures { listed result.count result.pairs.items ≡ no_joins (clamped tables) }
    {
        PairList {
            count: tables.clamp(1, 64),
            pairs: ArrayVec::new(),
        }
    }

    /// What stands against any edit of a pair.
    fn judge_pair(&self, a: u32, b: u32) -> Result<(), StoreFault>
        ensures answer { result ≡ pair_answer self.now.count a b }
        ensures two { result ≡ Ok tt → (a < self.now.count) × ((b < self.now.count) × (a ≢ b)) }
    {
        if a >= self.count {
            return Err(StoreFault::UnknownTable { table: a });
        }
        if b >= self.count {
            return Err(StoreFault::UnknownTable { table: b });
        }
        if a == b {
            return Err(StoreFault::SameTable { table: a });
        }
        Ok(())
    }
}

/// Whether a pair is of these tables.
fn is_of(pair: (u32, u32), a: u32, b: u32) -> bool
    ensures { result ≡ same_pair pair.0 pair.1 a b }
{
    pair == (a, b) || pair == (b, a)
}

/// Leaves the other pairs.
fn take_out(pairs: &mut ArrayVec<(u32, u32), 6>, a: u32, b: u32)
    ensures { pairs.new.items ≡ filter (others a b) pairs.old.items }
{
    pairs.retain(|pair| !is_of(*pair, a, b));
}

impl ReadableGraph for PairList {
    ghost meaning = { λ s. listed s.count s.pairs.items };

    ghost simple = { λ s. record { some = s.some; few = s.few; symmetric = s.symmetric; loopless = s.loopless; within = s.within } };

    fn tables(&self) -> u32 {
        self.count
    }

    fn joined(&self, a: u32, b: u32) -> bool {
        self.pairs.iter().any(|pair| is_of(*pair, a, b))
    }

    fn next_neighbour(&self, table: u32, bound: u32) -> Option<u32> {
        for other in bound..self.count {
            if self.joined(table, other) {
                return Some(other);
            }
        }
        None
    }
}

impl EditableGraph for PairList {
    ghost limit = { λ _. 6 };

    ghost within = { λ s. Prim.omega (arith, s.counted, s.fits) };

    ghost bounded = { λ _. lit≤ tt };

    fn capacity(&self) -> u32 {
        6
    }

    fn join(&mut self, a: u32, b: u32) -> Result<(), StoreFault> {
        self.judge_pair(a, b)?;
        if self.joined(a, b) {
            return Err(StoreFault::AlreadyJoined { a, b });
        }
        if self.pairs.is_full() {
            return Err(StoreFault::Full { capacity: 6 });
        }
        self.pairs.push((a, b));
        Ok(())
    }

    fn unjoin(&mut self, a: u32, b: u32) -> Result<(), StoreFault> {
        self.judge_pair(a, b)?;
        if !self.joined(a, b) {
            return Err(StoreFault::NotJoined { a, b });
        }
        take_out(&mut self.pairs, a, b);
        Ok(())
    }
}
