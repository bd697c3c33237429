//! What a search tells.
ghost use Rattle.std.specs.Prelude.{ℕ, ◌<◌, ◌≤◌, length, slice_index};
ghost use Rattle.traversal.specs.Discoveries.{parent_in};
ghost use Rattle.traversal.specs.Order.{tables_in};

use super::discovery::Discovery;
use super::order::TableOrder;
use sets::set::TableSet;

/// What the rising depth-first search of a graph tells.
#[derive(Clone, Copy)]
pub struct Survey {
    /// How each table was discovered.
    pub found: [Discovery; 64],
    /// The tables in the order in which the search left them for good; each that was discovered was left once.
    pub left: TableOrder,
    /// The tables that were not discovered.
    pub unreached: TableSet,
    /// Where all tables were discovered: the articulation tables; else none.
    pub articulations: TableSet,
    /// Each parent is below 64.
    ghost small: { (x : ℕ) → parent_in found x < 64 },
    /// So is each table left.
    ghost low: { (x : ℕ) → slice_index (tables_in left) x < 64 },
    /// No table is left twice.
    ghost few: { length (tables_in left) ≤ 64 },
}
