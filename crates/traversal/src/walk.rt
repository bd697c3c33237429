//! A search under way.
ghost use Rattle.std.specs.Prelude.{◌≡◌, ℕ, ◌+◌, ◌<◌, ◌≤◌, length, slice_index};
ghost use Rattle.memory.specs.Stack.{slots_of, height_of, held};
ghost use Rattle.sets.specs.Set.{bits_set};
ghost use Rattle.traversal.specs.Order.{tables_in};

use super::survey::Survey;
use memory::stack::Stack;
use sets::set::TableSet;

/// A search under way: what it has found out, and where it stands.
#[derive(Drop)]
pub struct Walk<'a> {
    /// What it has found out.
    pub survey: Survey,
    /// The tables from the start to the one that it stands on, each discovered from the one before it.
    // stays: by a rule of the project one stack over lent memory holds the path of a search and the notes alike; an `ArrayVec` proves,
    // too
    pub path: Stack<'a, u32>,
    /// How many tables are discovered, which is the number of the next one.
    pub next: u32,
    /// The discovered tables.
    pub seen: TableSet,
    /// Each table on the path is below 64.
    ghost way: { (x : ℕ) → slice_index (held (slots_of path) (height_of path)) x < 64 },
    /// What is discovered is left or on the path.
    ghost shares: { length (tables_in survey.left) + height_of path ≡ next },
    /// No more tables than 64 are discovered or to be discovered.
    ghost room: { bits_set survey.unreached + next ≤ 64 },
    /// The path has a place for each of them.
    ghost wide: { length (slots_of path) ≡ 64 },
    /// No articulation table is known yet.
    ghost untold: { survey.articulations ≡ 0 },
}
