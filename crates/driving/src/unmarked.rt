//! The joins of a graph that are not marked.
ghost use Rattle.std.specs.Prelude.{◌≡◌, ℕ, ◌&&◌, not};
ghost use Rattle.sets.specs.Set.{bit};
ghost use Rattle.sets.specs.Rows.{in_row};

use sets::rows::Rows;
use sets::set::TableSet;

/// The tables that a table is joined with by a join that is not marked.
pub(super) fn unmarked(joins: &Rows, marks: &Rows, table: u32) -> TableSet
    ensures { (x : ℕ) → bit result x ≡ (in_row joins.now table x && not (in_row marks.now table x)) }
{
    joins.row(table).difference(marks.row(table))
}
