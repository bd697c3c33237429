//! Rows: for each of 64 tables a set of tables.
ghost use Rattle.std.specs.Prelude.{◌≡◌, ℕ, ◌||◌, ◌&&◌, cond, not, ◌==◌, nat_lt, length, replicate, slice_index, slice_set};
ghost use Rattle.theory.specs.Graph.{same_pair};
ghost use Rattle.sets.specs.Set.{bit};
ghost use Rattle.sets.specs.Rows.{in_row};

use super::set::TableSet;
use std::marker::Model;

/// For each table a row, which is the set of the tables that it is joined with. To a contract it is the list of the rows.
#[derive(Clone, Copy, PartialEq, Eq, Debug)]
pub struct Rows {
    rows: [TableSet; 64],
}

impl Model for Rows {
    ghost use Rattle.std.specs.Prelude.{ℕ, List};

    ghost Value = { List ℕ };

    ghost view = { λ s. s.rows };

    ghost inverse = { λ l. record { rows = l } };
}

/// Puts a row in place of that of a table. Where the number is no table, nothing changes.
fn replace(rows: &mut [TableSet; 64], a: u32, row: TableSet)
    ensures rows { rows.new ≡ cond (nat_lt a 64) (slice_set rows.old a row) rows.old }
    ensures long { length rows.old ≡ 64 }
{
    if a < 64 {
        rows[a as usize] = row;
    }
}

impl Rows {
    /// Rows without tables.
    pub fn new() -> Rows
        ensures { result ≡ replicate 64 0 }
    {
        Rows {
            rows: [TableSet::new(); 64],
        }
    }

    /// All 64 rows.
    pub fn to_array(&self) -> [TableSet; 64]
        ensures { result ≡ self.now }
    {
        self.rows // as they are
    }

    /// The row of a table, which is empty for a number that is none.
    pub fn row(&self, table: u32) -> TableSet
        ensures { result ≡ slice_index self.now table }
    {
        self.rows
            .get(table as usize)
            .copied()
            .unwrap_or(TableSet::new())
    }

    /// Whether table `b` is in the row of table `a`.
    pub fn joined(&self, a: u32, b: u32) -> bool
        ensures { result ≡ in_row self.now a b }
    {
        self.row(a).contains(b)
    }

    /// Puts table `b` into the row of table `a`. Where one of the numbers is no table, nothing changes.
    // stays: `remove` differs in the operation on a set, and so do `join` and `unjoin`. One function over both would take that as a
    // closure, and its contract would say once more what `with` and `without` promise
    pub fn insert(&mut self, a: u32, b: u32)
        ensures { (x y : ℕ) → in_row self.new x y ≡ (((nat_lt a 64 && nat_lt b 64) && (a == x && b == y)) || in_row self.old x y) }
    {
        let row = self.row(a).with(b);
        replace(&mut self.rows, a, row);
    }

    /// Takes table `b` out of the row of table `a`. Where one of the numbers is no table, nothing changes.
    // stays: see `insert`
    pub fn remove(&mut self, a: u32, b: u32)
        ensures { (x y : ℕ) → in_row self.new x y ≡ (not (a == x && b == y) && in_row self.old x y) }
    {
        let row = self.row(a).without(b);
        replace(&mut self.rows, a, row);
    }

    /// Takes all tables out of the row of a table.
    pub fn clear(&mut self, a: u32)
        ensures { (x y : ℕ) → in_row self.new x y ≡ (not (a == x) && in_row self.old x y) }
    {
        replace(&mut self.rows, a, TableSet::new());
    }

    /// Puts each of two tables into the other's row. Where one of the numbers is no table, nothing changes.
    // stays: see `insert`
    pub fn join(&mut self, a: u32, b: u32)
        ensures { (x y : ℕ) → in_row self.new x y ≡ (((nat_lt a 64 && nat_lt b 64) && same_pair a b x y) || in_row self.old x y) }
    {
        self.insert(a, b);
        self.insert(b, a);
    }

    /// Takes each of two tables out of the other's row. Where one of the numbers is no table, nothing changes.
    // stays: see `insert`
    pub fn unjoin(&mut self, a: u32, b: u32)
        ensures { (x y : ℕ) → in_row self.new x y ≡ (not ((nat_lt a 64 && nat_lt b 64) && same_pair a b x y) && in_row self.old x y) }
    {
        if a >= 64 || b >= 64 {
            return;
        }
        self.remove(a, b);
        self.remove(b, a);
    }
}
