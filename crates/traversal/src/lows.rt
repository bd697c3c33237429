//! What is known of low points on the way through the tables in the order in which a search left them.

use sets::set::TableSet;

/// Low points as sets of tables.
#[derive(Clone, Copy)]
pub struct Lows {
    /// The table that the search started from, which is no child.
    pub start: u32,
    /// For each table, the tables joined with a table below it, of those gone through.
    pub below: [TableSet; 64],
    /// The articulation tables known so far.
    pub cuts: TableSet,
}
