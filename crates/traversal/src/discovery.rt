//! What a search keeps of a table that it discovered.

use sets::set::TableSet;

/// How a table was discovered. Where it was not, both numbers are 0, and no table is earlier.
// stays: zeros where a table was not discovered, which `unreached` tells. A table that is looked up was discovered: an Option would be
// unwrapped at each look, with a value for a case that cannot be, and take 24 bytes a table, not 16
#[derive(Clone, Copy, PartialEq, Eq, Debug)]
pub struct Discovery {
    /// The table that it was discovered from; 0 for the start.
    pub parent: u32,
    /// Its number in the order of discovery, from 0 on.
    pub number: u32,
    /// The tables that were discovered before it; none for the start.
    pub earlier: TableSet,
}
