//! The record of a mark.

/// A mark of a join tree: two joined tables. A number is kept as it was given, also where it names no table.
#[derive(Clone, Copy, PartialEq, Eq, Debug)]
pub struct Mark {
    pub v: u32,
    pub w: u32,
}
