//! The records of a build list: the triangle that it begins with, and its steps.

/// Three tables, joined pairwise, with which a build begins.
#[derive(Clone, Copy, PartialEq, Eq, Debug)]
pub struct Triangle {
    pub a: u32,
    pub b: u32,
    pub c: u32,
}

/// One step of a build. A number is kept as it was given, also where it names no table.
#[derive(Clone, Copy, PartialEq, Eq, Debug)]
pub enum Step {
    /// Joins two tables in use.
    Edge { v: u32, w: u32 },
    /// Puts a new table `u` into the join of `v` and `w`: that join goes, and `u` is joined with both.
    Node { u: u32, v: u32, w: u32 },
}
