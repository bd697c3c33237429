//! What the tests of several calls start from.
use theory::step::{Step, Triangle};

/// The first three tables.
pub(super) const FIRST: Triangle = Triangle { a: 0, b: 1, c: 2 };

/// A record that no list has.
pub(super) const BLANK: Step = Step::Edge { v: 7, w: 7 };
