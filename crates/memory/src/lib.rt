//! Working memory lent by the caller.
#![tactic(auto)]

pub mod stack;
