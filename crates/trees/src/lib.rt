//! Spanning trees of marked joins: one fewer marks than tables, connecting all of them without a ring.
#![tactic(auto)]

pub mod fault;
mod forest;
mod labels;
pub mod tree;
