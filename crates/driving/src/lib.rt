//! The driving request: which tables a depth-first search of the joins can begin at that walks precisely the marks of a spanning tree.
//! stays: in all files of this crate a table is a plain number, as in the traits, in records and in refusals, where any number may come.
#![tactic(auto)]

mod counters;
mod crossings;
pub mod drive;
pub mod fault;
mod judge;
mod laying;
mod subtrees;
mod sums;
mod unmarked;
