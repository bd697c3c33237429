//! Depth-first search of a join graph kept as rows of sets of tables: parents, discovery numbers, the order in which tables are left,
//! the tables that are not reached, and the articulation tables.
//! stays: in all files of this crate a table is a plain number, as in the traits, in steps and in refusals, where any number may come; a type of those below
//! 64 would have to be made from each of them, and clauses, whose definitions are over numbers, would look through it.
#![tactic(auto)]

mod articulations;
pub mod discovery;
mod lows;
pub mod order;
mod search;
pub mod survey;
pub mod surveys;
mod walk;
