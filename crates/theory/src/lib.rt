//! The mathematics of join graphs, apart from any store, memory or text: what a graph means, what a
//! construction sequence is, and the facts about them on which the proofs of the other crates rest.
#![tactic(auto)]

pub mod mark;
pub mod step;
