//! What is asked of a join graph, whatever keeps it: the reading trait, the editing trait over it, the neighbours of a
//! table, the refusals of an edit, and where a refusal was met.
#![tactic(auto)]

pub mod fault;
pub mod graph;
pub mod layer;
pub mod neighbours;
