//! What the programs print: a graph as its joins, and the line of a refusal.
#![tactic(auto)]

pub mod graph_text;
pub mod refusal;
