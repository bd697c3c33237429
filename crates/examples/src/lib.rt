//! Worked examples on small graphs, as the rows of one table that a theorem covers.
#![tactic(auto)]

pub mod worked;
