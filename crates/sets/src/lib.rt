//! Sets of tables, and rows of them.
#![tactic(auto)]

pub mod rows;
pub mod set;
pub mod tables;
