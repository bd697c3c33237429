//! How many rows each table has, where that is known, and why a stored row count is refused.
#![tactic(auto)]

pub mod catalogue;
pub mod fault;
