//! What a query text is refused for: a line, a join that the store refuses, or a row count.
#![tactic(auto)]

pub mod fault;
