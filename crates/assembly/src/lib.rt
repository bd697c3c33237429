//! The build request: a join graph taken apart into its build list, which serves as its key.
#![tactic(auto)]

pub mod build;
