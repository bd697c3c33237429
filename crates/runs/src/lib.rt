//! Runs: lists of calls performed on any editable graph, one after another, with the answers recorded.
#![tactic(auto)]

mod perform;
pub mod run;
pub mod session;
