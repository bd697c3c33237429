//! What stands against a build request, judged over sets of tables.
#![tactic(auto)]

pub mod judge;
