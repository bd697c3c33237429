//! Laying one line of fixed columns over a buffer.
#![tactic(auto)]

pub mod line;
