//! Reading one line of fixed columns.
#![tactic(auto)]

pub mod read;
