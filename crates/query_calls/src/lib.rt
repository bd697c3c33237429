//! Tests of reading a query, with expected values worked out by hand.
#![tactic(auto)]

#[cfg(test)]
mod calls;
