//! Tests of the pick and of a report's text, with expected values worked out by hand.
#![tactic(auto)]

#[cfg(test)]
mod calls;
