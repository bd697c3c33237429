//! Tests of the program `drive` from bytes to bytes, with expected values that our own code did not produce: they were worked
//! out by hand, or by a model in another language.
#![tactic(auto)]

#[cfg(test)]
mod graphs;
#[cfg(test)]
mod program;
