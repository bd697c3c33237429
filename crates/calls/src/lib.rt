//! Tests of single calls, with expected values that our own code did not produce: they were worked out by hand, or by a
//! model in another language.
#![tactic(auto)]

#[cfg(test)]
mod calls;
#[cfg(test)]
mod given;
#[cfg(test)]
mod narrow;
#[cfg(test)]
mod same_keys;
