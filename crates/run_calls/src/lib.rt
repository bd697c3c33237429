//! Tests of runs: tables of calls, each beside the answer that is expected of it, which our own code did not produce: the answers were
//! worked out by hand, or by a model in another language.
#![tactic(auto)]

#[cfg(test)]
mod lists;
#[cfg(test)]
mod marked;
#[cfg(test)]
mod pair_list;
#[cfg(test)]
mod table;
#[cfg(test)]
mod two_runs;
