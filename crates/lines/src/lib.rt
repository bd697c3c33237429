//! Lines of fixed columns: what a line holds, which layout goes with its letter, the text that it has, and what it means that
//! bytes begin a line.
#![tactic(auto)]

pub mod line;
