//! A join graph kept as a table of bits: every question and every edit takes constant time.
#![tactic(auto)]

pub mod table;
