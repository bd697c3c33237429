//! The program `drive`, as one function from the bytes read to the bytes printed.
#![tactic(auto)]

pub mod drive;
