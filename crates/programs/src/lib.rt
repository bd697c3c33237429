//! The programs, each as one function from the bytes read to the bytes printed.
#![tactic(auto)]

pub mod refusal;
pub mod replay;
pub mod workspace;
