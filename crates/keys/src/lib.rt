//! The keys of two graphs compared.
#![tactic(auto)]

pub mod key;
