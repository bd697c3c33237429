//! What a replay refuses, with the store's refusal carried whole inside, and what a build request refuses.
#![tactic(auto)]

pub mod build;
pub mod fault;
