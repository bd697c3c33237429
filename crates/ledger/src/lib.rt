//! The ledger of a run: calls and answers, what the ledger makes of each call, and the mathematics of it. Nothing is edited here.
#![tactic(auto)]

pub mod call;
