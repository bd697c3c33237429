//! Tables taken away from a graph one after another, and the notes of it laid into lent records. This is the inner part of the
//! build request; a caller of its own has no need of it.
#![tactic(auto)]

pub mod notes;
