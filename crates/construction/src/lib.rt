//! Playing a build list back into an editable graph.
#![tactic(auto)]

pub mod replay;
