//! What a program refuses, from whatever layer: the number, the layer and the place that it prints.
#![tactic(auto)]

pub mod fault;
