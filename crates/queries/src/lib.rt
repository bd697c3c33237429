//! The text of a query, read into a graph, mark records and a catalogue, and why it is refused.
#![tactic(auto)]

pub mod query;
