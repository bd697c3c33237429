//! What a driving request reports of each table, and which driving table is picked by the row counts.
#![tactic(auto)]

pub mod pick;
pub mod record;
