//! What is printed of a driving report: a line for each table, and the table that is picked.
#![tactic(auto)]

pub mod report_text;
