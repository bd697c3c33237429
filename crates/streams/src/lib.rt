//! Reading a stream whole into lent memory, and a program's answer to a query that is read so.
#![tactic(auto)]

pub mod input;
pub mod query;
pub mod records;
