//! The text of a build list, read and written, and why a text is refused.
#![tactic(auto)]

pub mod fault;
pub mod list;
pub mod list_write;
pub mod reader;
