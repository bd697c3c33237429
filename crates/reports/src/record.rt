//! The record of a driving report.

/// What is reported of one table; which table that is, its turn in the report tells, from 0.
#[derive(Clone, Copy, PartialEq, Eq, Debug)]
pub struct ReportRecord {
    /// The number of joins that are cross joins where the marked tree is rooted at the table.
    pub cross: u32,
    /// Whether the table may drive.
    pub drives: bool,
}
