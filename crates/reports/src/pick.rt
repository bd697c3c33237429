//! The pick among the driving tables of a report.
ghost use Rattle.std.specs.Prelude.{◌≡◌, ℕ, Option, slice_index_or};
ghost use Rattle.catalogue.specs.Rows.{count_of};
ghost use Rattle.catalogue.specs.Records.{records_of};
ghost use Rattle.reports.specs.Pick.{silent, is_lower, better, picked, Picks};

use super::record::ReportRecord;
use catalogue::catalogue::{Catalogue, RowCount};

/// Whether the report says that a table drives.
fn drives(report: &[ReportRecord], table: u32) -> bool
    ensures { result ≡ (slice_index_or report.now table silent).drives }
{
    report
        .get(table as usize)
        .is_some_and(|record| record.drives)
}

/// Whether a count is lower than another. One that is known is lower than one that is not.
// stays: `Option`'s own order has an unknown count below each known one
fn is_lower(count: RowCount, other: RowCount) -> bool
    ensures { result ≡ is_lower count other }
{
    match (count.known(), other.known()) {
        (None, _) => false,
        (Some(_), None) => true,
        (Some(c), Some(d)) => c < d,
    }
}

/// Of two driving tables, of which `b` is the higher, the one to be picked.
fn better(rows: &Catalogue, a: u32, b: u32) -> u32
    ensures { result ≡ better (records_of rows.now) a b }
{
    if is_lower(rows.get(b), rows.get(a)) {
        b
    } else {
        a
    }
}

/// The driving table with the lowest known count; where none is known, the lowest driving table; none where no table drives. At most 64
/// records are read.
pub fn pick(report: &[ReportRecord], rows: &Catalogue) -> Option<u32>
    ensures answer { result ≡ picked report.now (records_of rows.now) }
    ensures picks { Picks report.now (records_of rows.now) result }
    // no other answer would be the one that is picked
    ensures only { (o : Option ℕ) → Picks report.now (records_of rows.now) o → o ≡ result }
{
    (0..64)
        .filter(|table| drives(report, *table))
        .reduce(|a, b| better(rows, a, b))
}
