//! The report, laid into lent records.
ghost use Rattle.std.specs.Prelude.{◌≡◌, ◌≤◌, ◌++◌, length, drop, slice_index};
ghost use Rattle.driving.specs.Drive.{record_of, records_from};

use reports::record::ReportRecord;

/// What is reported of a table with so many cross joins.
fn record(cross: u32) -> ReportRecord
    ensures { result ≡ record_of cross }
{
    ReportRecord {
        cross,
        drives: cross == 0,
    }
}

/// Writes the records of the first tables, in rising number, over the first records lent.
pub(super) fn lay(counts: &[u32; 64], tables: u32, report: &mut [ReportRecord])
    requires { (tables ≤ 64) × (tables ≤ length report.old) }
    ensures { report.new ≡ records_from (slice_index counts.now) 0 tables ++ drop tables report.old }
{
    for (x, cross) in counts[..tables as usize].iter().enumerate() {
        report[x] = record(*cross);
    }
}
