//! A driving report written as one D line a table and one P line.
//! stays: 99,999 is the largest number of a field, written out as the definitions have it.
ghost use Rattle.std.specs.Prelude.{◌≡◌, ◌*◌, ◌≤◌, length};
ghost use Rattle.std.specs.List.{flat_map, enumerate_from, position};
ghost use Rattle.writer.specs.Laid.{laid, laid_line};
ghost use Rattle.report_texts.specs.ReportText.{record_line, record_text, pick_line, record_over, numbers_checked, report_answer, report_written};
ghost use Rattle.report_texts.specs.ReportLaw.{Reports};

use reports::record::ReportRecord;
use texts::fault::TextFault;
use writer::line::put_line;

/// Whether a number of the record's line is too large for its field.
fn is_over(table: usize, reported: ReportRecord) -> bool
    ensures { result ≡ record_over (table, reported) }
{
    table > 99999 || reported.cross > 99999
}

/// The first record whose line has such a number.
fn first_over(report: &[ReportRecord]) -> Option<usize>
    ensures { result ≡ position record_over (enumerate_from 0 report.now) }
{
    report
        .iter()
        .enumerate()
        .position(|(table, reported)| is_over(table, *reported))
}

/// 17 with the offset of the first line that has such a number.
fn check_numbers(report: &[ReportRecord], pick: Option<u32>) -> Result<(), TextFault>
    ensures { result ≡ numbers_checked report.now pick }
{
    match first_over(report) {
        Some(turn) => Err(TextFault::OutOfLimits { place: 17 * turn }),
        None if pick.is_some_and(|table| table > 99999) => Err(TextFault::OutOfLimits {
            place: 17 * report.len(),
        }),
        None => Ok(()),
    }
}

/// The line of one record.
fn put_record(out: &mut [u8], at: usize, table: u32, reported: ReportRecord)
    ensures { out.new ≡ laid_line out.old at (record_line (table, reported)) }
{
    let drives = u32::from(reported.drives);
    put_line(
        out,
        at,
        b'D',
        [Some(table), Some(reported.cross), Some(drives)],
    );
}

/// The line of the pick.
#[tactic(auto, using(writer::specs::Laid::single_laid))]
fn put_pick(out: &mut [u8], at: usize, pick: Option<u32>)
    ensures { out.new ≡ laid_line out.old at (pick_line pick) }
{
    put_line(out, at, b'P', [pick, None, None]);
}

/// The lines of all records.
fn put_records(out: &mut [u8], report: &[ReportRecord])
    requires { (17 * length report.now ≤ length out.old) × (length report.now ≤ 100000) }
    ensures { out.new ≡ laid out.old 0 (flat_map record_text (enumerate_from 0 report.now)) }
{
    for (table, reported) in report.iter().enumerate() {
        put_record(out, 17 * table, table as u32, *reported);
    }
}

/// Writes a report's text over the first bytes of `out`, and says how many they are. A refusal writes nothing.
#[tactic(auto, using(crate::proofs::Law::short_by))]
pub fn write_report(
    out: &mut [u8],
    report: &[ReportRecord],
    pick: Option<u32>,
) -> Result<usize, TextFault>
    ensures answer { result ≡ report_answer report.now pick (length out.old) }
    // bytes past the text keep their contents
    ensures written { out.new ≡ report_written report.now pick out.old }
    // each line written reads back as what is told of its table, or as the pick
    ensures reports { Reports report.now pick out.old out.new result }
{
    check_numbers(report, pick)?;
    let needed = 17 * (report.len() + 1);
    if out.len() < needed {
        return Err(TextFault::TooFew { needed });
    }
    put_records(out, report);
    put_pick(out, 17 * report.len(), pick);
    Ok(needed)
}
