//! The program `drive`: a query's text in, the report of its driving tables and the table picked out, or the line of a refusal.
ghost use Rattle.std.specs.Prelude.{◌≡◌, ◌≤◌, length, Ok, IfErr};
ghost use Rattle.bits.specs.Table.{graph_of};
ghost use Rattle.catalogue.specs.Records.{records_of};
ghost use Rattle.writer.specs.Laid.{laid};
ghost use Rattle.outcomes.specs.Fault.{fault_place};
ghost use Rattle.report_texts.specs.ReportText.{numbers_checked};
ghost use Rattle.assembler.specs.Assemble.{query_in};
ghost use Rattle.driver.specs.Drive.{request, drive_told, report_left, outcome, shown};
ghost use Rattle.driver.specs.Inner.{Requested, Amounts};
ghost use Rattle.driver.specs.Driven.{Driven, Paged};

use bits::table::BitTable;
use catalogue::catalogue::Catalogue;
use driving::drive::drive;
use graph::graph::ReadableGraph;
use outcomes::fault::ProgramFault;
use programs::refusal::lay_refusal;
use programs::workspace::{PAGE, part_read};
use queries::query::read_query;
use report_texts::report_text::write_report;
use reports::pick::pick;
use reports::record::ReportRecord;
use theory::mark::Mark;
use theory::step::Step;
use trees::tree::SpanningTree;

/// A report that was given: how many records it fills, and the table picked.
// stays: no slice of the records: they are lent for writing, and a shared borrow of these cannot be given back beside them
#[derive(Clone, Copy)]
pub struct Outcome {
    pub tables: usize,
    pub pick: Option<u32>,
}

/// The report of a graph with a tree of these marks, and the pick by the row counts.
fn requested(
    graph: &BitTable,
    marks: &[Mark],
    rows: &Catalogue,
    report: &mut [ReportRecord; 64],
) -> Result<Outcome, ProgramFault>
    ensures answer { result ≡ outcome (request (graph_of graph.now) marks.now (records_of rows.now)) }
    ensures filled { report.new ≡ report_left (request (graph_of graph.now) marks.now (records_of rows.now)) report.old }
    ensures law { Requested (graph_of graph.now) marks.now (records_of rows.now) result report.new }
{
    let mut tree = SpanningTree::new();
    tree.fill(graph, marks)?;
    drive(graph, &tree, report)?;
    let tables = graph.tables() as usize;
    Ok(Outcome {
        tables,
        pick: pick(&report[..tables], rows),
    })
}

/// The same of the graph and the marks of a query's text.
fn driven(
    text: &[u8],
    marks: &mut [Mark; 63],
    report: &mut [ReportRecord; 64],
) -> Result<Outcome, ProgramFault>
    requires { length text.now ≤ 36465 }
    ensures answer { result ≡ outcome (drive_told text.now marks.old) }
    ensures filled { report.new ≡ report_left (drive_told text.now marks.old) report.old }
    ensures marked { marks.new ≡ (query_in text.now marks.old).marks }
    ensures law { Amounts text.now result report.new }
    ensures near { IfErr result (λ f. fault_place f ≤ 99999) }
{
    let mut graph = BitTable::new(1);
    let mut rows = Catalogue::new();
    let head = read_query(text, 0, &mut graph, marks, &mut rows)?;
    requested(&graph, &marks[..head.marks], &rows, report)
}

/// A report's text, laid over the text, or the line of its refusal where it has no room.
fn lay_report(report: &[ReportRecord], pick: Option<u32>, text: &mut [u8]) -> usize
    requires able { numbers_checked report.now pick ≡ Ok tt }
    requires few { length report.now ≤ 64 }
    ensures count { result ≡ length (shown (length text.old) (Ok (record { records = report.now; pick = pick }))) }
    ensures laid { text.new ≡ laid text.old 0 (shown (length text.old) (Ok (record { records = report.now; pick = pick }))) }
{
    match write_report(text, report, pick) {
        Ok(n) => n,
        Err(fault) => lay_refusal(ProgramFault::from(fault), text),
    }
}

/// Takes the first `len` bytes of the text as what was read, and lays what is to be printed over the text's first bytes; the
/// answer is how many these are.
// stays: what is printed lies over the same memory, also past what was read, so text and length are two; the match is on whether a
// report was given. Each program is lent the same memory, and this one makes no steps
pub fn drive_text(
    text: &mut [u8],
    len: usize,
    steps: &mut [Step; 2013],
    marks: &mut [Mark; 63],
) -> usize
    // the bytes printed, every byte of the text, every step record and every mark record, for whatever was read; in other
    // words: the report and the pick are printed exactly where the text read is that of a query whose marks make a spanning tree
    ensures { Driven text.old len steps.old marks.old result text.new steps.new marks.new }
{
    let mut report = [ReportRecord {
        cross: 0,
        drives: false,
    }; 64];
    match driven(part_read(text, len), marks, &mut report) {
        Ok(outcome) => lay_report(&report[..outcome.tables], outcome.pick, text),
        Err(fault) => lay_refusal(fault, text),
    }
}

/// The same in a page, where all of the input fits into it; none, and nothing changed, where more may follow.
// stays: apart from `assemble_page`: a function over both would take the program, and be longer than the two
pub fn drive_page(
    page: &mut [u8; PAGE],
    len: usize,
    steps: &mut [Step; 2013],
    marks: &mut [Mark; 63],
) -> Option<usize>
    ensures { Paged page.old len steps.old marks.old result page.new steps.new marks.new }
{
    if len >= PAGE {
        return None;
    }
    Some(drive_text(page, len, steps, marks))
}
