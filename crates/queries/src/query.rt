//! The text of a query: a G line (tables, joins), a J line for each join, no M line or one for each table but one, and up
//! to 64 R lines, to the text's end.
//!
//! The inner functions say in `answer` what they answer, in `effect` what they answer and leave, and in `onward` where the
//! reader stands afterwards.
//! stays: reader, graph and catalogue are three parameters. Of a struct that holds the three loans each method would owe, besides what
//! it reads, that it lends the same three on. Who needs to know that there are at most 64 tables takes the graph, of which that
//! always holds.
ghost use Rattle.std.specs.Prelude.{◌≡◌, ℕ, ◌+◌, ◌-◌, ◌*◌, ◌<◌, ◌≤◌, length, IfOk, IfErr, OnOk};
ghost use Rattle.theory.specs.Graph.{table_count};
ghost use Rattle.bits.specs.Table.{graph_of};
ghost use Rattle.catalogue.specs.Records.{records_of};
ghost use Rattle.catalogue.specs.Rows.{row_answer, records_after};
ghost use Rattle.texts.specs.Reader.{past, past_lines};
ghost use Rattle.rejections.specs.Fault.{query_place};
ghost use Rattle.queries.specs.QueryLaw.{QueryAccepted, QueryRefused};
ghost use Rattle.queries.specs.QueryRead.{head_at, pair_at, row_line_at, join_at, row_at, joins_read, marks_read, rows_read, due_marks, due_rows, rows_ended, query_read};

use bits::table::BitTable;
use catalogue::catalogue::Catalogue;
use catalogue::fault::RowFault;
use graph::fault::at_place;
use graph::graph::{EditableGraph, ReadableGraph};
use lines::line::Fields;
use rejections::fault::QueryFault;
use texts::fault::TextFault;
use texts::reader::Reader;
use theory::mark::Mark;

/// What a G line says: the number of tables, and the number of J lines.
#[derive(Clone, Copy)]
pub struct Head {
    pub tables: u32,
    pub joins: usize,
}

/// A query that was read: its tables, how many joins it has, how many mark records it fills, and where its text ends.
#[derive(Clone, Copy, PartialEq, Eq, Debug)]
pub struct QueryHead {
    pub tables: u32,
    pub joins: usize,
    pub marks: usize,
    pub end: usize,
}

/// The G line, judged in the order 15, 16, 17, 9.
// stays: here and below what differs is the pattern: a reader that took it as a closure would need the same match, an `Option` around
// it, and a contract in terms of the closure's. That the reader has passed a line, only its own clause says to a caller
fn head_line(reader: &mut Reader, room: usize) -> Result<Head, TextFault>
    ensures answer { result ≡ head_at reader.old.text.now reader.old.at room }
    ensures within { IfOk result (λ h. (1 ≤ h.tables) × (h.tables ≤ 64) × (h.tables ≤ room + 1)) }
    ensures onward { OnOk result (reader.new ≡ past reader.old) }
{
    let at = reader.at;
    let line = reader.line()?;
    match (line.letter, line.fields) {
        ('G', Fields::FirstTwo(tables, joins)) => {
            if !(1..=64).contains(&tables) || joins > 2016 {
                return Err(TextFault::OutOfLimits { place: at });
            }
            let marks = tables as usize - 1;
            if room < marks {
                return Err(TextFault::TooFew { needed: marks });
            }
            Ok(Head {
                tables,
                joins: joins as usize,
            })
        }
        _ => Err(TextFault::Misplaced { place: at }),
    }
}

/// The two tables of a J line or of an M line, whichever is due.
fn pair_line(reader: &mut Reader, due: char) -> Result<(u32, u32), TextFault>
    ensures answer { result ≡ pair_at reader.old.text.now reader.old.at due }
    ensures onward { OnOk result (reader.new ≡ past reader.old) }
{
    let at = reader.at;
    let line = reader.line()?;
    match line.fields {
        Fields::LastTwo(v, w) if line.letter == due => Ok((v, w)),
        _ => Err(TextFault::Misplaced { place: at }),
    }
}

/// The table and the stored number of an R line.
fn row_line(reader: &mut Reader) -> Result<(u32, i64), TextFault>
    ensures answer { result ≡ row_line_at reader.old.text.now reader.old.at }
    ensures onward { OnOk result (reader.new ≡ past reader.old) }
{
    let at = reader.at;
    let line = reader.line()?;
    match (line.letter, line.fields) {
        ('R', Fields::Counted(table, stored)) => Ok((table, stored)),
        _ => Err(TextFault::Misplaced { place: at }),
    }
}

/// A J line: its pair is joined.
fn read_join<G: EditableGraph>(reader: &mut Reader, graph: &mut G) -> Result<(), QueryFault>
    ensures effect { join_at (G.limit graph.old) reader.old.text.now reader.old.at (G.ReadableGraph.meaning graph.old)
        ≡ record { told = result; left = G.ReadableGraph.meaning graph.new } }
    ensures same { G.limit graph.new ≡ G.limit graph.old }
    ensures onward { OnOk result (reader.new ≡ past reader.old) }
{
    let at = reader.at;
    let (v, w) = pair_line(reader, 'J')?;
    at_place(at, graph.join(v, w))?;
    Ok(())
}

/// As many J lines as are said.
fn read_joins<G: EditableGraph>(
    reader: &mut Reader,
    count: usize,
    graph: &mut G,
) -> Result<(), QueryFault>
    ensures effect { joins_read (G.limit graph.old) reader.old.text.now reader.old.at count (G.ReadableGraph.meaning graph.old)
        ≡ record { told = result; left = G.ReadableGraph.meaning graph.new } }
    ensures onward { OnOk result (reader.new ≡ past_lines count reader.old) }
{
    // stays: the head says how many lines are owed, and nothing is indexed by their number
    for _ in 0..count {
        read_join(reader, graph)?;
    }
    Ok(())
}

/// How many M lines are owed: one for each table but one, where the first is begun.
fn marks_due(reader: &Reader, graph: &BitTable) -> usize
    ensures { result ≡ due_marks (table_count (graph_of graph.now)) reader.now.text.now reader.now.at }
{
    match reader.text.get(reader.at) {
        Some(b'M') => graph.tables() as usize - 1,
        _ => 0,
    }
}

/// As many M lines as there are records, laid into them.
fn read_marks(reader: &mut Reader, marks: &mut [Mark]) -> Result<(), QueryFault>
    ensures effect { marks_read reader.old.text.now reader.old.at (length marks.old) marks.old
        ≡ record { told = result; left = marks.new } }
    ensures onward { OnOk result (reader.new ≡ past_lines (length marks.old) reader.old) }
{
    for mark in marks.iter_mut() {
        let (v, w) = pair_line(reader, 'M')?;
        *mark = Mark { v, w };
    }
    Ok(())
}

/// Sets the record of one of the query's tables.
fn set_row(rows: &mut Catalogue, graph: &BitTable, table: u32, stored: i64) -> Result<(), RowFault>
    ensures answer { result ≡ row_answer (table_count (graph_of graph.now)) table stored }
    ensures left { records_of rows.new ≡ records_after result (records_of rows.old) table stored }
{
    if table >= graph.tables() {
        return Err(RowFault::UnknownTable { table });
    }
    rows.set(table, stored)
}

/// An R line: its table's record is set.
fn read_row(reader: &mut Reader, graph: &BitTable, rows: &mut Catalogue) -> Result<(), QueryFault>
    ensures effect { row_at (table_count (graph_of graph.now)) reader.old.text.now reader.old.at (records_of rows.old)
        ≡ record { told = result; left = records_of rows.new } }
    ensures onward { OnOk result (reader.new ≡ past reader.old) }
{
    let at = reader.at;
    let (table, stored) = row_line(reader)?;
    at_place(at, set_row(rows, graph, table, stored))?;
    Ok(())
}

/// How many R lines the text has room for, one begun included, but at most 64.
fn rows_due(reader: &Reader) -> usize
    ensures { result ≡ due_rows reader.now.text.now reader.now.at }
{
    let rest = reader.text.len().saturating_sub(reader.at);
    rest.div_ceil(17).min(64)
}

/// The first `count` R lines.
fn read_row_lines(
    reader: &mut Reader,
    count: usize,
    graph: &BitTable,
    rows: &mut Catalogue,
) -> Result<(), QueryFault>
    ensures effect { rows_read (table_count (graph_of graph.now)) reader.old.text.now reader.old.at count (records_of rows.old)
        ≡ record { told = result; left = records_of rows.new } }
    ensures onward { OnOk result (reader.new ≡ past_lines count reader.old) }
{
    // stays: the text's length says how many lines are owed, and nothing is indexed by their number
    for _ in 0..count {
        read_row(reader, graph, rows)?;
    }
    Ok(())
}

/// The R lines, after which nothing may follow: where they end.
fn read_rows(
    reader: &mut Reader,
    graph: &BitTable,
    rows: &mut Catalogue,
) -> Result<usize, QueryFault>
    ensures answer { result ≡ rows_ended (table_count (graph_of graph.now)) reader.old.text.now reader.old.at (records_of rows.old) }
    ensures left { records_of rows.new
        ≡ (rows_read (table_count (graph_of graph.now)) reader.old.text.now reader.old.at (due_rows reader.old.text.now reader.old.at) (records_of rows.old)).left }
{
    let count = rows_due(reader);
    read_row_lines(reader, count, graph, rows)?;
    reader.end()?;
    Ok(reader.at)
}

/// A whole query.
fn read_lines(
    reader: &mut Reader,
    graph: &mut BitTable,
    marks: &mut [Mark],
    rows: &mut Catalogue,
) -> Result<QueryHead, QueryFault>
    ensures { query_read reader.old.text.now reader.old.at marks.old (records_of rows.old)
        ≡ record { told = result; graph = graph_of graph.new; marks = marks.new; rows = records_of rows.new } }
{
    *graph = BitTable::new(1);
    let head = head_line(reader, marks.len())?;
    *graph = BitTable::new(head.tables);
    read_joins(reader, head.joins, graph)?;
    let count = marks_due(reader, graph);
    read_marks(reader, &mut marks[..count])?;
    let end = read_rows(reader, graph, rows)?;
    Ok(QueryHead {
        tables: head.tables,
        joins: head.joins,
        marks: count,
        end,
    })
}

/// Reads the query whose text begins at `at` and goes on to the text's end: into a new graph, the first mark records, and
/// the catalogue.
pub fn read_query(
    text: &[u8],
    at: usize,
    graph: &mut BitTable,
    marks: &mut [Mark],
    rows: &mut Catalogue,
) -> Result<QueryHead, QueryFault>
    // line by line as the definition reads; earlier lines keep their effect
    ensures answer { result ≡ (query_read text.now at marks.old (records_of rows.old)).told }
    ensures meant { graph_of graph.new ≡ (query_read text.now at marks.old (records_of rows.old)).graph }
    ensures marked { marks.new ≡ (query_read text.now at marks.old (records_of rows.old)).marks }
    ensures counted { records_of rows.new ≡ (query_read text.now at marks.old (records_of rows.old)).rows }
    // an accepted text is exactly that of its lines: a G line, its J lines, no M line or one for each table but one, up to 64
    // R lines; the graph has the joins of the J lines, the first records the marks, each table the count of its last R line
    ensures accepted { QueryAccepted text.now at marks.old (records_of rows.old) result (graph_of graph.new) marks.new (records_of rows.new) }
    // a refused text has the fault told at its first line that is amiss, and the lines before it keep their effect
    ensures refused { QueryRefused text.now at marks.old (records_of rows.old) result (graph_of graph.new) marks.new (records_of rows.new) }
    // no place or amount named is far beyond the text
    ensures near { IfErr result (λ f. query_place f ≤ at + length text.now + 63) }
{
    let mut reader = Reader { text, at };
    read_lines(&mut reader, graph, marks, rows)
}
