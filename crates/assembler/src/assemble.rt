//! The program `assemble`: a query's text in, the build list of its graph out, or the line of a refusal.
ghost use Rattle.std.specs.Prelude.{◌≡◌, ◌≤◌, length, IfErr};
ghost use Rattle.writer.specs.Laid.{laid};
ghost use Rattle.texts.specs.ListText.{list_text, Listable};
ghost use Rattle.texts.specs.ListWrite.{list_length};
ghost use Rattle.outcomes.specs.Fault.{fault_place};
ghost use Rattle.assembler.specs.Assemble.{query_in, assemble_told, steps_left, listed};
ghost use Rattle.assembler.specs.Assembled.{Assembled, Paged};

use assembly::build::build;
use bits::table::BitTable;
use catalogue::catalogue::Catalogue;
use graph::graph::ReadableGraph;
use outcomes::fault::ProgramFault;
use programs::refusal::lay_refusal;
use programs::workspace::{PAGE, part_read};
use queries::query::read_query;
use texts::list::BuildList;
use texts::list_write::write_list;
use theory::mark::Mark;
use theory::step::{Step, Triangle};

/// A list that was given: the tables of its graph, its triangle, and how many records its steps fill.
// stays: no `BuildList`: the steps lie in records lent for writing, and a shared borrow of these cannot be given back beside them; a
// `Built` with the tables beside it would be taken apart at once
#[derive(Clone, Copy)]
pub struct Listed {
    pub tables: u32,
    pub triangle: Triangle,
    pub steps: usize,
}

/// The build list of the graph of a query's text.
fn assembled(text: &[u8], steps: &mut [Step], marks: &mut [Mark]) -> Result<Listed, ProgramFault>
    requires { length text.now ≤ 36465 }
    ensures answer { result ≡ listed (assemble_told text.now steps.old marks.old) }
    ensures filled { steps.new ≡ steps_left text.now steps.old marks.old }
    ensures marked { marks.new ≡ (query_in text.now marks.old).marks }
    ensures near { IfErr result (λ f. fault_place f ≤ 99999) }
{
    let mut graph = BitTable::new(1);
    let mut rows = Catalogue::new();
    read_query(text, 0, &mut graph, marks, &mut rows)?;
    let built = build(&graph, steps)?;
    Ok(Listed {
        tables: graph.tables(),
        triangle: built.triangle,
        steps: built.steps,
    })
}

/// A list's text, laid over the text.
fn lay_list(list: BuildList, text: &mut [u8]) -> usize
    requires able { Listable list.tables list.triangle list.steps.now }
    requires room { list_length list.steps.now ≤ length text.old }
    ensures count { result ≡ list_length list.entry.steps.now }
    ensures laid { text.new ≡ laid text.old 0 (list_text list.entry.tables list.entry.triangle list.entry.steps.now) }
{
    write_list(text, list).unwrap_or(0)
}

/// Takes the first `len` bytes of the text as what was read, and lays what is to be printed over the text's first bytes; the
/// answer is how many these are.
// stays: what is printed lies over the same memory, also past what was read, so text and length are two; the match is on whether a
// list was given
pub fn assemble_text(
    text: &mut [u8],
    len: usize,
    steps: &mut [Step; 2013],
    marks: &mut [Mark; 63],
) -> usize
    // the bytes printed, every byte of the text, every step record and every mark record, for whatever was read; in other
    // words: the list is printed exactly where the text read is that of a query whose graph has a legal build, it is the one
    // that taking the graph apart gives, and it serves as the graph's key
    ensures { Assembled text.old len steps.old marks.old result text.new steps.new marks.new }
{
    match assembled(part_read(text, len), steps, marks) {
        Ok(listed) => {
            let list = BuildList {
                tables: listed.tables,
                triangle: listed.triangle,
                steps: &steps[..listed.steps],
            };
            lay_list(list, text)
        }
        Err(fault) => lay_refusal(fault, text),
    }
}

/// The same in a page, where all of the input fits into it; none, and nothing changed, where more may follow.
// stays: apart from `replay_page`: a function over both would take the limit and the program, and be longer than the two
pub fn assemble_page(
    page: &mut [u8; PAGE],
    len: usize,
    steps: &mut [Step; 2013],
    marks: &mut [Mark; 63],
) -> Option<usize>
    ensures { Paged page.old len steps.old marks.old result page.new steps.new marks.new }
{
    if len >= PAGE {
        return None;
    }
    Some(assemble_text(page, len, steps, marks))
}
