//! The program `replay`: a list text in, the graph's G and J lines out, or the line of a refusal.
ghost use Rattle.std.specs.Prelude.{◌≡◌, ℕ, ◌+◌, ◌≤◌, length, IfErr, Ok};
ghost use Rattle.theory.specs.Graph.{no_joins, clamped};
ghost use Rattle.bits.specs.Table.{graph_of};
ghost use Rattle.construction.specs.Replay.{replayed};
ghost use Rattle.writer.specs.Laid.{laid};
ghost use Rattle.texts.specs.ListRead.{list_read};
ghost use Rattle.refusals.specs.Fault.{replay_place};
ghost use Rattle.outcomes.specs.Fault.{fault_place};
ghost use Rattle.programs.specs.Replay.{meant, left, replay_told, shown};
ghost use Rattle.programs.specs.Done.{Done, Paged};

use super::refusal::lay_refusal;
use super::workspace::{PAGE, part_read};
use bits::table::BitTable;
use construction::replay::replay;
use outcomes::fault::ProgramFault;
use prints::graph_text::write_graph;
use refusals::fault::ReplayFault;
use texts::list::{BuildList, check_end, read_list};
use theory::step::Step;

/// The graph that a list builds, in a new table of bits.
fn play(list: BuildList) -> Result<BitTable, ReplayFault>
    ensures answer { meant result ≡ left (replayed 2016 (no_joins (clamped list.entry.tables)) list.entry.triangle list.entry.steps.now) }
    ensures near { IfErr result (λ f. replay_place f ≤ 64 + length list.entry.steps.now) }
{
    let mut graph = BitTable::new(list.tables);
    replay(&mut graph, list.triangle, list.steps)?;
    Ok(graph)
}

/// The graph that a list text builds.
fn build(text: &[u8], steps: &mut [Step]) -> Result<BitTable, ProgramFault>
    requires { (length text.now ≤ 36465) × (length steps.old ≤ 2013) }
    ensures answer { meant result ≡ replay_told text.now steps.old }
    ensures filled { steps.new ≡ (list_read text.now 0 steps.old).records }
    ensures near { IfErr result (λ f. fault_place f ≤ 99999) }
{
    let read = read_list(text, 0, steps)?;
    check_end(text, read.end)?;
    let list = BuildList {
        tables: read.tables,
        triangle: read.triangle,
        steps: &steps[..read.steps],
    };
    let graph = play(list)?;
    Ok(graph)
}

/// A graph's text, laid over the text, or the line of its refusal where it has no room.
fn lay_graph(graph: &BitTable, text: &mut [u8]) -> usize
    ensures count { result ≡ length (shown (length text.old) (Ok (graph_of graph.now))) }
    ensures laid { text.new ≡ laid text.old 0 (shown (length text.old) (Ok (graph_of graph.now))) }
{
    match write_graph(graph, text) {
        Ok(n) => n,
        Err(fault) => lay_refusal(ProgramFault::from(fault), text),
    }
}

/// Takes the first `len` bytes of the text as what was read, and lays what is to be printed over the text's first bytes; the
/// answer is how many these are.
// stays: what is printed lies over the same memory, also past what was read, so text and length are two; the match is on whether a
// list was read and played back
pub fn replay_text(text: &mut [u8], len: usize, steps: &mut [Step; 2013]) -> usize
    // the bytes printed, every byte of the text, and every step record, for whatever was read; in other words: a graph is
    // printed exactly where the text read is that of a legal build, and then the graph that it builds
    ensures { Done text.old len steps.old result text.new steps.new }
{
    match build(part_read(text, len), steps) {
        Ok(graph) => lay_graph(&graph, text),
        Err(fault) => lay_refusal(fault, text),
    }
}

/// The same in a page, where what was read and what is printed fit into it; none, and nothing changed, where they may not.
// stays: apart from `assemble_page`: a function over both would take the limit and the program, and be longer than the two
pub fn replay_page(page: &mut [u8; PAGE], len: usize, steps: &mut [Step; 2013]) -> Option<usize>
    ensures { Paged page.old len steps.old result page.new steps.new }
{
    // the text of a graph is 34 bytes longer than that of its list
    if len > PAGE - 34 {
        return None;
    }
    Some(replay_text(page, len, steps))
}
