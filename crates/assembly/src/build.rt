//! The build request: the list of steps by which a graph is built, laid into records that the caller lends.
ghost use Rattle.std.specs.Prelude.{◌≡◌, ◌≤◌, length};
ghost use Rattle.bits.specs.Table.{graph_of};
ghost use Rattle.traversal.specs.Survey.{Surveys};
ghost use Rattle.assembly.specs.Build.{list_in, laid_over, build_answer, records_after};
ghost use Rattle.assembly.specs.BuildLaw.{ListGiven, LegalGiven, RefusedExactly, Named, PlaysBack};

use bits::table::BitTable;
use graph::graph::ReadableGraph;
use notes::notes::{Part, lay_list};
use refusals::build::BuildFault;
use theory::step::{Step, Triangle};
use traversal::survey::Survey;
use traversal::surveys::survey;
use verdicts::judge::judge;

/// A list that was given: its triangle, and how many records its steps fill.
#[derive(Clone, Copy, PartialEq, Eq, Debug)]
pub struct Built {
    pub triangle: Triangle,
    pub steps: usize,
}

/// Lays the list of a graph that was surveyed into the records.
fn lay(graph: &BitTable, found: &Survey, records: &mut [Step]) -> Triangle
    requires surveyed { Surveys (graph_of graph.now) 0 found.now }
    requires room { length (list_in graph.now).steps ≤ length records.old }
    ensures triangle { result ≡ (list_in graph.now).triangle }
    ensures steps { records.new ≡ laid_over (list_in graph.now) records.old }
{
    let part = Part {
        tables: graph.all_tables(),
        rows: graph.rows(),
    };
    lay_list(part, found, records)
}

/// Gives the build list of a graph: the triangle and the number of steps are answered, and the steps fill the first records. The
/// graph is only asked.
pub fn build<G: ReadableGraph>(graph: &G, records: &mut [Step]) -> Result<Built, BuildFault>
    // which refusal, in which order of checking, or the list; later records keep their contents, and a refusal leaves all
    ensures answer { result ≡ build_answer (G.meaning graph.now) (length records.old) }
    ensures filled { records.new ≡ records_after (G.meaning graph.now) records.old }
    // the list is the one that taking the graph apart yields, and no other is
    ensures listed { ListGiven (G.meaning graph.now) result records.new }
    // it is a legal build of the graph, with a step for each join but three
    ensures legal { LegalGiven (G.meaning graph.now) result records.new }
    // 6, 7 or 8 is told exactly when the graph has no legal build at all
    ensures refused { RefusedExactly (G.meaning graph.now) result }
    // what a refusal names
    ensures named { Named (G.meaning graph.now) (length records.old) result }
    // played back into any editable graph of as many tables without joins that has room, the list makes the same graph
    ensures plays { PlaysBack (G.meaning graph.now) result records.new }
{
    let copy = BitTable::copy_of(graph);
    let found = survey(&copy, 0);
    let steps = (copy.joins() as usize).saturating_sub(3);
    judge(
        copy.tables(),
        found.unreached,
        found.articulations,
        steps,
        records.len(),
    )?;
    let triangle = lay(&copy, &found, records);
    Ok(Built { triangle, steps })
}
