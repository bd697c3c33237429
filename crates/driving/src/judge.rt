//! What stands against a driving request.
ghost use Rattle.std.specs.Prelude.{◌≡◌};
ghost use Rattle.theory.specs.Graph.{Graph, table_count};
ghost use Rattle.bits.specs.Table.{graph_of};
ghost use Rattle.traversal.specs.Survey.{Searches};
ghost use Rattle.driving.specs.Drive.{lowest_missing, drive_judged};

use super::fault::DriveFault;
use bits::table::BitTable;
use graph::graph::ReadableGraph;
use traversal::survey::Survey;

/// The lowest table whose mark towards table 0 is no join of the graph, or none, where the search was of a tree of as many tables.
fn lowest_missing(graph: &BitTable, survey: &Survey) -> Option<u32>
    ensures { (t : Graph) → Searches t 0 survey.now → table_count t ≡ table_count (graph_of graph.now) → result ≡ lowest_missing (graph_of graph.now) t }
{
    for x in 1..graph.tables() {
        let parent = survey.found[x as usize].parent;
        if !graph.joined(x, parent) {
            return Some(x);
        }
    }
    None
}

/// The first of 20, 4 and 9 whose condition holds, where `room` records are lent.
pub(super) fn judge(
    graph: &BitTable,
    marks: &BitTable,
    survey: &Survey,
    room: usize,
) -> Result<(), DriveFault>
    ensures { Searches (graph_of marks.now) 0 survey.now → result ≡ drive_judged (graph_of graph.now) (graph_of marks.now) room }
{
    let tables = graph.tables();
    if marks.tables() != tables {
        return Err(DriveFault::OtherCount {
            tree: marks.tables(),
            graph: tables,
        });
    }
    if let Some(table) = lowest_missing(graph, survey) {
        return Err(DriveFault::NotJoined { table });
    }
    let needed = tables as usize;
    if room < needed {
        return Err(DriveFault::TooFewRecords { needed });
    }
    Ok(())
}
