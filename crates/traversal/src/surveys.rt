//! The survey of a graph.
ghost use Rattle.std.specs.Prelude.{◌-◌, min};
ghost use Rattle.theory.specs.Graph.{table_count};
ghost use Rattle.bits.specs.Table.{graph_of};
ghost use Rattle.traversal.specs.Survey.{Searches, Surveys};

use super::articulations::articulations;
use super::survey::Survey;
use super::walk::Walk;
use bits::table::BitTable;
use graph::graph::ReadableGraph;

/// What the search of a graph from table `start` tells, or from the last table where there is no such table. Articulation tables are
/// not looked for.
pub fn search(graph: &BitTable, start: u32) -> Survey
    ensures { Searches (graph_of graph.now) (min start (table_count (graph_of graph.now) - 1)) result }
{
    let last = graph.tables() - 1;
    let mut slots = [0; 64];
    let mut walk = Walk::new(graph.all_tables(), start.min(last), &mut slots);
    walk.run(&graph.rows());
    let Walk { survey, .. } = walk;
    survey
}

/// The survey of a graph from table `start`, or from the last table where there is no such table.
pub fn survey(graph: &BitTable, start: u32) -> Survey
    ensures { Surveys (graph_of graph.now) (min start (table_count (graph_of graph.now) - 1)) result }
{
    let mut survey = search(graph, start);
    if !survey.unreached.is_empty() {
        return survey;
    }
    survey.articulations = articulations(&graph.rows(), &survey);
    survey
}
