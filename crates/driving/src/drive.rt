//! The driving request.
ghost use Rattle.std.specs.Prelude.{◌≡◌, length};
ghost use Rattle.driving.specs.Drive.{drive_judged, report_after};
ghost use Rattle.driving.specs.DriveLaw.{Reported, DriveNamed, AcceptedExactly};
ghost use Rattle.trees.specs.Spanner.{tree_of};

use super::crossings::cross_counts;
use super::fault::DriveFault;
use super::judge::judge;
use super::laying::lay;
use bits::table::BitTable;
use graph::graph::ReadableGraph;
use reports::record::ReportRecord;
use traversal::surveys::search;
use trees::tree::SpanningTree;

/// Reports of each table its cross count and whether it drives, in the first records. The graph and the tree are only asked.
pub fn drive<G: ReadableGraph>(
    graph: &G,
    tree: &SpanningTree,
    report: &mut [ReportRecord],
) -> Result<(), DriveFault>
    ensures answer { result ≡ drive_judged (G.ReadableGraph.meaning graph.now) (tree_of tree.now) (length report.old) }
    // later records keep their contents, and a refusal leaves all
    ensures filled { report.new ≡ report_after result (G.ReadableGraph.meaning graph.now) (tree_of tree.now) report.old }
    // in words of marked paths and searches
    ensures reported { Reported (G.ReadableGraph.meaning graph.now) (tree_of tree.now) result report.new }
    ensures named { DriveNamed (G.ReadableGraph.meaning graph.now) (tree_of tree.now) (length report.old) result }
    ensures exactly { AcceptedExactly (G.ReadableGraph.meaning graph.now) (tree_of tree.now) (length report.old) result }
{
    let copy = BitTable::copy_of(graph);
    let marks = tree.marks();
    let survey = search(marks, 0);
    judge(&copy, marks, &survey, report.len())?;
    let counts = cross_counts(&copy, marks, &survey);
    lay(&counts, copy.tables(), report);
    Ok(())
}
