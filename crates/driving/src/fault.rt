//! Why a driving request is refused.
//! stays: the numbers are those of the X lines. An enum whose cases carry values gives none by `as`, so a match does.
ghost use Rattle.std.specs.Prelude.{◌≡◌};
ghost use Rattle.graph.specs.Layer.{layer_number};
ghost use Rattle.driving.specs.Fault.{drive_number, drive_values, drive_layer, drive_place};

use graph::layer::Layer;

/// A driving request's refusal.
#[derive(Clone, Copy, PartialEq, Eq, Debug)]
pub enum DriveFault {
    /// 20: the tree and the graph have not as many tables.
    OtherCount { tree: u32, graph: u32 },
    /// 4: a mark is no join of the graph; the lowest table whose mark towards table 0 is missing.
    NotJoined { table: u32 },
    /// 9: fewer records are lent than there are tables.
    TooFewRecords { needed: usize },
}

impl DriveFault {
    /// The refusal's number.
    pub fn number(self) -> u32
        ensures { result ≡ drive_number self }
    {
        match self {
            DriveFault::OtherCount { .. } => 20,
            DriveFault::NotJoined { .. } => 4,
            DriveFault::TooFewRecords { .. } => 9,
        }
    }

    /// The tables or the amount that it names, and 0 where it names one alone.
    // stays: a refusal of any kind gives two values, and 0 is the one that it does not name
    pub fn values(self) -> [usize; 2]
        ensures { result ≡ drive_values self }
    {
        match self {
            DriveFault::OtherCount { tree, graph } => [tree as usize, graph as usize],
            DriveFault::NotJoined { table } => [table as usize, 0],
            DriveFault::TooFewRecords { needed } => [needed, 0],
        }
    }

    /// The layer that it comes from, which is that of the row counts for all of them.
    pub fn layer(self) -> Layer
        ensures { layer_number result ≡ drive_layer self }
    {
        Layer::Rows
    }

    /// The table or the amount, or 0 where it names two numbers of tables.
    // stays: an X line has a place in any case
    pub fn place(self) -> usize
        ensures { result ≡ drive_place self }
    {
        match self {
            DriveFault::OtherCount { .. } => 0,
            DriveFault::NotJoined { table } => table as usize,
            DriveFault::TooFewRecords { needed } => needed,
        }
    }
}
