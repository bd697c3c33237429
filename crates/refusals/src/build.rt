//! Why a build request is refused.
//! stays: the numbers are those of the X lines. An enum whose cases carry values gives none by `as`, so a match does.
ghost use Rattle.std.specs.Prelude.{◌≡◌};
ghost use Rattle.graph.specs.Layer.{layer_number};
ghost use Rattle.refusals.specs.Build.{build_number, build_value, build_layer};

use graph::layer::Layer;

/// A build request's refusal.
#[derive(Clone, Copy, PartialEq, Eq, Debug)]
pub enum BuildFault {
    /// 6: there are fewer than three tables.
    TooSmall,
    /// 7: the lowest table that no joins lead to from table 0.
    Unreached { table: u32 },
    /// 8: the lowest table whose removal leaves the other tables not connected.
    Articulation { table: u32 },
    /// 9: fewer records are lent than the list has steps.
    TooFewRecords { needed: usize },
}

impl BuildFault {
    /// The refusal's number.
    pub fn number(self) -> u32
        ensures { result ≡ build_number self }
    {
        match self {
            BuildFault::TooSmall => 6,
            BuildFault::Unreached { .. } => 7,
            BuildFault::Articulation { .. } => 8,
            BuildFault::TooFewRecords { .. } => 9,
        }
    }

    /// The table or the amount that it names, and 0 where it names none.
    // stays: an X line has a place in any case, and 0 is the one of a refusal that names none
    pub fn value(self) -> usize
        ensures { result ≡ build_value self }
    {
        match self {
            BuildFault::TooSmall => 0,
            BuildFault::Unreached { table } | BuildFault::Articulation { table } => table as usize,
            BuildFault::TooFewRecords { needed } => needed,
        }
    }

    /// The layer that it comes from, which is the replay's for all of them.
    pub fn layer(self) -> Layer
        ensures { layer_number result ≡ build_layer self }
    {
        Layer::Replay
    }
}
