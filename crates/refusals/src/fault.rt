//! Why a replay refuses. A store's refusal is carried whole, with the number of its step.
//! stays: the numbers are those of the X lines. An enum whose cases carry values gives none by `as`, so a match does.
ghost use Rattle.std.specs.Prelude.{◌≡◌};
ghost use Rattle.graph.specs.Layer.{layer_number};
ghost use Rattle.refusals.specs.Fault.{replay_number, replay_step, replay_values, replay_layer, replay_place};
ghost use Rattle.refusals.specs.declared.fault.ReplayFault.TheVariants.{Store};

use graph::fault::{At, StoreFault};
use graph::layer::Layer;

/// A replay's refusal.
#[derive(Clone, Copy, PartialEq, Eq, Debug)]
pub enum ReplayFault {
    /// 1 to 5: the store refuses at this step.
    Store { step: usize, fault: StoreFault },
    /// 10: the graph has joins before the replay begins.
    HasJoins,
    /// 11: the triangle is not three tables of the graph in rising order.
    NotTriangle,
    /// 12: the new table of this step is in use.
    InUse { step: usize, table: u32 },
    /// 13: a table that this step needs is not in use.
    NotInUse { step: usize, table: u32 },
    /// 14: the lowest table that no step has put into use.
    Unused { table: u32 },
}

impl ReplayFault {
    /// The refusal's number: a store's refusal keeps its own.
    pub fn number(self) -> u32
        ensures { result ≡ replay_number self }
    {
        match self {
            ReplayFault::Store { fault, .. } => fault.number(),
            ReplayFault::HasJoins => 10,
            ReplayFault::NotTriangle => 11,
            ReplayFault::InUse { .. } => 12,
            ReplayFault::NotInUse { .. } => 13,
            ReplayFault::Unused { .. } => 14,
        }
    }

    /// The step that it names: the first is 1, and 0 is the triangle, or none.
    // stays: 0 is the triangle's own number, before the first step; whether a refusal has a step its case tells
    pub fn step(self) -> usize
        ensures { result ≡ replay_step self }
    {
        match self {
            ReplayFault::Store { step, .. } => step,
            ReplayFault::InUse { step, .. } | ReplayFault::NotInUse { step, .. } => step,
            ReplayFault::HasJoins | ReplayFault::NotTriangle | ReplayFault::Unused { .. } => 0,
        }
    }

    /// What a store's refusal names, or the table, and 0 where there is no more.
    // stays: with an `Option` for the second number each caller would take apart what the cases tell already
    pub fn values(self) -> [u32; 2]
        ensures { result ≡ replay_values self }
    {
        match self {
            ReplayFault::Store { fault, .. } => fault.values(),
            ReplayFault::HasJoins | ReplayFault::NotTriangle => [0, 0],
            ReplayFault::InUse { table, .. } | ReplayFault::NotInUse { table, .. } => [table, 0],
            ReplayFault::Unused { table } => [table, 0],
        }
    }

    /// The layer that it comes from: the store, or the replay itself.
    pub fn layer(self) -> Layer
        ensures { layer_number result ≡ replay_layer self }
    {
        match self {
            ReplayFault::Store { .. } => Layer::Store,
            _ => Layer::Replay,
        }
    }

    /// The step that it names, or the table that no step has put into use, or 0.
    // stays: an X line has a place in any case, and 0 is the one of a refusal that names none
    pub fn place(self) -> usize
        ensures { result ≡ replay_place self }
    {
        match self {
            ReplayFault::Unused { table } => table as usize,
            fault => fault.step(),
        }
    }
}

/// The place is the step: 0 is the triangle, and the first step is 1.
// stays: the case says `step`, as `InUse` and `NotInUse` do; an `At` in it would call the same number `place`. The conversion stays
// either way: `?` asks for it
impl From<At<StoreFault>> for ReplayFault {
    ghost from_gives = { λ p r. r ≡ Store p.place p.fault };

    fn from(At { place, fault }: At<StoreFault>) -> ReplayFault {
        ReplayFault::Store { step: place, fault }
    }
}
