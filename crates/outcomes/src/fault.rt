//! Why a program prints a refusal: its number, its layer and its place.
//! stays: each enum of refusals has `number`, `place` and the like as methods of its own; nothing that is generic over a
//! refusal asks it for them, so no trait has them.
ghost use Rattle.std.specs.Prelude.{◌≡◌};
ghost use Rattle.graph.specs.Layer.{layer_number};
ghost use Rattle.outcomes.specs.Fault.{fault_number, fault_layer, fault_place};
ghost use Rattle.outcomes.specs.declared.fault.ProgramFault.TheVariants.{Text, Replay, Query, Build, Tree, Drive};

use driving::fault::DriveFault;
use graph::layer::Layer;
use refusals::build::BuildFault;
use refusals::fault::ReplayFault;
use rejections::fault::QueryFault;
use texts::fault::TextFault;
use trees::fault::TreeFault;

/// A refusal of any layer.
#[derive(Clone, Copy, PartialEq, Eq, Debug)]
pub enum ProgramFault {
    Text(TextFault),
    Replay(ReplayFault),
    Query(QueryFault),
    Build(BuildFault),
    Tree(TreeFault),
    Drive(DriveFault),
}

impl From<TextFault> for ProgramFault {
    ghost from_gives = { λ f r. r ≡ Text f };

    fn from(text: TextFault) -> ProgramFault {
        ProgramFault::Text(text)
    }
}

impl From<ReplayFault> for ProgramFault {
    ghost from_gives = { λ f r. r ≡ Replay f };

    fn from(replay: ReplayFault) -> ProgramFault {
        ProgramFault::Replay(replay)
    }
}

impl From<QueryFault> for ProgramFault {
    ghost from_gives = { λ f r. r ≡ Query f };

    fn from(query: QueryFault) -> ProgramFault {
        ProgramFault::Query(query)
    }
}

impl From<BuildFault> for ProgramFault {
    ghost from_gives = { λ f r. r ≡ Build f };

    fn from(build: BuildFault) -> ProgramFault {
        ProgramFault::Build(build)
    }
}

impl From<TreeFault> for ProgramFault {
    ghost from_gives = { λ f r. r ≡ Tree f };

    fn from(tree: TreeFault) -> ProgramFault {
        ProgramFault::Tree(tree)
    }
}

impl From<DriveFault> for ProgramFault {
    ghost from_gives = { λ f r. r ≡ Drive f };

    fn from(drive: DriveFault) -> ProgramFault {
        ProgramFault::Drive(drive)
    }
}

impl ProgramFault {
    /// The refusal's number.
    pub fn number(self) -> u32
        ensures { result ≡ fault_number self }
    {
        match self {
            ProgramFault::Text(fault) => fault.number(),
            ProgramFault::Replay(fault) => fault.number(),
            ProgramFault::Query(fault) => fault.number(),
            ProgramFault::Build(fault) => fault.number(),
            ProgramFault::Tree(fault) => fault.number(),
            ProgramFault::Drive(fault) => fault.number(),
        }
    }

    /// The layer that it comes from.
    pub fn layer(self) -> Layer
        ensures { layer_number result ≡ fault_layer self }
    {
        match self {
            ProgramFault::Text(_) => Layer::Text,
            ProgramFault::Replay(fault) => fault.layer(),
            ProgramFault::Query(fault) => fault.layer(),
            ProgramFault::Build(fault) => fault.layer(),
            ProgramFault::Tree(fault) => fault.layer(),
            ProgramFault::Drive(fault) => fault.layer(),
        }
    }

    /// The place in the text, the step, the mark's turn, the table or the amount that it names, or 0.
    // stays: an X line has a place in any case, and 0 is the one of a refusal that names none
    pub fn place(self) -> usize
        ensures { result ≡ fault_place self }
    {
        match self {
            ProgramFault::Text(fault) => fault.place(),
            ProgramFault::Replay(fault) => fault.place(),
            ProgramFault::Query(fault) => fault.place(),
            ProgramFault::Build(fault) => fault.value(),
            ProgramFault::Tree(fault) => fault.place(),
            ProgramFault::Drive(fault) => fault.place(),
        }
    }
}
