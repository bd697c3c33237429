//! Why a mark is refused, and why a tree is not filled. A store's refusal is carried whole.
//! stays: the numbers are those of the X lines. An enum whose cases carry values gives none by `as`, so a match does.
ghost use Rattle.std.specs.Prelude.{◌≡◌};
ghost use Rattle.graph.specs.Layer.{layer_number};
ghost use Rattle.trees.specs.Fault.{mark_number, mark_values, tree_number, tree_turn, tree_values, tree_layer, tree_place};
ghost use Rattle.trees.specs.declared.fault.MarkFault.TheVariants.{Store};
ghost use Rattle.trees.specs.declared.fault.TreeFault.TheVariants.{Mark};

use graph::fault::{At, StoreFault};
use graph::layer::Layer;

/// A mark's refusal.
#[derive(Clone, Copy, PartialEq, Eq, Debug)]
pub enum MarkFault {
    /// 1, 2, 4: what a store would refuse to take out.
    Store(StoreFault),
    /// 19: the marks before it lead from the one table to the other, or it repeats one of them.
    ClosesRing { v: u32, w: u32 },
}

/// The refusal of a tree's filling.
#[derive(Clone, Copy, PartialEq, Eq, Debug)]
pub enum TreeFault {
    /// 18: the marks are not one fewer than the tables.
    WrongCount { needed: usize },
    /// 1, 2, 4, 19: the mark at this turn, counted from 0, is refused.
    Mark { turn: usize, fault: MarkFault },
}

impl MarkFault {
    /// The refusal's number: a store's refusal keeps its own.
    pub fn number(self) -> u32
        ensures { result ≡ mark_number self }
    {
        match self {
            MarkFault::Store(fault) => fault.number(),
            MarkFault::ClosesRing { .. } => 19,
        }
    }

    /// The tables that it names, and 0 where it names one alone.
    // stays: with an `Option` for the second number each caller would take apart what the cases tell already
    pub fn values(self) -> [u32; 2]
        ensures { result ≡ mark_values self }
    {
        match self {
            MarkFault::Store(fault) => fault.values(),
            MarkFault::ClosesRing { v, w } => [v, w],
        }
    }
}

/// A store's refusal is carried whole.
impl From<StoreFault> for MarkFault {
    ghost from_gives = { λ f r. r ≡ Store f };

    fn from(refusal: StoreFault) -> MarkFault {
        MarkFault::Store(refusal)
    }
}

impl TreeFault {
    /// The refusal's number: a mark's refusal keeps its own.
    pub fn number(self) -> u32
        ensures { result ≡ tree_number self }
    {
        match self {
            TreeFault::WrongCount { .. } => 18,
            TreeFault::Mark { fault, .. } => fault.number(),
        }
    }

    /// The turn of the mark that is refused, counted from 0, or 0.
    // stays: 0 is the turn of the first mark too; whether a refusal has a turn its case tells
    pub fn turn(self) -> usize
        ensures { result ≡ tree_turn self }
    {
        match self {
            TreeFault::WrongCount { .. } => 0,
            TreeFault::Mark { turn, .. } => turn,
        }
    }

    /// What the mark's refusal names; or how many marks are needed, and 0.
    // stays: with an `Option` for the second number each caller would take apart what the cases tell already
    pub fn values(self) -> [usize; 2]
        ensures { result ≡ tree_values self }
    {
        match self {
            TreeFault::WrongCount { needed } => [needed, 0],
            TreeFault::Mark { fault, .. } => {
                let [first, second] = fault.values();
                [first as usize, second as usize]
            }
        }
    }

    /// The layer that it comes from, which is that of the row counts for all of them.
    pub fn layer(self) -> Layer
        ensures { layer_number result ≡ tree_layer self }
    {
        Layer::Rows
    }

    /// The turn of the mark that is refused, or 0.
    // stays: an X line has a place in any case, and 0 is the one of a refusal that names none
    pub fn place(self) -> usize
        ensures { result ≡ tree_place self }
    {
        self.turn()
    }
}

/// The place is the mark's turn: the first is 0.
// stays: the case says `turn`; an `At` in it would call the same number `place`. The conversion stays either way: `?` asks for it
impl From<At<MarkFault>> for TreeFault {
    ghost from_gives = { λ p r. r ≡ Mark p.place p.fault };

    fn from(At { place, fault }: At<MarkFault>) -> TreeFault {
        TreeFault::Mark { turn: place, fault }
    }
}
