//! Calls and answers.

use assembly::build::Built;
use driving::fault::DriveFault;
use graph::fault::StoreFault;
use refusals::build::BuildFault;
use trees::fault::TreeFault;

/// A call, with any arguments.
#[derive(Clone, Copy, PartialEq, Eq, Debug)]
pub enum Call {
    /// Puts a pair in.
    Join {
        a: u32,
        b: u32,
    },
    /// Takes a pair out.
    Unjoin {
        a: u32,
        b: u32,
    },
    /// Asks for the build list. The next `records` step records are lent, or those that are left where they are fewer.
    Build {
        records: usize,
    },
    /// Asks which tables may drive, by the tree at a place. The next `records` report records are lent, or those that are left.
    Drive {
        tree: usize,
        records: usize,
    },
    /// Fills the tree at a place with `count` marks from the mark at `first` on, or with those that there are.
    Fill {
        tree: usize,
        first: usize,
        count: usize,
    },
    /// Asks how many tables there are.
    Tables,
    /// Asks whether two tables are joined.
    Joined {
        a: u32,
        b: u32,
    },
    /// Asks for the lowest neighbour of a table that is not below a bound.
    NextNeighbour {
        table: u32,
        bound: u32,
    },
    /// Asks how many joins the graph can hold.
    Capacity,
}

/// What a call answers.
#[derive(Clone, Copy, PartialEq, Eq, Debug)]
pub enum Answer {
    /// Of a join or an unjoin.
    Edited(Result<(), StoreFault>),
    /// Of a build request; the list's steps fill the records from the `from`-th on.
    Built {
        from: usize,
        outcome: Result<Built, BuildFault>,
    },
    /// Of a driving request; its report fills the records from the `from`-th on.
    Driven {
        from: usize,
        outcome: Result<(), DriveFault>,
    },
    /// Of a filling.
    Filled(Result<(), TreeFault>),
    /// How many tables there are.
    Tables(u32),
    /// Whether the two are joined.
    Joined(bool),
    /// The neighbour, or none.
    Neighbour(Option<u32>),
    /// How many joins the graph can hold.
    Capacity(u32),
}

/// A call and its answer: a record that the caller lends with the call in it, and that the answer is put into.
#[derive(Clone, Copy, PartialEq, Eq, Debug)]
pub struct Turn {
    pub call: Call,
    pub answer: Option<Answer>,
}
