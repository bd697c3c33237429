//! Why a store refuses an edit, and where: any refusal with the place that it was met at.
//! stays: the numbers are those of the X lines. An enum whose cases carry values gives none by `as`, so a match does.
ghost use Rattle.std.specs.Prelude.{◌≡◌};
ghost use Rattle.graph.specs.Fault.{store_number, store_values, marked};

/// A store's refusal, with the tables or the amount that it names.
#[derive(Clone, Copy, PartialEq, Eq, Debug)]
pub enum StoreFault {
    /// 1: not the number of a table.
    UnknownTable { table: u32 },
    /// 2: a table paired with itself.
    SameTable { table: u32 },
    /// 3: the two are joined already.
    AlreadyJoined { a: u32, b: u32 },
    /// 4: the two are not joined.
    NotJoined { a: u32, b: u32 },
    /// 5: there are as many joins as the graph can hold.
    Full { capacity: u32 },
}

impl StoreFault {
    /// The refusal's number.
    pub fn number(self) -> u32
        ensures { result ≡ store_number self }
    {
        match self {
            StoreFault::UnknownTable { .. } => 1,
            StoreFault::SameTable { .. } => 2,
            StoreFault::AlreadyJoined { .. } => 3,
            StoreFault::NotJoined { .. } => 4,
            StoreFault::Full { .. } => 5,
        }
    }

    /// The tables or the amount that it names, and 0 where it names one alone.
    // stays: with an `Option` for the second number each caller would take apart what the cases tell already
    pub fn values(self) -> [u32; 2]
        ensures { result ≡ store_values self }
    {
        match self {
            StoreFault::UnknownTable { table } | StoreFault::SameTable { table } => [table, 0],
            StoreFault::AlreadyJoined { a, b } | StoreFault::NotJoined { a, b } => [a, b],
            StoreFault::Full { capacity } => [capacity, 0],
        }
    }
}

/// A refusal with the place that it was met at: the number of a step, or the offset of a line.
#[derive(Clone, Copy, PartialEq, Eq, Debug)]
pub struct At<F> {
    pub place: usize,
    pub fault: F,
}

/// An answer, with the place that it was given at.
pub fn at_place<F>(place: usize, r: Result<(), F>) -> Result<(), At<F>>
    ensures { result ≡ marked place r }
{
    r.map_err(|fault| At { place, fault })
}
