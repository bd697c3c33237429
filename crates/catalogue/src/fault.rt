//! Why a row count is refused.
//! stays: the numbers are those of the X lines. An enum whose cases carry values gives none by `as`, so a match does.
ghost use Rattle.std.specs.Prelude.{◌≡◌};
ghost use Rattle.catalogue.specs.Fault.{row_number, row_values};

/// A row count's refusal, with the table, and with the stored number where that is at fault.
#[derive(Clone, Copy, PartialEq, Eq, Debug)]
pub enum RowFault {
    /// 1: not the number of a table.
    UnknownTable { table: u32 },
    /// 21: the stored number is below −1 or above 2,147,483,647.
    OutOfRange { table: u32, stored: i64 },
}

impl RowFault {
    /// The refusal's number.
    pub fn number(self) -> u32
        ensures { result ≡ row_number self }
    {
        match self {
            RowFault::UnknownTable { .. } => 1,
            RowFault::OutOfRange { .. } => 21,
        }
    }

    /// The table, and the stored number, or 0 where it is not at fault.
    // stays: with an `Option` for the second number each caller would take apart what the cases tell already
    pub fn values(self) -> [i64; 2]
        ensures { result ≡ row_values self }
    {
        match self {
            RowFault::UnknownTable { table } => [table as i64, 0],
            RowFault::OutOfRange { table, stored } => [table as i64, stored],
        }
    }
}
