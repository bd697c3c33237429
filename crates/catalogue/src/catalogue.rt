//! The catalogue: for each of 64 tables one record, with the number of its rows, or without one.
ghost use Rattle.std.specs.Prelude.{◌≡◌, ℕ, ◌<◌, ◌≤◌, false, length, replicate, slice_set, Some};
ghost use Rattle.catalogue.specs.Rows.{stored_count, out_of_range, row_record, set_answer, records_after, unknown, count_of, SetsOne};

use super::fault::RowFault;
use std::marker::Model;

/// The number of a table's rows, where that is known. To a contract it is that number, or none.
// stays: an `Option` alone has an order, in which what is not known lies below each number; this type has none, so that no planner
// takes the one for the lowest count by a `<`
#[derive(Clone, Copy, PartialEq, Eq, Debug)]
pub struct RowCount {
    /// From 0 to 2,147,483,647.
    known: Option<u32>,
}

impl Model for RowCount {
    ghost use Rattle.std.specs.Prelude.{ℕ, Option};

    ghost Value = { Option ℕ };

    ghost view = { λ c. c.known };

    ghost inverse = { λ o. record { known = o } };
}

impl RowCount {
    /// The number, or none where it is not known.
    pub fn known(self) -> Option<u32>
        ensures { result ≡ self }
    {
        self.known
    }
}

/// What is kept of one table.
// stays: a rule of the project: sixty-four records, of which one is lent by `&mut` to its setter, whatever else a record may come to
// hold
#[derive(Clone, Copy, PartialEq, Eq, Debug)]
pub struct RowRecord {
    /// The number of its rows.
    count: RowCount,
}

impl RowRecord {
    /// Sets the count that a stored number within its range stands for.
    fn store(&mut self, stored: i64)
        requires { out_of_range stored ≡ false }
        ensures { self.new.count ≡ stored_count stored }
    {
        self.count = RowCount {
            known: u32::try_from(stored).ok(),
        };
    }
}

/// A record for each of 64 tables.
#[derive(Clone, Copy)]
pub struct Catalogue {
    records: [RowRecord; 64],
    /// There is a record for each of 64 tables.
    ghost full: { 64 ≤ length records },
    /// No known count is above 2,147,483,647.
    ghost ranged: { (t n : ℕ) → count_of records t ≡ Some n → n ≤ 2147483647 },
}

impl Catalogue {
    ghost use Rattle.catalogue.specs.Records.{records_of};

    /// A catalogue in which no count is known.
    pub fn new() -> Catalogue
        ensures { records_of result ≡ replicate 64 unknown }
    {
        Catalogue {
            records: [RowRecord {
                count: RowCount { known: None },
            }; 64],
        }
    }

    /// The count of a table, not known for a number not below 64.
    pub fn get(&self, table: u32) -> RowCount
        ensures { result ≡ count_of (records_of self.now) table }
    {
        self.records
            .get(table as usize)
            .map_or(RowCount { known: None }, |record| record.count)
    }

    /// Lends the table's record to its setter.
    // stays: table and number are the two arguments of the public `set`; a pair of them would be made for one call, and taken apart
    // in it
    fn put(&mut self, table: u32, stored: i64)
        requires { (table < 64) × (out_of_range stored ≡ false) }
        ensures { records_of self.new ≡ slice_set (records_of self.old) table (row_record stored) }
    {
        let record = &mut self.records[table as usize];
        record.store(stored);
    }

    /// Sets one table's record to what a stored number stands for, or refuses and changes nothing.
    pub fn set(&mut self, table: u32, stored: i64) -> Result<(), RowFault>
        ensures answer { result ≡ set_answer table stored }
        ensures records { records_of self.new ≡ records_after result (records_of self.old) table stored }
        // in other words: this table's count is the stored one, and every other is as it was
        ensures one { SetsOne (records_of self.old) (records_of self.new) table stored result }
    {
        if table >= 64 {
            return Err(RowFault::UnknownTable { table });
        }
        if !(-1..=2147483647).contains(&stored) {
            return Err(RowFault::OutOfRange { table, stored });
        }
        self.put(table, stored);
        Ok(())
    }
}
