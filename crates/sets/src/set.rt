//! A set of tables, kept as the bits of one word. A set is a plain value: what changes one gives the changed one. Numbers of any size
//! may be asked for, put in or taken out: those not below 64 are in no set.
//! stays: sets of tables are shifted and masked in this file and in no other. `checked_shl` and `checked_shr` make the same tests of the bound, and
//! give an `Option` to unwrap; `first` is no `first_from(0)`, since its clause `is` tells the number that requests are judged by.
ghost use Rattle.std.specs.Prelude.{◌≡◌, ℕ, ◌<◌, ◌||◌, ◌&&◌, not, ◌==◌, nat_lt, IfSome};
ghost use Rattle.std.specs.Iterator.{YieldsFirst};
ghost use Rattle.theory.specs.Graph.{Next};
ghost use Rattle.sets.specs.Set.{bit, bits_set, lowest_in, tables_of};

use super::tables::Tables;
use std::marker::Model;

/// A set of tables below 64. To a contract it is the number whose bits are its tables.
#[derive(Clone, Copy, PartialEq, Eq, Debug)]
pub struct TableSet {
    bits: u64,
}

impl Model for TableSet {
    ghost use Rattle.std.specs.Prelude.{ℕ};

    ghost Value = { ℕ };

    ghost view = { λ s. s.bits };

    ghost inverse = { λ n. record { bits = n } };
}

/// The set whose tables are the bits of a word.
impl From<u64> for TableSet {
    ghost from_gives = { λ bits s. s ≡ bits };

    fn from(bits: u64) -> TableSet {
        TableSet { bits }
    }
}

/// A word with a bit for each table of the set.
impl From<TableSet> for u64 {
    ghost from_gives = { λ s bits. bits ≡ s };

    fn from(set: TableSet) -> u64 {
        set.bits
    }
}

/// The bit of a table, or none where there is no such bit.
fn bit_of(table: u32) -> u64
    ensures { (x : ℕ) → bit result x ≡ (x == table && nat_lt x 64) }
{
    if table < 64 { 1u64 << table } else { 0 }
}

impl TableSet {
    /// The set without tables.
    pub fn new() -> TableSet
        ensures { result ≡ 0 }
    {
        TableSet { bits: 0 }
    }

    /// The tables below `count`, of all 64 where it is more.
    pub fn below(count: u32) -> TableSet
        ensures { (x : ℕ) → bit result x ≡ (nat_lt x count && nat_lt x 64) }
    {
        if count == 0 {
            return TableSet::new();
        }
        TableSet {
            bits: u64::MAX >> 64u32.saturating_sub(count),
        }
    }

    /// Whether it is without tables.
    pub fn is_empty(self) -> bool
        ensures { result ≡ (self == 0) }
    {
        self.bits == 0
    }

    /// How many tables are in it.
    pub fn len(self) -> u32
        ensures { result ≡ bits_set self }
    {
        self.bits.count_ones()
    }

    /// Whether a table is in it.
    pub fn contains(self, table: u32) -> bool
        ensures { result ≡ bit self table }
    {
        table < 64 && (self.bits >> table) & 1 == 1
    }

    /// The set with a table put in, whether it is there or not.
    pub fn with(self, table: u32) -> TableSet
        ensures { (x : ℕ) → bit result x ≡ ((x == table && nat_lt x 64) || bit self x) }
    {
        TableSet {
            bits: self.bits | bit_of(table),
        }
    }

    /// The set with a table taken out, whether it is there or not.
    pub fn without(self, table: u32) -> TableSet
        ensures { (x : ℕ) → bit result x ≡ (not (x == table) && bit self x) }
    {
        TableSet {
            bits: self.bits & !bit_of(table),
        }
    }

    /// The tables that are in either.
    pub fn union(self, other: TableSet) -> TableSet
        ensures { (x : ℕ) → bit result x ≡ (bit self x || bit other x) }
    {
        TableSet {
            bits: self.bits | other.bits,
        }
    }

    /// The tables that are in both.
    pub fn intersection(self, other: TableSet) -> TableSet
        ensures { (x : ℕ) → bit result x ≡ (bit self x && bit other x) }
    {
        TableSet {
            bits: self.bits & other.bits,
        }
    }

    /// The tables that are in this one and not in the other.
    pub fn difference(self, other: TableSet) -> TableSet
        ensures { (x : ℕ) → bit result x ≡ (bit self x && not (bit other x)) }
    {
        TableSet {
            bits: self.bits & !other.bits,
        }
    }

    /// The lowest table, or none.
    pub fn first(self) -> Option<u32>
        ensures is { result ≡ lowest_in self }
        ensures lowest { Next (bit self) 0 result }
        ensures within { IfSome result (λ table. table < 64) }
    {
        if self.bits == 0 {
            None
        } else {
            Some(self.bits.trailing_zeros())
        }
    }

    /// The lowest table that is not below `bound`, or none.
    pub fn first_from(self, bound: u32) -> Option<u32>
        ensures { Next (bit self) bound result }
    {
        if bound >= 64 {
            return None;
        }
        let high = self.bits >> bound;
        if high == 0 {
            None
        } else {
            Some(bound + high.trailing_zeros())
        }
    }

    /// Takes the lowest table out, or gives none where it is empty.
    pub fn pop_first(&mut self) -> Option<u32>
        ensures { YieldsFirst tables_of self.old result self.new }
    {
        let first = self.first()?;
        self.bits &= self.bits - 1;
        Some(first)
    }

    /// Its tables, one after another, in rising number.
    pub fn tables(self) -> Tables
        ensures { result.left ≡ self }
    {
        Tables { left: self }
    }
}
