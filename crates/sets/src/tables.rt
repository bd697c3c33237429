//! The tables of a set, one after another.
ghost use Rattle.std.specs.Iterator.{YieldsFirst, item_count};
ghost use Rattle.sets.specs.Set.{tables_of};

use super::set::TableSet;

/// The tables of a set that are still to come, in rising number.
#[derive(Drop)]
pub struct Tables {
    pub left: TableSet,
}

impl Iterator for Tables {
    type Item = u32;

    ghost next_gives = { YieldsFirst (λ s. tables_of s.left) };

    ghost remaining = { item_count (λ s. tables_of s.left) };

    fn next(&mut self) -> Option<u32> {
        self.left.pop_first()
    }
}
