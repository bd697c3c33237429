//! The order in which a search leaves tables for good.
ghost use Rattle.std.specs.Prelude.{◌≡◌, ◌≤◌, [], length};

/// At most 64 tables, one after another: a plain value, which may be copied.
// stays: an array with how many of its places are filled, kept together here and nowhere else; an `ArrayVec` is no `Copy` type, and
// then no survey is one
#[derive(Clone, Copy)]
pub struct TableOrder {
    tables: [u32; 64],
    len: usize,
    /// There are no more tables than places.
    ghost few: { len ≤ 64 },
}

impl TableOrder {
    ghost use Rattle.traversal.specs.Order.{tables_in, push_answer, tables_after};

    /// No table.
    pub fn new() -> TableOrder
        ensures { tables_in result ≡ [] }
    {
        TableOrder {
            tables: [0; 64],
            len: 0,
        }
    }

    /// One table more, as the last; or gives it back where there are 64.
    pub fn push(&mut self, table: u32) -> Result<(), u32>
        ensures answer { result ≡ push_answer self.old table }
        ensures kept { tables_in self.new ≡ tables_after self.old table }
    {
        if self.len >= 64 {
            return Err(table);
        }
        self.tables[self.len] = table;
        self.len += 1;
        Ok(())
    }

    /// The tables, in this order.
    pub fn as_slice(&self) -> &[u32]
        ensures value { result.now ≡ tables_in self.now }
        ensures fits { length result.now ≤ 64 }
    {
        &self.tables[..self.len]
    }
}
