//! A stack in memory that the caller lends, for records of any plain kind. Full, it takes none; empty, it gives none.
ghost use Rattle.std.specs.Prelude.{◌≡◌, ℕ, ◌-◌, ◌≤◌, length};

/// The first `len` slots hold what was put in, the last of them on top; the other slots keep what the lender left there.
// stays: the slots are lent, and there is no heap; this type is what keeps a length and its slots together
#[derive(Drop)]
pub struct Stack<'a, T> {
    slots: &'a mut [T],
    len: usize,
    ghost fits: { len ≤ length slots.now },
}

impl<'a, T: Copy> Stack<'a, T> {
    ghost use Rattle.memory.specs.Stack.{slots_of, height_of, lender_of, push_answer, slots_after, height_after, top_of};

    /// An empty stack over the slots, which keep their contents until something is put there.
    pub fn new(slots: &'a mut [T]) -> Stack<'a, T>
        ensures empty { height_of result ≡ 0 }
        ensures kept { slots_of result ≡ slots.old }
        // what the stack leaves in the slots is what the lender finds there afterwards
        ensures lender { lender_of result ≡ slots.entry.ghost_name }
    {
        Stack { slots, len: 0 }
    }

    /// How many records it holds.
    pub fn len(&self) -> usize
        ensures { result ≡ height_of self.now }
    {
        self.len // of the records, not of the slots
    }

    /// The record on top, or none where it is empty.
    pub fn top(&self) -> Option<T>
        ensures { result ≡ top_of (slots_of self.now) (height_of self.now) }
    {
        self.slots[..self.len].last().copied()
    }

    /// Puts a record on top, or gives it back where the stack is full.
    pub fn push(&mut self, x: T) -> Result<(), T>
        ensures answer { result ≡ push_answer (slots_of self.old) (height_of self.old) x }
        // the one slot written is the first free one
        ensures kept { slots_of self.new ≡ slots_after (slots_of self.old) (height_of self.old) x }
        ensures height { height_of self.new ≡ height_after (slots_of self.old) (height_of self.old) }
        ensures lender { lender_of self.new ≡ lender_of self.old }
    {
        if self.len >= self.slots.len() {
            return Err(x);
        }
        self.slots[self.len] = x;
        self.len += 1;
        Ok(())
    }

    /// Takes the record on top, or gives none where it is empty.
    pub fn pop(&mut self) -> Option<T>
        ensures answer { result ≡ top_of (slots_of self.old) (height_of self.old) }
        // no slot is written
        ensures kept { slots_of self.new ≡ slots_of self.old }
        ensures height { height_of self.new ≡ height_of self.old - 1 }
        ensures lender { lender_of self.new ≡ lender_of self.old }
    {
        self.len = self.len.checked_sub(1)?;
        Some(self.slots[self.len])
    }
}
