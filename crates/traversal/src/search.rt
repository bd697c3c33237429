//! The rising depth-first search, one move at a time.
ghost use Rattle.std.specs.Prelude.{◌≡◌, ℕ, ◌<◌, Bool, true, length, replicate, Some, IfSome};
ghost use Rattle.theory.specs.Graph.{Next};
ghost use Rattle.disassembly.specs.Search.{Place, moved, at_start, searched};
ghost use Rattle.memory.specs.Stack.{slots_of, height_of, top_of};
ghost use Rattle.sets.specs.Set.{bit};
ghost use Rattle.sets.specs.Rows.{in_row};
ghost use Rattle.traversal.specs.Discoveries.{undiscovered};
ghost use Rattle.traversal.specs.Order.{tables_in};
ghost use Rattle.traversal.specs.Standing.{to_discover, Starts, Discovers, Leaves, work, Stands, Standing, Below64};

use super::discovery::Discovery;
use super::order::TableOrder;
use super::survey::Survey;
use super::walk::Walk;
use memory::stack::Stack;
use sets::rows::Rows;
use sets::set::TableSet;

/// What is kept before any table is discovered.
fn none_found() -> [Discovery; 64]
    ensures { result ≡ replicate 64 undiscovered }
{
    [Discovery {
        parent: 0,
        number: 0,
        earlier: TableSet::new(),
    }; 64]
}

impl Survey {
    /// What is known at the start of a search.
    fn new(tables: TableSet, start: u32) -> Survey
        ensures { Starts tables start result }
    {
        Survey {
            found: none_found(),
            left: TableOrder::new(),
            unreached: tables.without(start),
            articulations: TableSet::new(),
        }
    }

    /// The lowest undiscovered neighbour of a table, or none.
    fn next_from(&self, rows: &Rows, table: u32) -> Option<u32>
        ensures lowest { Next (to_discover rows.now self.now table) 0 result }
        ensures within { IfSome result (λ u. u < 64) }
    {
        rows.row(table).intersection(self.unreached).first()
    }

    /// Discovers `u`, and keeps how.
    fn discover(&mut self, u: u32, how: Discovery)
        requires { (u < 64) × (how.parent < 64) }
        ensures { Discovers self.old u how self.new }
    {
        self.found[u as usize] = how;
        self.unreached = self.unreached.without(u);
    }

    /// Leaves `t` for good.
    fn leave(&mut self, t: u32)
        requires { (t < 64) × (length (tables_in self.old.left) < 64) }
        ensures { Leaves self.old t self.new }
    {
        let _ = self.left.push(t);
    }
}

impl<'a> Walk<'a> {
    /// The search from `start` among the given tables, at its start.
    pub(super) fn new(tables: TableSet, start: u32, slots: &'a mut [u32; 64]) -> Walk<'a>
        requires { bit tables start ≡ true }
        ensures { Standing (bit tables) (at_start start) result }
    {
        let survey = Survey::new(tables, start);
        let mut path = Stack::new(slots);
        let _ = path.push(start);
        Walk {
            survey,
            path,
            next: 1,
            seen: TableSet::new().with(start),
        }
    }

    /// One move, from the table on top of the path: on to its lowest undiscovered neighbour, or back.
    fn turn(&mut self, rows: &Rows, table: u32)
        requires { top_of (slots_of self.old.path) (height_of self.old.path) ≡ Some table }
        ensures moves { (U : ℕ → Bool) (p : Place) → Below64 U → Standing U p self.old
            → Standing U (moved U (in_row rows.now) p) self.new }
        ensures fewer { work self.new < work self.old }
    {
        match self.survey.next_from(rows, table) {
            None => {
                let _ = self.path.pop();
                self.survey.leave(table);
            }
            Some(neighbour) => {
                let how = Discovery {
                    parent: table,
                    number: self.next,
                    earlier: self.seen,
                };
                self.survey.discover(neighbour, how);
                self.next += 1;
                self.seen = self.seen.with(neighbour);
                let _ = self.path.push(neighbour);
            }
        }
    }

    /// Searches to the end: each table that the start leads to is discovered and left.
    pub fn run(&mut self, rows: &Rows)
        ensures { (U : ℕ → Bool) (r : ℕ) → Below64 U → Standing U (at_start r) self.old
            → Stands U (searched U (in_row rows.now) r) self.new.survey }
    {
        // stays: nothing is counted; the measure is the tables to discover and those on the path
        while let Some(table) = self.path.top() {
            self.turn(rows, table);
        }
    }
}
