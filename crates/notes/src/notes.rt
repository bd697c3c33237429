//! Tables taken away from a graph, and the notes of it, laid into lent records.
//! stays: a table is a plain number, as in the traits, in steps and in refusals, where any number may come; a type of those below
//! 64 would have to be made from each of them, and clauses, whose definitions are over numbers, would look through it.
ghost use Rattle.std.specs.Prelude.{◌≡◌, ℕ, ◌<◌, not, ◌&&◌, [], ◌∷◌, ◌==◌};
ghost use Rattle.std.specs.Bool.{then_some};
ghost use Rattle.sets.specs.Set.{tables_of};
ghost use Rattle.sets.specs.Rows.{in_row};
ghost use Rattle.disassembly.specs.Disassembly.{nearest as nearest_to_root, corners as first_three};
ghost use Rattle.disassembly.specs.Disassembly.{edge as edge_step, node as node_step, edges};
ghost use Rattle.traversal.specs.Discoveries.{number_in};
ghost use Rattle.notes.specs.Notes.{part_in, Symmetric, Without, others, Lays, any, corners_of, list_laid};
ghost use Rattle.notes.specs.Notes.{taken_of, noted_of, remains_of, all_notes_of};

use memory::stack::Stack;
use sets::rows::Rows;
use sets::set::TableSet;
use theory::step::{Step, Triangle};
use traversal::discovery::Discovery;
use traversal::survey::Survey;

/// A part of a graph.
#[derive(Drop)]
pub struct Part {
    /// Its tables.
    pub tables: TableSet,
    /// For each table, those that it is joined with.
    pub rows: Rows,
    /// Each join stands in the rows of both its tables.
    pub ghost symmetric: { Symmetric (in_row rows) },
}

/// Of a table's parent and the tables of its row, in rising number, the first of lowest discovery number.
fn nearest(row: TableSet, found: &[Discovery; 64], parent: u32) -> u32
    requires { parent < 64 }
    ensures is { result ≡ nearest_to_root (number_in found.now) parent (tables_of row) }
    ensures within { result < 64 }
{
    let mut best = parent;
    let mut low = found[parent as usize].number;
    // stays: `once(parent).chain(row.tables()).min_by_key(..).unwrap_or(parent)` is no plainer, with a case that cannot be; and on the
    // complete graph of 64 tables it looks at 2,013 tables, where this ends at the root in each row, after 61
    for x in row.tables() {
        // no number is lower
        if low == 0 {
            return best;
        }
        let number = found[x as usize].number;
        if number < low {
            best = x;
            low = number;
        }
    }
    best
}

/// The step that joins two tables, the lower one first.
fn edge(v: u32, w: u32) -> Step
    ensures { result ≡ edge_step v w }
{
    Step::Edge {
        v: v.min(w),
        w: v.max(w),
    }
}

/// The step that puts `u` into the join of two tables, the lower one first.
fn node(u: u32, v: u32, w: u32) -> Step
    ensures { result ≡ node_step u v w }
{
    Step::Node {
        u,
        v: v.min(w),
        w: v.max(w),
    }
}

/// Lays one more note, where there is room for it.
#[tactic(auto, using(crate::proofs::Poured::lays_one))]
fn lay(note: Step, notes: &mut Stack<Step>)
    ensures { Lays notes.old notes.new (note ∷ []) }
{
    let _ = notes.push(note);
}

/// Lays a note where there is one.
fn lay_any(note: Option<Step>, notes: &mut Stack<Step>)
    ensures { Lays notes.old notes.new (any note) }
{
    if let Some(step) = note {
        lay(step, notes);
    }
}

/// Takes `u` out of the rows of the tables of a set, and notes its joins with them, in rising number.
fn strip_others(rows: &mut Rows, u: u32, others: TableSet, notes: &mut Stack<Step>)
    ensures joins { Without u (tables_of others) (in_row rows.old) (in_row rows.new) }
    ensures notes { Lays notes.old notes.new (edges u (tables_of others)) }
{
    for v in others.tables() {
        rows.remove(v, u);
        lay(edge(u, v), notes);
    }
}

/// Takes the joins of `u` out, and notes those with its neighbours other than `f` and `a`, in rising number.
fn strip(rows: &mut Rows, u: u32, f: u32, a: u32, notes: &mut Stack<Step>)
    requires tables { (u < 64) × ((f < 64) × (a < 64)) }
    requires symmetric { Symmetric (in_row rows.old) }
    ensures joins { (x y : ℕ) → in_row rows.new x y ≡ ((not (u == x) && not (u == y)) && in_row rows.old x y) }
    ensures notes { Lays notes.old notes.new (edges u (others (in_row rows.old) u f a)) }
{
    strip_others(rows, u, rows.row(u).without(f).without(a), notes);
    rows.remove(f, u);
    rows.remove(a, u);
    rows.clear(u);
}

// stays: the notes go beside the part; a struct of both would stand before each in every clause.
impl Part {
    /// Takes `u` away: its joins with neighbours other than its parent and the nearest to the root go, then the join of these
    /// two where there is one, and then `u` and its last two joins are replaced by that join. Each removal is noted in its turn.
    fn take_away(&mut self, u: u32, survey: &Survey, notes: &mut Stack<Step>)
        requires { u < 64 }
        ensures part { part_in self.new.tables self.new.rows ≡ taken_of survey.now u (part_in self.old.tables self.old.rows) }
        ensures notes { Lays notes.old notes.new (noted_of survey.now u (part_in self.old.tables self.old.rows)) }
    {
        let f = survey.found[u as usize].parent;
        let a = nearest(self.rows.row(u), &survey.found, f);
        // so that the compiler need not test it in each row and set below
        if u >= 64 || f >= 64 || a >= 64 {
            unreachable!();
        }
        let ends = self.rows.joined(f, a).then_some(edge(f, a));
        strip(&mut self.rows, u, f, a, notes);
        lay_any(ends, notes);
        self.rows.join(f, a);
        lay(node(u, f, a), notes);
        self.tables = self.tables.without(u);
    }

    /// Takes all but the last three of the tables that a search left away, in that order.
    fn take_all(&mut self, survey: &Survey, notes: &mut Stack<Step>)
        ensures part { part_in self.new.tables self.new.rows ≡ remains_of survey.now (part_in self.old.tables self.old.rows) }
        ensures notes { Lays notes.old notes.new (all_notes_of survey.now (part_in self.old.tables self.old.rows)) }
    {
        let left = survey.left.as_slice();
        for &u in &left[..left.len().saturating_sub(3)] {
            self.take_away(u, survey, notes);
        }
    }
}

/// The triangle of the three lowest tables of a set; 0 stands for each that it does not have.
// stays: `lay_list` has no precondition, so it answers a triangle of any part, with 0 for a corner that is not there; an
// `Option` it would have to unwrap
fn corners(tables: TableSet) -> Triangle
    ensures { result ≡ first_three (tables_of tables) }
{
    let mut lowest = tables.tables();
    Triangle {
        a: lowest.next().unwrap_or(0),
        b: lowest.next().unwrap_or(0),
        c: lowest.next().unwrap_or(0),
    }
}

/// Lays the build list into the records: all but the last three of the tables that a search left are taken away, and the notes of
/// it, in reverse, are its steps. The three tables that remain are its triangle, which is answered. Of notes that are more than the
/// records, the first ones are laid, so many as there are records, and these in reverse.
pub fn lay_list(mut part: Part, survey: &Survey, records: &mut [Step]) -> Triangle
    ensures triangle { result ≡ corners_of (remains_of survey.now (part_in part.tables part.rows)).in_use }
    // too few, they hold the notes of the first removals, in reverse; more than enough, the later ones keep their contents
    ensures steps { records.new ≡ list_laid (all_notes_of survey.now (part_in part.tables part.rows)) records.old }
{
    let mut notes = Stack::new(records);
    part.take_all(survey, &mut notes);
    let laid = notes.len();
    records[..laid].reverse();
    corners(part.tables)
}
