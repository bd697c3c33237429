//! The articulation tables of a graph, all of whose tables a search discovered: by low points, in time linear in its tables.
ghost use Rattle.std.specs.Prelude.{◌≡◌, ℕ, ◌<◌, Bool, replicate};
ghost use Rattle.disassembly.specs.Reach.{separates};
ghost use Rattle.sets.specs.Set.{bit};
ghost use Rattle.sets.specs.Rows.{in_row};
ghost use Rattle.traversal.specs.Folding.{cuts_off_by, Folds, Whole, SomeWhole};

use super::lows::Lows;
use super::survey::Survey;
use sets::rows::Rows;
use sets::set::TableSet;

impl Lows {
    /// What is known before any table is gone through.
    fn new(start: u32) -> Lows
        ensures start { result.start ≡ start }
        ensures below { result.below ≡ replicate 64 0 }
        ensures cuts { result.cuts ≡ 0 }
    {
        Lows {
            start,
            below: [TableSet::new(); 64],
            cuts: TableSet::new(),
        }
    }

    /// Whether `v` makes its parent an articulation table: another child of the start than the first, or a child from which, or from
    /// below which, no join leads to a table discovered before the parent. Their joins lead to the tables `touched`.
    fn cuts_off(&self, survey: &Survey, v: u32, touched: TableSet) -> bool
        requires { v < 64 }
        ensures { result ≡ cuts_off_by survey.now self.now.start v (bit touched) }
    {
        let child = survey.found[v as usize];
        if child.parent == self.start {
            child.number != 1
        } else {
            let earlier = survey.found[child.parent as usize].earlier;
            touched.intersection(earlier).is_empty()
        }
    }

    /// Goes through the table `v`, after those that were left before it, and hands on to its parent what it touches.
    fn fold(&mut self, rows: &Rows, survey: &Survey, v: u32)
        requires { v < 64 }
        ensures { Folds rows.now survey.now v self.old self.new }
    {
        let touched = rows.row(v).union(self.below[v as usize]);
        let f = survey.found[v as usize].parent;
        if self.cuts_off(survey, v, touched) {
            self.cuts = self.cuts.with(f);
        }
        self.below[f as usize] = self.below[f as usize].union(touched);
    }
}

/// The articulation tables, where the search discovered all tables. The start, which is left last, has no parent.
pub(super) fn articulations(rows: &Rows, survey: &Survey) -> TableSet
    requires { SomeWhole rows.now survey.now }
    ensures { (U : ℕ → Bool) (r : ℕ) → Whole U (in_row rows.now) r survey.now
        → (x : ℕ) → bit result x ≡ separates U (in_row rows.now) x }
{
    let left = survey.left.as_slice();
    let last = left.len() - 1;
    let mut lows = Lows::new(left[last]);
    for &v in &left[..last] {
        lows.fold(rows, survey, v);
    }
    lows.cuts
}
