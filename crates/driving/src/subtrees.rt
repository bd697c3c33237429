//! What lies under each table in the tree of marks as seen from table 0, and the cross joins for table 0: by one way through the tables
//! in the order in which the search of the marks left them, each after those under it.
ghost use Rattle.std.specs.Prelude.{◌≡◌, ℕ, ◌<◌, ◌≤◌, replicate};
ghost use Rattle.theory.specs.Graph.{Graph};
ghost use Rattle.driving.specs.Marked.{Marked};
ghost use Rattle.driving.specs.Subtrees.{Begins, Gathers, TellsTree};

use super::unmarked::unmarked;
use sets::rows::Rows;
use sets::set::TableSet;
use traversal::survey::Survey;

/// What is known on the way.
#[derive(Clone, Copy)]
pub struct Subtrees {
    /// For each table, the tables under it, of those gone through.
    pub under: [TableSet; 64],
    /// The tables gone through.
    pub gone: TableSet,
    /// How many cross joins for table 0 there are between two of them.
    pub cross: u32,
}

impl Subtrees {
    /// What is known before any table is gone through.
    fn new() -> Subtrees
        ensures { Begins result }
    {
        Subtrees {
            under: [TableSet::new(); 64],
            gone: TableSet::new(),
            cross: 0,
        }
    }

    /// Goes through table `v`: a join with one of the tables `row` is a cross join where that table was gone through and is not under
    /// `v`. What is under `v` is handed on to its parent.
    fn gather(&mut self, row: TableSet, parent: u32, v: u32)
        requires { (v < 64) × ((parent < 64) × (self.old.cross ≤ 4096)) }
        ensures { Gathers row parent v self.old self.new }
    {
        let under = self.under[v as usize].with(v);
        self.cross += row.intersection(self.gone).difference(under).len();
        self.under[v as usize] = under;
        self.under[parent as usize] = self.under[parent as usize].union(under);
        self.gone = self.gone.with(v);
    }
}

/// What lies under each table, and how many cross joins there are for table 0.
pub(super) fn subtrees_of(joins: &Rows, marks: &Rows, survey: &Survey) -> Subtrees
    ensures { (m t : Graph) → Marked m t joins.now marks.now survey.now → TellsTree m t result }
{
    let mut trees = Subtrees::new();
    for &v in survey.left.as_slice() {
        let parent = survey.found[v as usize].parent;
        trees.gather(unmarked(joins, marks, v), parent, v);
    }
    trees
}
