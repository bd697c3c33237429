//! For each mark a signed counter: how the cross count moves along it, from a table's parent to the table.
ghost use Rattle.std.specs.Prelude.{◌≡◌, ℕ, ◌<◌, ◌≤◌, pos, ◌-ℤ◌, slice_index_or};
ghost use Rattle.sets.specs.Set.{bit};
ghost use Rattle.driving.specs.Counters.{gained_by, lost_by, Counts};

use super::unmarked::unmarked;
use sets::rows::Rows;
use sets::set::TableSet;
use traversal::survey::Survey;

/// The counter of the mark between `s` and its parent: the unmarked joins of the parent with the tables under `s` come in, and those of
/// `s` with tables not under it go out.
fn along(joins: &Rows, marks: &Rows, under: TableSet, parent: u32, s: u32) -> i32
    ensures { result ≡ pos (gained_by joins.now marks.now (bit under) parent) -ℤ pos (lost_by joins.now marks.now (bit under) s) }
{
    let gained = unmarked(joins, marks, parent).intersection(under).len();
    let lost = unmarked(joins, marks, s).difference(under).len();
    gained as i32 - lost as i32
}

/// The counters, each at the place of the mark's lower end as seen from table 0. That of table 0, which has no parent, is 0.
pub(super) fn counters(
    joins: &Rows,
    marks: &Rows,
    survey: &Survey,
    under: &[TableSet; 64],
    tables: u32,
) -> [i32; 64]
    requires { tables ≤ 64 }
    ensures { Counts joins.now marks.now survey.now under.now tables result }
{
    let mut counters = [0; 64];
    for s in 1..tables {
        let parent = survey.found[s as usize].parent;
        counters[s as usize] = along(joins, marks, under[s as usize], parent, s);
    }
    counters
}
