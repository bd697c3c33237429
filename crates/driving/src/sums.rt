//! The cross counts of all tables, by adding the counters of the marks along the tree from table 0 on.
ghost use Rattle.std.specs.Prelude.{◌≡◌, ℕ, ◌<◌, ◌≤◌, pos, ◌+ℤ◌, ◌≤ℤ◌, slice_index};
ghost use Rattle.theory.specs.Graph.{Graph, table_count};
ghost use Rattle.driving.specs.Sums.{Sums, SomeSums};

use traversal::survey::Survey;

/// What is known before any mark is gone along: the count of table 0.
fn begun(at_zero: u32) -> [u32; 64]
    ensures { slice_index result 0 ≡ at_zero }
{
    let mut counts = [0; 64];
    counts[0] = at_zero;
    counts
}

/// A count moved by a counter.
fn moved(count: u32, by: i32) -> u32
    requires { (count ≤ 2016) × ((pos 0 ≤ℤ (pos count +ℤ by)) × ((pos count +ℤ by) ≤ℤ pos 2016)) }
    ensures { pos result ≡ pos count +ℤ by }
{
    (count as i32 + by) as u32
}

/// The count of each table is that of its parent and the counter between them. A parent comes before its children where the tables are
/// taken the other way round than the search left them.
pub(super) fn sums(survey: &Survey, at_zero: u32, counters: &[i32; 64]) -> [u32; 64]
    requires { SomeSums survey.now at_zero counters.now }
    ensures { (t : Graph) (counts : ℕ → ℕ) → Sums t survey.now at_zero counters.now counts
        → (x : ℕ) → x < table_count t → slice_index result x ≡ counts x }
{
    let left = survey.left.as_slice();
    let mut counts = begun(at_zero);
    for k in (0..left.len()).rev() {
        let v = left[k] as usize;
        let parent = survey.found[v].parent as usize;
        counts[v] = moved(counts[parent], counters[v]);
    }
    counts
}
