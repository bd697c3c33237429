//! Labels of tables: tables of one label belong together.
ghost use Rattle.std.specs.Prelude.{◌≡◌, ℕ, ◌<◌, cond, slice_index, ◌==◌};
ghost use Rattle.trees.specs.Labels.{label};

/// A label for each of 64 tables.
#[derive(Clone, Copy)]
pub struct Labels {
    labels: [u8; 64],
}

/// Gives all that have one label another.
fn relabel(labels: &mut [u8; 64], gone: u8, kept: u8)
    ensures { (x : ℕ) → x < 64 → slice_index labels.new x ≡ cond (slice_index labels.old x == gone) kept (slice_index labels.old x) }
{
    for label in labels.iter_mut() {
        *label = if *label == gone { kept } else { *label };
    }
}

// stays: two tables are two arguments, as in the traits; a pair would be made for the call and taken apart in it.
impl Labels {
    /// Each table is its own label.
    pub fn new() -> Labels
        ensures { (x : ℕ) → x < 64 → label result x ≡ x }
    {
        let mut labels = [0; 64];
        for (table, label) in labels.iter_mut().enumerate() {
            *label = table as u8;
        }
        Labels { labels }
    }

    /// Whether two tables have the same label.
    pub fn same(&self, a: u32, b: u32) -> bool
        requires { (a < 64) × (b < 64) }
        ensures { result ≡ (label self.now a == label self.now b) }
    {
        self.labels[a as usize] == self.labels[b as usize]
    }

    /// What has the label of `b` gets that of `a`.
    pub fn merge(&mut self, a: u32, b: u32)
        requires { (a < 64) × (b < 64) }
        ensures { (x : ℕ) → x < 64 → label self.new x ≡ cond (label self.old x == label self.old b) (label self.old a) (label self.old x) }
    {
        let gone = self.labels[b as usize];
        let kept = self.labels[a as usize];
        relabel(&mut self.labels, gone, kept);
    }
}
