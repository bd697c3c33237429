//! The keys of two graphs compared: their build lists.
//! stays: number and value are those of the build request's refusal, handed on.
ghost use Rattle.std.specs.Prelude.{◌≡◌, ◌≤◌, true, ◌↔◌, length, take};
ghost use Rattle.assembly.specs.Build.{build_judged, records_after};
ghost use Rattle.keys.specs.Key.{key_number, key_value, key_graph, Compared, second_after, OneKey};

use assembly::build::{Built, build};
use graph::graph::ReadableGraph;
use refusals::build::BuildFault;
use theory::step::Step;

/// Which of two graphs has no key, with its refusal.
// stays: neither case is the good one, as in a Result, or nothing, as in an Option
#[derive(Clone, Copy, PartialEq, Eq, Debug)]
pub enum KeyFault {
    First(BuildFault),
    Second(BuildFault),
}

impl KeyFault {
    /// The refusal's number.
    pub fn number(self) -> u32
        ensures { result ≡ key_number self }
    {
        match self {
            KeyFault::First(f) => f.number(),
            KeyFault::Second(f) => f.number(),
        }
    }

    /// The table or the amount that it names, and 0 where it names none.
    // stays: it is the value of the refusal within, and 0 where that names none
    pub fn value(self) -> usize
        ensures { result ≡ key_value self }
    {
        match self {
            KeyFault::First(f) => f.value(),
            KeyFault::Second(f) => f.value(),
        }
    }

    /// Which graph was refused: 1 the first, 2 the second.
    // stays: it is a place in the row of arguments; to match on, there are the cases
    pub fn graph(self) -> u32
        ensures { result ≡ key_graph self }
    {
        match self {
            KeyFault::First(_) => 1,
            KeyFault::Second(_) => 2,
        }
    }
}

/// Whether two lists are the same: their triangles, and the steps that fill the first records of each.
// stays: records past the steps are no part of a list, so its parts are compared, each by its derived `==`
fn same_lists(a: Built, left: &[Step], b: Built, right: &[Step]) -> bool
    requires { (a.steps ≤ length left.now) × (b.steps ≤ length right.now) }
    ensures { (result ≡ true) ↔ ((a.triangle ≡ b.triangle) × (take a.steps left.now ≡ take b.steps right.now)) }
{
    a.triangle == b.triangle && left[..a.steps] == right[..b.steps]
}

/// Whether two graphs have one key, or which of them has none, and why. Their lists are laid into the records lent for each.
pub fn same_key<G: ReadableGraph, H: ReadableGraph>(
    first: &G,
    second: &H,
    left: &mut [Step],
    right: &mut [Step],
) -> Result<bool, KeyFault>
    // the first graph's refusal, or else the second's, or else whether the lists are equal
    ensures answer { Compared (G.ReadableGraph.meaning first.now) (H.ReadableGraph.meaning second.now) (length left.old) (length right.old) result }
    ensures first { left.new ≡ records_after (G.ReadableGraph.meaning first.now) left.old }
    // the second is not asked where the first is refused
    ensures second { right.new ≡ second_after (build_judged (G.ReadableGraph.meaning first.now) (length left.old)) (H.ReadableGraph.meaning second.now) right.old }
    // the keys are equal exactly when the graphs agree on every pair of tables
    ensures graphs { OneKey (G.ReadableGraph.meaning first.now) (H.ReadableGraph.meaning second.now) result }
{
    let a = build(first, left).map_err(KeyFault::First)?;
    let b = build(second, right).map_err(KeyFault::Second)?;
    Ok(same_lists(a, left, b, right))
}
