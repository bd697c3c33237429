//! Writing a build list over bytes that are lent. A refusal writes nothing.
//! stays: 99,999 is the largest number of a field, written out as the definitions have it.
ghost use Rattle.std.specs.Prelude.{◌≡◌, ℕ, ◌+◌, ◌-◌, ◌*◌, ◌<◌, ◌≤◌, length};
ghost use Rattle.std.specs.List.{flat_map, position};
ghost use Rattle.writer.specs.Laid.{laid, laid_line};
ghost use Rattle.texts.specs.ListText.{step_line, step_text};
ghost use Rattle.texts.specs.ListWrite.{step_over, steps_over, list_write_answer, list_written};
ghost use Rattle.texts.specs.ListLaw.{ReadsBack};

use super::fault::TextFault;
use super::list::BuildList;
use theory::step::Step;
use writer::line::put_line;

/// Whether a number of the step is too large for its field.
fn is_over(step: Step) -> bool
    ensures { result ≡ step_over step }
{
    match step {
        Step::Edge { v, w } => v > 99999 || w > 99999,
        Step::Node { u, v, w } => u > 99999 || v > 99999 || w > 99999,
    }
}

/// The first step that has such a number.
fn first_over(steps: &[Step]) -> Option<usize>
    ensures { result ≡ position step_over steps.now }
{
    steps.iter().position(|step| is_over(*step))
}

/// 17 with the offset of the first step line that has such a number.
fn check_steps(steps: &[Step]) -> Result<(), TextFault>
    requires { length steps.now ≤ 2013 }
    ensures { result ≡ steps_over 34 steps.now }
{
    match first_over(steps) {
        Some(i) => Err(TextFault::OutOfLimits { place: 34 + 17 * i }),
        None => Ok(()),
    }
}

/// The line of one step.
// stays: a match on the value's own cases
fn put_step(out: &mut [u8], at: usize, step: Step)
    ensures { out.new ≡ laid_line out.old at (step_line step) }
{
    match step {
        Step::Edge { v, w } => put_line(out, at, b'E', [None, Some(v), Some(w)]),
        Step::Node { u, v, w } => put_line(out, at, b'N', [Some(u), Some(v), Some(w)]),
    }
}

/// The lines of all steps.
fn put_steps(out: &mut [u8], steps: &[Step])
    requires { (34 + 17 * length steps.now ≤ length out.old) × (length steps.now ≤ 2013) }
    ensures { out.new ≡ laid out.old 34 (flat_map step_text steps.now) }
{
    for (i, step) in steps.iter().enumerate() {
        put_step(out, 34 + 17 * i, *step);
    }
}

/// Writes the text of a list over the first bytes of `out`, and says how many they are.
pub fn write_list(out: &mut [u8], list: BuildList) -> Result<usize, TextFault>
    ensures answer { result ≡ list_write_answer list.entry.tables list.entry.triangle list.entry.steps.now (length out.old) }
    // a refusal writes nothing, and bytes past the text keep their contents
    ensures written { out.new ≡ list_written list.entry.tables list.entry.triangle list.entry.steps.now out.old }
    // what is written reads back as the same list
    ensures back { ReadsBack list.entry.tables list.entry.triangle list.entry.steps.now out.new result }
{
    let BuildList {
        tables,
        triangle,
        steps,
    } = list;
    if !(3..=64).contains(&tables) || steps.len() > 2013 {
        return Err(TextFault::OutOfLimits { place: 0 });
    }
    if triangle.a > 99999 || triangle.b > 99999 || triangle.c > 99999 {
        return Err(TextFault::OutOfLimits { place: 17 });
    }
    check_steps(steps)?;
    let count = steps.len();
    let needed = 34 + 17 * count;
    if out.len() < needed {
        return Err(TextFault::TooFew { needed });
    }
    let written = count as u32;
    let numbers = [Some(tables), Some(written + 3), Some(written)];
    put_line(out, 0, b'H', numbers);
    let corners = [Some(triangle.a), Some(triangle.b), Some(triangle.c)];
    put_line(out, 17, b'T', corners);
    put_steps(out, steps);
    Ok(needed)
}
