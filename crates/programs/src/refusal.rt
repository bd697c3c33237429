//! The line of a refusal, laid over a text: what both programs print where they refuse.
ghost use Rattle.std.specs.Prelude.{◌≡◌, length};
ghost use Rattle.writer.specs.Laid.{laid};
ghost use Rattle.programs.specs.Refusal.{refusal_shown};

use outcomes::fault::ProgramFault;
use prints::refusal::write_refusal;

/// Lays the line of a refusal over the text's first bytes, and says how many they are: none where it has no room, or where the
/// place that it names takes more than five digits.
pub fn lay_refusal(fault: ProgramFault, text: &mut [u8]) -> usize
    ensures count { result ≡ length (refusal_shown (length text.old) fault) }
    ensures laid { text.new ≡ laid text.old 0 (refusal_shown (length text.old) fault) }
{
    let Ok(place) = u32::try_from(fault.place()) else {
        return 0;
    };
    write_refusal(text, fault.number(), u32::from(fault.layer()), place).unwrap_or(0)
}
