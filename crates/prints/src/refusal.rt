//! The line of a refusal.
ghost use Rattle.std.specs.Prelude.{◌≡◌, length};
ghost use Rattle.prints.specs.Refusal.{refusal_answer, refusal_written};

use texts::fault::TextFault;
use writer::line::put_line;

/// Writes the X line of a refusal over the first bytes of `out`, and says how many they are. A refusal writes nothing.
// stays: the layer is a number, as it is printed, and no `Layer`: any three numbers are answered, also those too large for their
// fields, and a narrower type would take that from callers. One that has a `Layer` converts it by `u32::from`
pub fn write_refusal(
    out: &mut [u8],
    number: u32,
    layer: u32,
    place: u32,
) -> Result<usize, TextFault>
    ensures answer { result ≡ refusal_answer number layer place (length out.old) }
    ensures written { out.new ≡ refusal_written number layer place out.old }
{
    if number > 99999 || layer > 99999 || place > 99999 {
        return Err(TextFault::OutOfLimits { place: 0 });
    }
    if out.len() < 17 {
        return Err(TextFault::TooFew { needed: 17 });
    }
    put_line(out, 0, b'X', [Some(number), Some(layer), Some(place)]);
    Ok(17)
}
