//! What the programs hold alike: the sizes of their texts, which part of one they look at, and the record of a mark.
ghost use Rattle.std.specs.Prelude.{◌≡◌, ◌≤◌, length};
ghost use Rattle.programs.specs.Replay.{looked_at};

pub use theory::mark::Mark;

/// What is read first. Most texts are no longer, and then the memory for the longest need not be cleared.
pub const PAGE: usize = 4096;

/// The largest query text has 36,448 bytes, and the 17 bytes after a text are judged, too. The largest text of a list, or of
/// a graph, is shorter.
pub const TEXT: usize = 36465;

/// The part of a text that is looked at, where `len` bytes were read into it.
// stays: this is where a text and a length become one slice
pub fn part_read(text: &[u8], len: usize) -> &[u8]
    ensures part { result.now ≡ looked_at text.now len }
    ensures short { length result.now ≤ 36465 }
{
    &text[..len.min(text.len()).min(TEXT)]
}
