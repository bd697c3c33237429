//! Reading standard input whole. What standard input will give is not known; the contracts say where what is read goes, and that
//! a count stays within its buffer.
ghost use Rattle.std.specs.Prelude.{◌≡◌, ◌≤◌, min, length, take, drop, IfOk};

use std::io;
use std::io::Read;

/// Fills the buffer from the input, up to its end or the buffer's.
// stays: what the library reads to the end it reads into a `Vec`, on a heap
pub fn read_whole<R: Read>(input: &mut R, buffer: &mut [u8]) -> io::Result<usize>
    ensures { IfOk result (λ n. n ≤ length buffer.new) }
{
    let mut len = 0;
    while len < buffer.len() {
        let n = input.read(&mut buffer[len..])?;
        if n == 0 {
            break;
        }
        len += n;
    }
    Ok(len)
}

/// Reads what is left of the input, and drops it.
// stays: `io::copy` to `io::sink()` has a scratch of 8,192 bytes, with which `assemble` takes 98,800 of stack, over 96 KiB. A stream may
// never end, so the reads are counted: a program comes to its answer after so many
fn drop_rest<R: Read>(input: &mut R) -> io::Result<()> {
    let mut scratch = [0u8; 4096];
    for _ in 0..1000000000 {
        if input.read(&mut scratch)? == 0 {
            break;
        }
    }
    Ok(())
}

/// Reads on where `len` bytes have been read, up to the input's end or the text's, and drops what the text cannot hold; how
/// many bytes it holds then.
// stays: the text is fixed memory, of which the first bytes are read already
pub fn read_rest<R: Read>(input: &mut R, text: &mut [u8], len: usize) -> io::Result<usize>
    ensures within { IfOk result (λ n. n ≤ length text.new) }
    // no fewer than before, and what was read before stays
    ensures grows { IfOk result (λ n. min len (length text.old) ≤ n) }
    ensures kept { take len text.new ≡ take len text.old }
{
    if len >= text.len() {
        drop_rest(input)?;
        return Ok(text.len());
    }
    let n = read_whole(input, &mut text[len..])?;
    if len + n == text.len() {
        drop_rest(input)?;
    }
    Ok(len + n)
}

/// Puts what was read so far into another text, as far as it has room.
pub fn take_over(text: &mut [u8], read: &[u8])
    ensures taken { take (length read.now) text.new ≡ take (length text.old) read.now }
    // bytes past them keep their contents
    ensures kept { drop (length read.now) text.new ≡ drop (length read.now) text.old }
{
    let len = read.len().min(text.len());
    text[..len].copy_from_slice(&read[..len]);
}
