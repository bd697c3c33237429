//! Writing one line over a buffer. Where there is no room for the whole line nothing is written.
ghost use Rattle.std.specs.Prelude.{◌≡◌, cond, ◌+◌, ◌%◌, ◌≤◌, eqb, length};
ghost use Rattle.lines.specs.Text.{number_text, optional_text};
ghost use Rattle.writer.specs.Laid.{laid, laid_columns};

/// The character of one place of a number: `q` is the number without the places below.
// stays: printing by `write!` takes six times the instructions a line, some 560; and `char::from_digit` gives an `Option` of a
// `char`, where no number here can fail, and a byte is wanted
fn place(q: u32) -> u8
    ensures { result ≡ cond (eqb q 0) 32 (48 + q % 10) }
{
    if q == 0 { b' ' } else { b'0' + (q % 10) as u8 }
}

/// Lays a number over the buffer, right-justified in five characters.
// stays: each place is stored as soon as it is known. As an array of five that is copied, all are held until the last is known,
// which takes 23,000 of the 830,000 instructions of `assemble` on the complete graph of 64 tables
fn put_number(out: &mut [u8], at: usize, v: u32)
    requires { at + 5 ≤ length out.old }
    ensures { out.new ≡ laid out.old at (number_text v) }
{
    out[at] = place(v / 10000);
    out[at + 1] = place(v / 1000);
    out[at + 2] = place(v / 100);
    out[at + 3] = place(v / 10);
    out[at + 4] = b'0' + (v % 10) as u8;
}

/// Lays a column over the buffer: a number, or an unused field.
fn put_column(out: &mut [u8], at: usize, content: Option<u32>)
    requires { at + 5 ≤ length out.old }
    ensures { out.new ≡ laid out.old at (optional_text content) }
{
    match content {
        Some(v) => put_number(out, at, v),
        None => out[at..at + 5].copy_from_slice(b"     "),
    }
}

/// A line of three columns, of which those without a number are unused. It is laid out in line, where callers say which columns
/// have a number: no column is then asked for it.
// stays: bytes and a place in them are two arguments. A struct of the lent bytes and a place, as `Reader` is for reading, would owe at
// each call that it lends the same bytes on, since these are lent by `&mut`; and of the chunks of a mutable slice (`as_chunks_mut`)
// the library doesn't say what the slice ends as, so no single line of it can be lent in their place
#[inline(always)]
pub fn put_line(out: &mut [u8], at: usize, letter: u8, columns: [Option<u32>; 3])
    ensures { out.new ≡ laid_columns out.old at letter columns }
{
    if out.len() < 17 || at > out.len() - 17 {
        return;
    }
    let [first, second, third] = columns;
    out[at] = letter;
    put_column(out, at + 1, first);
    put_column(out, at + 6, second);
    put_column(out, at + 11, third);
    out[at + 16] = b'\n';
}
