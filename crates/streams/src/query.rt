//! A program that answers a query: its text is read from a stream, and the answer's text is laid over it and printed. All that matters
//! is in the program's library; here is only reading and writing, and the memory that is lent.
ghost use Rattle.std.specs.Prelude.{◌+◌, ◌≤◌, length, IfOk, IfSome};

use super::input::{read_rest, read_whole, take_over};
use super::records::ROW;
use programs::workspace::{PAGE, TEXT};
use std::io;
use std::io::{Read, Write};
use theory::mark::Mark;
use theory::step::Step;

/// Memory for a text of middling length: clearing all of it for a query of some 200 joins would cost more than reading it.
const MIDDLE: usize = 8192;

/// A program that answers a query.
pub trait QueryProgram {
    /// Answers the query in the first `len` bytes of the text, over the text's first bytes; how many these are.
    // stays: what is printed lies over the same memory, also past what was read, so text and length are two; each program is lent the same
    fn answer(
        &self,
        text: &mut [u8],
        len: usize,
        steps: &mut [Step; 2013],
        marks: &mut [Mark; 63],
    ) -> usize
        ensures { result ≤ length text.new };

    /// The same in a page; none where more may follow.
    fn answer_page(
        &self,
        page: &mut [u8; PAGE],
        len: usize,
        steps: &mut [Step; 2013],
        marks: &mut [Mark; 63],
    ) -> Option<usize>
        ensures { IfSome result (λ n. n ≤ length page.new) };
}

/// Reads on behind a page: how many bytes more.
fn read_on<R: Read>(input: &mut R, text: &mut [u8]) -> io::Result<usize>
    requires { 4096 ≤ length text.old }
    ensures { IfOk result (λ n. n + 4096 ≤ length text.new) }
{
    read_whole(input, &mut text[PAGE..])
}

/// The program, what it reads from and writes to, and the memory that it is lent.
#[derive(Drop)]
struct Run<'a, P, R, W> {
    program: P,
    input: &'a mut R,
    output: &'a mut W,
    steps: &'a mut [Step; 2013],
    marks: &'a mut [Mark; 63],
}

impl<P: QueryProgram, R: Read, W: Write> Run<'_, P, R, W> {
    /// Prints the answer to the query in the first `len` bytes of the text.
    // stays: the text is fixed memory, and the answer is laid over it
    fn print(&mut self, text: &mut [u8], len: usize) -> io::Result<()> {
        let n = self.program.answer(text, len, self.steps, self.marks);
        self.output.write_all(&text[..n])
    }

    /// Reads on into memory for the longest text, and prints.
    fn long(&mut self, read: &[u8; MIDDLE]) -> io::Result<()> {
        let mut text = [0u8; TEXT];
        take_over(&mut text, read);
        let len = read_rest(self.input, &mut text, MIDDLE)?;
        self.print(&mut text, len)
    }

    /// Reads on where a page was not enough, and prints.
    // stays: not `long` of another size: a full middling text goes on in the longest, and a full longest one drops the rest
    fn middle(&mut self, page: &[u8; PAGE]) -> io::Result<()> {
        let mut text = [0u8; MIDDLE];
        take_over(&mut text, page);
        let len = PAGE + read_on(self.input, &mut text)?;
        if len >= MIDDLE {
            return self.long(&text);
        }
        self.print(&mut text, len)
    }

    /// Reads a page, and prints where that was enough.
    fn first(&mut self) -> io::Result<()> {
        let mut page = [0u8; PAGE];
        let len = read_whole(self.input, &mut page)?;
        match self
            .program
            .answer_page(&mut page, len, self.steps, self.marks)
        {
            Some(n) => self.output.write_all(&page[..n]),
            None => self.middle(&page),
        }
    }
}

/// Reads a query, and prints the program's answer.
pub fn answer_query<P: QueryProgram + Drop, R: Read, W: Write>(
    program: P,
    input: &mut R,
    output: &mut W,
) -> io::Result<()> {
    let mut rows = [ROW; 33];
    let steps = rows.as_flattened_mut().as_mut_array().unwrap();
    let mut marks = [Mark { v: 0, w: 0 }; 63];
    let mut run = Run {
        program,
        input,
        output,
        steps,
        marks: &mut marks,
    };
    run.first()
}
