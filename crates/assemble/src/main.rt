//! `assemble`: reads a query from standard input, and prints the build list of its join graph as H, T, N and E lines, or one
//! X line. All that matters is in the library; here is only reading and writing.
#![tactic(auto)]

use assembler::assemble::{assemble_page, assemble_text};
use programs::workspace::PAGE;
use std::io;
use streams::query::{QueryProgram, answer_query};
use theory::mark::Mark;
use theory::step::Step;

/// The program, as it is called where its input was read.
#[derive(Clone, Copy)]
struct Assemble;

impl QueryProgram for Assemble {
    fn answer(
        &self,
        text: &mut [u8],
        len: usize,
        steps: &mut [Step; 2013],
        marks: &mut [Mark; 63],
    ) -> usize {
        assemble_text(text, len, steps, marks)
    }

    fn answer_page(
        &self,
        page: &mut [u8; PAGE],
        len: usize,
        steps: &mut [Step; 2013],
        marks: &mut [Mark; 63],
    ) -> Option<usize> {
        assemble_page(page, len, steps, marks)
    }
}

fn main(rt: HostRuntime) -> io::Result<()> {
    answer_query(Assemble, &mut rt.stdin(), &mut rt.stdout())
}
