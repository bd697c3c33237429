//! `drive`: reads a query from standard input, and prints a D line for each table and the P line of the table picked, or one X line.
//! All that matters is in the library; here is only reading and writing.
#![tactic(auto)]

use driver::drive::{drive_page, drive_text};
use programs::workspace::PAGE;
use std::io;
use streams::query::{QueryProgram, answer_query};
use theory::mark::Mark;
use theory::step::Step;

/// The program, as it is called where its input was read.
#[derive(Clone, Copy)]
struct Drive;

impl QueryProgram for Drive {
    fn answer(
        &self,
        text: &mut [u8],
        len: usize,
        steps: &mut [Step; 2013],
        marks: &mut [Mark; 63],
    ) -> usize {
        drive_text(text, len, steps, marks)
    }

    fn answer_page(
        &self,
        page: &mut [u8; PAGE],
        len: usize,
        steps: &mut [Step; 2013],
        marks: &mut [Mark; 63],
    ) -> Option<usize> {
        drive_page(page, len, steps, marks)
    }
}

fn main(rt: HostRuntime) -> io::Result<()> {
    answer_query(Drive, &mut rt.stdin(), &mut rt.stdout())
}
