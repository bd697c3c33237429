//! `replay`: reads a build list from standard input, plays it back, and prints the join graph as G and J lines, or one X
//! line. All that matters is in the library; here is only reading and writing.
#![tactic(auto)]

use programs::replay::{replay_page, replay_text};
use programs::workspace::{Mark, PAGE, TEXT};
use std::io;
use std::io::{Read, Write};
use streams::input::{read_rest, read_whole, take_over};
use streams::records::ROW;
use theory::step::Step;

/// Reads on into memory for the longest text, where a page was not enough, and prints.
// stays: apart from `assemble`, which reads on in two turns and lends more: a function over both would take the size and place of
// what was read, whether the input has ended, and the program as a closure over the records
fn replay_long<R: Read, W: Write>(
    input: &mut R,
    output: &mut W,
    read: &[u8],
    steps: &mut [Step; 2013],
) -> io::Result<()> {
    let mut text = [0u8; TEXT];
    take_over(&mut text, read);
    let len = if read.len() == PAGE {
        read_rest(input, &mut text, PAGE)?
    } else {
        read.len()
    };
    let n = replay_text(&mut text, len, steps);
    output.write_all(&text[..n])
}

fn main(rt: HostRuntime) -> io::Result<()> {
    let mut page = [0u8; PAGE];
    let mut rows = [ROW; 33];
    let steps = rows.as_flattened_mut().as_mut_array().unwrap();
    // the programs hold the same memory; this one reads no marks
    let _marks = [Mark { v: 0, w: 0 }; 63];
    let mut input = rt.stdin();
    let mut output = rt.stdout();
    let len = read_whole(&mut input, &mut page)?;
    match replay_page(&mut page, len, steps) {
        Some(n) => output.write_all(&page[..n]),
        None => replay_long(&mut input, &mut output, &page[..len], steps),
    }
}
