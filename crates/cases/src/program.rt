//! The program `replay`, from bytes to bytes.
//! stays: a length or a place in a text is what is tested.
use programs::replay::replay_text;
use std::alloc::{AllocError, Global};
use std::process::Abort;
use std::test::Fail;
use theory::step::Step;

// stays: also in `calls`: a crate between the two would have to promise in public what only tests need
const FIVE: &[u8] =
    b"H    5    6    3\nT    0    1    2\nN    3    0    2\nE         1    3\nN    4    0    3\n";

/// Whether the program prints `expected` for a list.
// stays: also in `assemble_cases`: a crate between the two would have to promise in public what only tests need
fn replays(rt: &impl Abort, list: &[u8], expected: &[u8]) {
    let mut text = [0u8; 36465];
    let mut steps = [Step::Edge { v: 0, w: 0 }; 2013];
    let len = list.len();
    assert!(rt; len <= 36465);
    text[..len].copy_from_slice(list);
    let n = replay_text(&mut text, len, &mut steps);
    assert!(rt; n <= 36465);
    assert_eq!(rt; &text[..n], expected);
}

/// A list of five tables, the complete graph of four, and a triangle alone.
#[test]
fn graphs(rt: HostRuntime) {
    replays(
        &rt,
        FIVE,
        b"G    5    6     \nJ         0    1\nJ         0    4\nJ         1    2\nJ         1    3\nJ         2    3\nJ         3    4\n",
    );
    replays(
        &rt,
        b"H    4    6    3\nT    0    1    2\nN    3    0    2\nE         0    2\nE         1    3\n",
        b"G    4    6     \nJ         0    1\nJ         0    2\nJ         0    3\nJ         1    2\nJ         1    3\nJ         2    3\n",
    );
    replays(
        &rt,
        b"H    3    3    0\nT    0    1    2\n",
        b"G    3    3     \nJ         0    1\nJ         0    2\nJ         1    2\n",
    );
}

/// Texts, each with the X line that it gives behind it: every refusal that the program can print, and the order of
/// checking.
const REFUSALS: &[u8] = b"\
    H    4    4    1\n\
    T    0    1    2\n\
    E     99999    3\n\
    X    1    2    1\n\
    H    4    4    1\n\
    T    0    1    2\n\
    N    3    4    4\n\
    X    1    2    1\n\
    H    4    4    1\n\
    T    0    1    2\n\
    E         3    3\n\
    X    2    2    1\n\
    H    4    4    1\n\
    T    0    1    2\n\
    N    0    3    0\n\
    X    2    2    1\n\
    H    3    4    1\n\
    T    0    1    2\n\
    E         2    0\n\
    X    3    2    1\n\
    H    5    5    2\n\
    T    0    1    2\n\
    N    3    0    1\n\
    N    4    1    0\n\
    X    4    2    2\n\
    H    3    3    0\n\
    T    0    2    1\n\
    X   11    3    0\n\
    H    3    3    0\n\
    T    0    1    1\n\
    X   11    3    0\n\
    H    3    3    0\n\
    T    0    1    3\n\
    X   11    3    0\n\
    H    5    4    1\n\
    T    0    1    2\n\
    N    2    0    3\n\
    X   12    3    1\n\
    H    4    4    1\n\
    T    0    1    2\n\
    E         0    3\n\
    X   13    3    1\n\
    H    5    4    1\n\
    T    0    1    2\n\
    N    4    3    0\n\
    X   13    3    1\n\
    H    5    4    1\n\
    T    0    1    2\n\
    N    4    0    1\n\
    X   14    3    3\n\
    X   15    1    0\n\
    T    0    1    2\n\
    X   16    1    0\n\
    H    5    6    3\n\
    E         1    3\n\
    X   16    1   17\n\
    H    5    6    3\n\
    T    0    1    2\n\
    T    0    1    2\n\
    X   16    1   34\n\
    H    2    3    0\n\
    X   17    1    0\n\
    H   65    3    0\n\
    X   17    1    0\n\
    H   64 2017 2014\n\
    X   17    1    0\n\
    H    5    6    2\n\
    X   17    1    0\n\
    H    5    2    0\n\
    X   17    1    0\n\
";

#[test]
fn refusals(rt: HostRuntime) {
    let (lines, rest) = REFUSALS.as_chunks::<17>();
    assert!(rt; rest.is_empty());
    for lines in lines.split_inclusive(|line| line[0] == b'X') {
        if let Some((refusal, text)) = lines.split_last() {
            replays(&rt, text.as_flattened(), refusal);
        }
    }
}

/// Lines, each with the X line that it gives where it stands after the list of five tables: a line in form is refused by
/// 16, any other by 15 at the first byte that no line begun so can have.
const FORMS: &[u8] = b"\
    H    5    6    3\n\
    X   16    1   85\n\
    T    0    1    2\n\
    X   16    1   85\n\
    N    3    0    2\n\
    X   16    1   85\n\
    E         1    3\n\
    X   16    1   85\n\
    G    5    6     \n\
    X   16    1   85\n\
    J     9999999999\n\
    X   16    1   85\n\
    M         0    1\n\
    X   16    1   85\n\
    R    1      -123\n\
    X   16    1   85\n\
    R999999999999999\n\
    X   16    1   85\n\
    R    1         0\n\
    X   16    1   85\n\
    D    0    1    2\n\
    X   16    1   85\n\
    P               \n\
    X   16    1   85\n\
    P   64          \n\
    X   16    1   85\n\
    X   16    136448\n\
    X   16    1   85\n\
    A    5    6    3\n\
    X   15    1   85\n\
    n    3    0    2\n\
    X   15    1   85\n\
    N00000    0    2\n\
    X   15    1   86\n\
    N   03    0    2\n\
    X   15    1   89\n\
    N         0    2\n\
    X   15    1   90\n\
    N3        0    2\n\
    X   15    1   87\n\
    N    3   -1    2\n\
    X   15    1   94\n\
    N    3   +1    2\n\
    X   15    1   94\n\
    N    3    0   2 \n\
    X   15    1  100\n\
    N    3    0     \n\
    X   15    1  100\n\
    E    0    1    3\n\
    X   15    1   90\n\
    E        1 0   3\n\
    X   15    1   95\n\
    G    5    6    0\n\
    X   15    1  100\n\
    R    1          \n\
    X   15    1  100\n\
    R    1         -\n\
    X   15    1  100\n\
    R    1        -0\n\
    X   15    1  100\n\
    R    1       -01\n\
    X   15    1   99\n\
    R    1       - 1\n\
    X   15    1   99\n\
    R    1       --1\n\
    X   15    1   99\n\
    R    1       1-2\n\
    X   15    1   99\n\
    R   -1         1\n\
    X   15    1   89\n\
    P   -1          \n\
    X   15    1   89\n\
    P    1    0     \n\
    X   15    1   95\n\
    P 1             \n\
    X   15    1   88\n\
    D    0    1     \n\
    X   15    1  100\n\
    X   16    1-    \n\
    X   15    1   96\n\
    N    3    0    2 \
    X   15    1  101\n\
    N    3    0   2\n\n\
    X   15    1  100\n\
    N    3    0    2\r\
    X   15    1  101\n\
    E\t        1    3\n\
    X   15    1   86\n\
    N    3    0    \xb2\n\
    X   15    1  100\n\
";

#[test]
fn forms(rt: HostRuntime) -> Result<(), Fail> {
    assert_eq!(rt; FORMS.len(), 34 * 45);
    for [line, refusal] in FORMS.as_chunks::<17>().0.as_chunks::<2>().0 {
        let list = [FIVE, line.as_slice()].concat(rt.alloc())?;
        replays(&rt, &list, refusal);
    }
    Ok(())
}

/// The line of refusal 15 at a place.
fn bad_form(alloc: Global, place: usize) -> Result<String, AllocError> {
    format!(in alloc; "X   15    1{place:>5}\n")
}

/// Every text that is cut off is refused at its end.
#[test]
fn cut_off(rt: HostRuntime) -> Result<(), Fail> {
    for len in 0..FIVE.len() {
        replays(&rt, &FIVE[0..len], bad_form(rt.alloc(), len)?.as_bytes());
    }
    Ok(())
}

/// A byte that no line has is refused where it stands.
#[test]
fn damaged(rt: HostRuntime) -> Result<(), Fail> {
    let bytes = [
        0u8, 9, 11, 13, 33, 43, 45, 46, 47, 58, 64, 91, 104, 127, 128, 160, 178, 255,
    ];
    for byte in bytes {
        for at in 0..FIVE.len() {
            let mut input = [0u8; 85];
            input.copy_from_slice(FIVE);
            input[at] = byte;
            replays(&rt, &input, bad_form(rt.alloc(), at)?.as_bytes());
        }
    }
    Ok(())
}

/// A line of two tables.
// stays: also in `assemble_cases`: a crate between the two would have to promise in public what only tests need
fn pair(alloc: Global, letter: char, (v, w): (u32, u32)) -> Result<String, AllocError> {
    format!(in alloc; "{letter}{v:>10}{w:>5}\n")
}

/// The largest list: each table from 3 on is put into the join of 0 and 1, which is then joined again, and is joined with
/// the tables from 2 on that are below it.
fn largest(alloc: Global) -> Result<String, AllocError> {
    let mut list = String::from_str(alloc, "H   64 2016 2013\nT    0    1    2\n")?;
    for u in 3..64u32 {
        list.push_str(&format!(in alloc; "N{u:>5}    0    1\n")?)?;
        list.push_str(&pair(alloc, 'E', (0, 1))?)?;
        for w in 2..u {
            list.push_str(&pair(alloc, 'E', (u, w))?)?;
        }
    }
    Ok(list)
}

/// It gives all 2,016 joins of 64 tables.
#[test]
fn largest_list(rt: HostRuntime) -> Result<(), Fail> {
    let list = largest(rt.alloc())?;
    let mut graph = String::from_str(rt.alloc(), "G   64 2016     \n")?;
    for v in 0..64u32 {
        for w in v + 1..64 {
            graph.push_str(&pair(rt.alloc(), 'J', (v, w))?)?;
        }
    }
    assert_eq!(rt; list.len(), 34255);
    assert_eq!(rt; graph.len(), 34289);
    replays(&rt, list.as_bytes(), graph.as_bytes());
    Ok(())
}

/// One line more is refused, whatever its bytes past the first 17 are.
#[test]
fn more_than_largest(rt: HostRuntime) -> Result<(), Fail> {
    let mut list = largest(rt.alloc())?;
    list.push_str(&pair(rt.alloc(), 'E', (0, 1))?)?;
    let mut text = [0u8; 36465];
    assert!(rt; list.len() <= 36465);
    text[..list.len()].copy_from_slice(list.as_bytes());
    replays(&rt, &text, b"X   16    134255\n");
    Ok(())
}
