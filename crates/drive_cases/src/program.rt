//! The program `drive`, from bytes to bytes. Where many queries are compared, it is by a digest of the bytes printed: FNV-1a of 32 bits.
//! stays: a length or a place in a text is what is tested.
use super::graphs::{DENSE, DENSE_MARKS, SPARSE, SPARSE_MARKS};
use driver::drive::drive_text;
use std::alloc::{AllocError, Global};
use std::process::Abort;
use std::test::Fail;
use theory::mark::Mark;
use theory::step::Step;

const SEED: u32 = 2166136261;

/// A digest carried on over some bytes.
// stays: also in `assemble_cases`: a crate between the two would have to promise in public what only tests need
fn digest(seed: u32, bytes: &[u8]) -> u32 {
    bytes.iter().fold(
        seed,
        |h, byte| (h ^ u32::from(*byte)).wrapping_mul(16777619),
    )
}

/// What the program prints for a query, in lent memory.
fn driven<'a>(rt: &impl Abort, query: &[u8], text: &'a mut [u8; 36465]) -> &'a [u8] {
    let mut steps = [Step::Edge { v: 0, w: 0 }; 2013];
    let mut marks = [Mark { v: 0, w: 0 }; 63];
    let len = query.len();
    assert!(rt; len <= 36465);
    text[..len].copy_from_slice(query);
    let n = drive_text(text, len, &mut steps, &mut marks);
    &text[..n]
}

/// Whether the program prints `expected` for a query.
// stays: also in `assemble_cases`: a crate between the two would have to promise in public what only tests need
fn drives(rt: &impl Abort, query: &[u8], expected: &[u8]) {
    let mut text = [0u8; 36465];
    assert_eq!(rt; driven(rt, query, &mut text), expected);
}

/// The digest of what the program prints for a query, carried on over `seed`.
fn printed(rt: &impl Abort, query: &[u8], seed: u32) -> u32 {
    let mut text = [0u8; 36465];
    digest(seed, driven(rt, query, &mut text))
}

/// The ring of four tables, with three of its joins marked: each table's cross count is that of the one across.
const RING: &[u8] = b"\
    G    4    4     \n\
    J         0    1\n\
    J         1    2\n\
    J         2    3\n\
    J         0    3\n\
    M         0    1\n\
    M         1    2\n\
    M         2    3\n\
";

/// The ring with its marks, a star with a further join, and small trees.
#[test]
fn trees(rt: HostRuntime) {
    drives(
        &rt,
        RING,
        b"D    0    0    1\nD    1    1    0\nD    2    1    0\nD    3    0    1\nP    0          \n",
    );
    drives(
        &rt,
        b"G    4    4     \nJ         0    1\nJ         0    2\nJ         0    3\nJ         1    2\nM         0    1\nM         0    2\nM         0    3\n",
        b"D    0    1    0\nD    1    0    1\nD    2    0    1\nD    3    1    0\nP    1          \n",
    );
    drives(
        &rt,
        b"G    1    0     \n",
        b"D    0    0    1\nP    0          \n",
    );
    drives(
        &rt,
        b"G    2    1     \nJ         1    0\nM         0    1\n",
        b"D    0    0    1\nD    1    0    1\nP    0          \n",
    );
    // a triangle, by its marks 0-1 and 1-2, the ends of each given the other way round
    drives(
        &rt,
        b"G    3    3     \nJ         0    1\nJ         0    2\nJ         1    2\nM         1    0\nM         2    1\n",
        b"D    0    0    1\nD    1    1    0\nD    2    0    1\nP    0          \n",
    );
    // the joins are a tree: each table drives
    drives(
        &rt,
        b"G    3    2     \nJ         2    1\nJ         1    0\nM         0    1\nM         2    1\n",
        b"D    0    0    1\nD    1    0    1\nD    2    0    1\nP    0          \n",
    );
    // all joins of four tables, with a star of marks: no table drives, and none is picked
    drives(
        &rt,
        b"G    4    6     \nJ         0    1\nJ         0    2\nJ         0    3\nJ         1    2\nJ         1    3\nJ         2    3\nM         0    1\nM         0    2\nM         0    3\n",
        b"D    0    3    0\nD    1    1    0\nD    2    1    0\nD    3    1    0\nP               \n",
    );
}

/// R lines, each group with the P line that it gives for the ring, where 0 and 3 drive.
const COUNTS: &[u8] = b"\
    P    0          \n\
    R    3       900\n\
    P    3          \n\
    R    0        -1\n\
    R    3       900\n\
    P    3          \n\
    R    0         0\n\
    P    0          \n\
    R    3         0\n\
    P    3          \n\
    R    3        -1\n\
    P    0          \n\
    R    1         5\n\
    R    2         5\n\
    P    0          \n\
    R    0       900\n\
    R    3       900\n\
    P    0          \n\
    R    3       899\n\
    R    0       900\n\
    P    3          \n\
    R    02147483647\n\
    R    32147483646\n\
    P    3          \n\
    R    32147483647\n\
    P    3          \n\
    R    02147483647\n\
    R    32147483647\n\
    P    0          \n\
    R    0       100\n\
    R    3       200\n\
    R    0       300\n\
    P    3          \n\
    R    3         1\n\
    R    0         2\n\
    R    3        -1\n\
    P    0          \n\
    R    3         0\n\
    R    0         0\n\
    R    0         1\n\
    P    3          \n\
    R    0         0\n\
    R    0        -1\n\
    R    3        -1\n\
    R    1         0\n\
    P    0          \n\
";

/// The lowest known count among the driving tables is picked, and the last R line of a table holds.
#[test]
fn picks(rt: HostRuntime) -> Result<(), Fail> {
    let (lines, rest) = COUNTS.as_chunks::<17>();
    assert!(rt; rest.is_empty());
    for lines in lines.split_inclusive(|line| line[0] == b'P') {
        if let Some((pick, rows)) = lines.split_last() {
            let query = [RING, rows.as_flattened()].concat(rt.alloc())?;
            let report =
                b"D    0    0    1\nD    1    1    0\nD    2    1    0\nD    3    0    1\n";
            let expected = [report.as_slice(), pick.as_slice()].concat(rt.alloc())?;
            drives(&rt, &query, &expected);
        }
    }
    Ok(())
}

/// Texts, each with the X line that it gives behind it: every refusal that the program can print, and the order of
/// checking.
const REFUSALS: &[u8] = b"\
    X   15    1    0\n\
    G    3    1     \n\
    X   15    1   17\n\
    G    3    2     \n\
    J         0    1\n\
    J         1    2\n\
    M         0    1\n\
    X   15    1   68\n\
    M    0    0    1\n\
    X   15    1    5\n\
    G    3    0     \n\
    R    0        -0\n\
    X   15    1   32\n\
    G    3    0     \n\
    m         0    1\n\
    X   15    1   17\n\
    H    3    3    0\n\
    X   16    1    0\n\
    G    3    1     \n\
    M         0    1\n\
    X   16    1   17\n\
    G    3    1     \n\
    J         0    1\n\
    J         0    1\n\
    X   16    1   34\n\
    G    1    0     \n\
    M         0    0\n\
    X   16    1   17\n\
    G    2    1     \n\
    J         0    1\n\
    M         0    1\n\
    M         0    1\n\
    X   16    1   51\n\
    G    3    0     \n\
    M         0    1\n\
    R    0         1\n\
    X   16    1   34\n\
    G    2    1     \n\
    J         0    1\n\
    R    0         1\n\
    M         0    1\n\
    X   16    1   51\n\
    G    2    1     \n\
    J         0    1\n\
    M         0    1\n\
    D    0    0    1\n\
    X   16    1   51\n\
    G   65    0     \n\
    X   17    1    0\n\
    G    0    0     \n\
    X   17    1    0\n\
    G   64 2017     \n\
    X   17    1    0\n\
    G    3    1     \n\
    J         3    0\n\
    X    1    2   17\n\
    G    3    1     \n\
    J         0 9999\n\
    X    1    2   17\n\
    G    3    1     \n\
    J         3    3\n\
    X    1    2   17\n\
    G    3    1     \n\
    J         2    2\n\
    X    2    2   17\n\
    G    3    2     \n\
    J         0    1\n\
    J         1    0\n\
    X    3    2   34\n\
    G    3    0     \n\
    R    3         5\n\
    X    1    4   17\n\
    G    3    0     \n\
    R    3        -2\n\
    X    1    4   17\n\
    G    3    0     \n\
    R    0        -2\n\
    X   21    4   17\n\
    G    3    0     \n\
    R    02147483648\n\
    X   21    4   17\n\
    G    3    0     \n\
    R    09999999999\n\
    X   21    4   17\n\
    G    2    0     \n\
    X   18    4    0\n\
    G   64    0     \n\
    X   18    4    0\n\
    G    3    2     \n\
    J         0    1\n\
    J         1    2\n\
    R    0         1\n\
    X   18    4    0\n\
    G    2    1     \n\
    J         0    1\n\
    M         2    2\n\
    X    1    4    0\n\
    G    2    1     \n\
    J         0    1\n\
    M         0    2\n\
    X    1    4    0\n\
    G    3    2     \n\
    J         0    1\n\
    J         1    2\n\
    M         1    0\n\
    M     99999    0\n\
    X    1    4    1\n\
    G    3    2     \n\
    J         0    1\n\
    J         1    2\n\
    M         2    2\n\
    M         9    9\n\
    X    2    4    0\n\
    G    3    2     \n\
    J         0    1\n\
    J         1    2\n\
    M         0    1\n\
    M         0    0\n\
    X    2    4    1\n\
    G    3    2     \n\
    J         0    1\n\
    J         1    2\n\
    M         2    0\n\
    M         1    2\n\
    X    4    4    0\n\
    G    3    2     \n\
    J         0    1\n\
    J         1    2\n\
    M         0    1\n\
    M         0    2\n\
    X    4    4    1\n\
    G    4    4     \n\
    J         0    1\n\
    J         1    2\n\
    J         2    3\n\
    J         0    3\n\
    M         0    1\n\
    M         2    1\n\
    M         2    0\n\
    X    4    4    2\n\
    G    3    2     \n\
    J         0    1\n\
    J         1    2\n\
    M         0    1\n\
    M         0    1\n\
    X   19    4    1\n\
    G    3    2     \n\
    J         0    1\n\
    J         1    2\n\
    M         1    2\n\
    M         2    1\n\
    X   19    4    1\n\
    G    4    4     \n\
    J         0    1\n\
    J         0    2\n\
    J         1    2\n\
    J         2    3\n\
    M         0    1\n\
    M         1    2\n\
    M         0    2\n\
    X   19    4    2\n\
    G    5    5     \n\
    J         0    1\n\
    J         1    2\n\
    J         2    3\n\
    J         0    3\n\
    J         3    4\n\
    M         2    3\n\
    M         0    1\n\
    M         1    2\n\
    M         3    0\n\
    X   19    4    3\n\
    G    3    2     \n\
    J         0    1\n\
    J         1    2\n\
    M         0    0\n\
    M         0    2\n\
    R    0        -2\n\
    X   21    4   85\n\
    G    2    0     \n\
    M         0    1\n\
    E         0    1\n\
    X   16    1   34\n\
    G    2    0     \n\
    R    1         1\n\
    R    2         1\n\
    X    1    4   34\n\
";

#[test]
fn refusals(rt: HostRuntime) {
    let (lines, rest) = REFUSALS.as_chunks::<17>();
    assert!(rt; rest.is_empty());
    for lines in lines.split_inclusive(|line| line[0] == b'X') {
        if let Some((refusal, text)) = lines.split_last() {
            drives(&rt, text.as_flattened(), refusal);
        }
    }
}

/// The ring with R lines, cut off at every length: within a line, or with marks or joins missing, it is refused.
#[test]
fn cut_off(rt: HostRuntime) -> Result<(), Fail> {
    let rows = b"R    0        -1\nR    3       900\n";
    let query = [RING, rows.as_slice()].concat(rt.alloc())?;
    let mut seed = SEED;
    for len in 0..query.len() {
        seed = printed(&rt, &query[..len], seed);
    }
    assert_eq!(rt; seed, 43897510);
    Ok(())
}

/// The ring with one byte changed, at every place.
#[test]
fn damaged(rt: HostRuntime) {
    let bytes = [
        0u8, 9, 10, 13, 32, 43, 45, 48, 49, 50, 51, 52, 57, 58, 68, 71, 72, 74, 77, 82, 88, 127,
        255,
    ];
    let mut seed = SEED;
    for byte in bytes {
        for at in 0..RING.len() {
            let mut query = [0u8; 136];
            query.copy_from_slice(RING);
            query[at] = byte;
            seed = printed(&rt, &query, seed);
        }
    }
    assert_eq!(rt; seed, 3013660164);
}

/// A text of one table, read into so many bytes: the report needs two lines, a refusal one, and where no line fits nothing is printed.
#[test]
fn small_memory(rt: HostRuntime) {
    let cases: [(usize, &[u8]); 4] = [
        (34, b"D    0    0    1\nP    0          \n"),
        (33, b"X    9    1   34\n"),
        (17, b"X    9    1   34\n"),
        (16, b""),
    ];
    let mut steps = [Step::Edge { v: 0, w: 0 }; 2013];
    let mut marks = [Mark { v: 0, w: 0 }; 63];
    for (bytes, expected) in cases {
        let mut text = [0u8; 34];
        text[..17].copy_from_slice(b"G    1    0     \n");
        let n = drive_text(&mut text[..bytes], 17, &mut steps, &mut marks);
        assert!(rt; n <= 34);
        assert_eq!(rt; &text[..n], expected);
    }
}

/// The pairs of five tables, by the higher table and then by the lower: so those of fewer tables stand first.
const PAIRS: [(u32, u32); 10] = [
    (0, 1),
    (0, 2),
    (1, 2),
    (0, 3),
    (1, 3),
    (2, 3),
    (0, 4),
    (1, 4),
    (2, 4),
    (3, 4),
];

/// A J or M line.
// stays: also in `cases`: a crate between the two would have to promise in public what only tests need
fn pair(alloc: Global, letter: char, (v, w): (u32, u32)) -> Result<String, AllocError> {
    format!(in alloc; "{letter}{v:>10}{w:>5}\n")
}

/// The lines of the pairs whose bits are set in `mask`.
// stays: a mask has a bit for each of `PAIRS`; it is no set of tables
fn masked(alloc: Global, letter: char, mask: u32) -> Result<String, AllocError> {
    let mut lines = String::new(alloc);
    for (i, &at) in PAIRS.iter().enumerate() {
        if (mask >> i) & 1 == 1 {
            lines.push_str(&pair(alloc, letter, at)?)?;
        }
    }
    Ok(lines)
}

/// The query of the graph that joins just the pairs of `joins` and marks those of `marks`, with a row count from -1 to 2 for each table.
fn chosen(alloc: Global, tables: u32, joins: u32, marks: u32) -> Result<String, AllocError> {
    let mut query = format!(in alloc; "G{tables:>5}{:>5}     \n", joins.count_ones())?;
    query.push_str(&masked(alloc, 'J', joins)?)?;
    query.push_str(&masked(alloc, 'M', marks)?)?;
    for table in 0..tables {
        let count = i64::from((joins.wrapping_mul(table) ^ marks) / 2 % 4) - 1;
        query.push_str(&format!(in alloc; "R{table:>5}{count:>10}\n")?)?;
    }
    Ok(query)
}

/// All graphs of up to five tables, each with every choice of as many of its joins as a spanning tree has: all its spanning trees, and
/// what closes a ring.
#[test]
fn all_small_trees(rt: HostRuntime) -> Result<(), Fail> {
    let cases = [
        (1u32, 1u32, 3416256354u32),
        (2, 2, 2156618684),
        (3, 8, 2859167566),
        (4, 64, 846967352),
        (5, 1024, 1206915265),
    ];
    for (tables, graphs, expected) in cases {
        let mut seed = SEED;
        for joins in 0..graphs {
            for marks in 0..=joins {
                if marks & !joins == 0 && marks.count_ones() + 1 == tables {
                    let query = chosen(rt.alloc(), tables, joins, marks)?;
                    seed = printed(&rt, query.as_bytes(), seed);
                }
            }
        }
        assert_eq!(rt; seed, expected);
    }
    Ok(())
}

/// The query of a graph of 64 tables, given by its rows, with these marks, and a row count of 1,000 and more for each table.
fn listed(alloc: Global, rows: &[u64; 64], marks: &[(u32, u32)]) -> Result<String, AllocError> {
    let mut joins = String::new(alloc);
    for (v, row) in (0u32..64).zip(rows) {
        for w in 0..64u32 {
            if (row >> w) & 1 == 1 {
                joins.push_str(&pair(alloc, 'J', (v, w))?)?;
            }
        }
    }
    let mut query = format!(in alloc; "G   64{:>5}     \n", joins.len() / 17)?;
    query.push_str(&joins)?;
    for &mark in marks {
        query.push_str(&pair(alloc, 'M', mark)?)?;
    }
    for table in 0..64u32 {
        query.push_str(&format!(in alloc; "R{table:>5}{:>10}\n", 1000 + table)?)?;
    }
    Ok(query)
}

/// The rows of the complete graph of 64 tables.
fn complete() -> [u64; 64] {
    let mut rows = [0u64; 64];
    for v in 0..63u32 {
        rows[v as usize] = u64::MAX << (v + 1);
    }
    rows
}

/// The marks 0-1, 1-2 and so on.
fn path() -> [(u32, u32); 63] {
    let mut marks = [(0u32, 0u32); 63];
    for v in 0..63u32 {
        marks[v as usize] = (v, v + 1);
    }
    marks
}

/// The complete graph of 64 tables, and the ring, each with the marks 0-1, 1-2 and so on, and the complete graph with a star of marks.
#[test]
fn complete_graph_and_ring(rt: HostRuntime) -> Result<(), Fail> {
    let mut ring = [0u64; 64];
    let mut star = [(0u32, 0u32); 63];
    for v in 0..63u32 {
        ring[v as usize] = 1 << (v + 1);
        star[v as usize] = (63, v);
    }
    ring[0] |= 1 << 63;
    for (rows, marks, expected) in [
        (&complete(), &path(), 3222133785u32),
        (&ring, &path(), 3818017447),
        (&complete(), &star, 2915978112),
    ] {
        let query = listed(rt.alloc(), rows, marks)?;
        assert_eq!(rt; printed(&rt, query.as_bytes(), SEED), expected);
    }
    Ok(())
}

/// Two random graphs, each with a tree of its own.
#[test]
fn random_graphs(rt: HostRuntime) -> Result<(), Fail> {
    for (rows, marks, expected) in [
        (&SPARSE, &SPARSE_MARKS, 2161431542u32),
        (&DENSE, &DENSE_MARKS, 1247066533),
    ] {
        let query = listed(rt.alloc(), rows, marks)?;
        assert_eq!(rt; printed(&rt, query.as_bytes(), SEED), expected);
    }
    Ok(())
}

/// The largest query is read whole, and one line more is refused, whatever its bytes past the first 17 are.
#[test]
fn largest(rt: HostRuntime) -> Result<(), Fail> {
    let mut query = listed(rt.alloc(), &complete(), &path())?;
    assert_eq!(rt; query.len(), 36448);
    query.push_str("R    0         1\n")?;
    drives(&rt, query.as_bytes(), b"X   16    136448\n");
    Ok(())
}
