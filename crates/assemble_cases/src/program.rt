//! The program `assemble`, from bytes to bytes. Where many graphs or long lists are compared, it is by a digest of the bytes
//! printed: FNV-1a of 32 bits.
use super::graphs::{DENSE, SPARSE};
use assembler::assemble::assemble_text;
use std::alloc::{AllocError, Global};
use std::process::Abort;
use std::test::Fail;
use theory::mark::Mark;
use theory::step::Step;

const SEED: u32 = 2166136261;

/// A digest carried on over some bytes.
fn digest(seed: u32, bytes: &[u8]) -> u32 {
    bytes.iter().fold(
        seed,
        |h, byte| (h ^ u32::from(*byte)).wrapping_mul(16777619),
    )
}

/// A G line.
fn head(alloc: Global, tables: u32, joins: usize) -> Result<String, AllocError> {
    format!(in alloc; "G{tables:>5}{joins:>5}     \n")
}

/// A J line.
// stays: also in `cases`: a crate between the two would have to promise in public what only tests need
fn join(alloc: Global, (v, w): (u32, u32)) -> Result<String, AllocError> {
    format!(in alloc; "J{v:>10}{w:>5}\n")
}

/// What the program prints for a query, in lent memory.
fn assembled<'a>(rt: &impl Abort, query: &[u8], text: &'a mut [u8; 36465]) -> &'a [u8] {
    let mut steps = [Step::Edge { v: 0, w: 0 }; 2013];
    let mut marks = [Mark { v: 0, w: 0 }; 63];
    let len = query.len();
    assert!(rt; len <= 36465);
    text[..len].copy_from_slice(query);
    let n = assemble_text(text, len, &mut steps, &mut marks);
    &text[..n]
}

/// Whether the program prints `expected` for a query.
// stays: also in `cases`: a crate between the two would have to promise in public what only tests need
fn assembles(rt: &impl Abort, query: &[u8], expected: &[u8]) {
    let mut text = [0u8; 36465];
    assert_eq!(rt; assembled(rt, query, &mut text), expected);
}

/// The digest of what the program prints for a query, carried on over `seed`.
fn printed(rt: &impl Abort, query: &[u8], seed: u32) -> u32 {
    let mut text = [0u8; 36465];
    digest(seed, assembled(rt, query, &mut text))
}

/// A query of five tables, the complete graph of four, and a triangle.
#[test]
fn lists(rt: HostRuntime) {
    assembles(
        &rt,
        b"G    5    6     \nJ         0    1\nJ         0    4\nJ         1    2\nJ         1    3\nJ         2    3\nJ         3    4\n",
        b"H    5    6    3\nT    0    1    2\nN    3    0    2\nE         1    3\nN    4    0    3\n",
    );
    assembles(
        &rt,
        b"G    4    6     \nJ         2    3\nJ         0    2\nJ         3    0\nJ         1    2\nJ         1    3\nJ         0    1\n",
        b"H    4    6    3\nT    0    1    2\nN    3    0    2\nE         0    2\nE         1    3\n",
    );
    assembles(
        &rt,
        b"G    3    3     \nJ         0    1\nJ         0    2\nJ         1    2\n",
        b"H    3    3    0\nT    0    1    2\n",
    );
}

/// Refusals of the request, of the store, of rows and of the text, and marks and rows that change nothing.
#[test]
fn refusals(rt: HostRuntime) {
    assembles(
        &rt,
        b"G    2    1     \nJ         0    1\n",
        b"X    6    3    0\n",
    );
    assembles(&rt, b"G    1    0     \n", b"X    6    3    0\n");
    assembles(
        &rt,
        b"G    4    2     \nJ         0    1\nJ         1    2\n",
        b"X    7    3    3\n",
    );
    assembles(
        &rt,
        b"G    3    2     \nJ         0    1\nJ         1    2\n",
        b"X    8    3    1\n",
    );
    assembles(
        &rt,
        b"G    3    2     \nJ         0    1\nJ         1    0\n",
        b"X    3    2   34\n",
    );
    assembles(
        &rt,
        b"G    3    1     \nJ         0    3\n",
        b"X    1    2   17\n",
    );
    assembles(
        &rt,
        b"G    3    1     \nJ         2    2\n",
        b"X    2    2   17\n",
    );
    assembles(
        &rt,
        b"G    3    0     \nR    3         5\n",
        b"X    1    4   17\n",
    );
    assembles(
        &rt,
        b"G    3    0     \nR    09999999999\n",
        b"X   21    4   17\n",
    );
    assembles(
        &rt,
        b"G    3    0     \nR    04294967295\n",
        b"X   21    4   17\n",
    );
    assembles(
        &rt,
        b"G    3    0     \nR    0        -2\n",
        b"X   21    4   17\n",
    );
    assembles(
        &rt,
        b"G    3    0     \nR    0        -0\n",
        b"X   15    1   32\n",
    );
    assembles(&rt, b"G   65    0     \n", b"X   17    1    0\n");
    assembles(&rt, b"G    0    0     \n", b"X   17    1    0\n");
    assembles(&rt, b"G    3 2017     \n", b"X   17    1    0\n");
    assembles(&rt, b"H    3    3    0\n", b"X   16    1    0\n");
    assembles(&rt, b"G    3    1     \n", b"X   15    1   17\n");
    assembles(&rt, b"", b"X   15    1    0\n");
    assembles(
        &rt,
        b"G    3    0     \nM         0    1\n",
        b"X   15    1   34\n",
    );
    assembles(
        &rt,
        b"G    3    0     \nM         0    1\nR    0         1\n",
        b"X   16    1   34\n",
    );
    assembles(
        &rt,
        b"G    1    0     \nM         0    0\n",
        b"X   16    1   17\n",
    );
    assembles(
        &rt,
        b"G    3    3     \nJ         0    1\nJ         0    2\nJ         1    2\nM         9    9\nM         0    0\nR    0        -1\nR    02147483647\n",
        b"H    3    3    0\nT    0    1    2\n",
    );
}

/// The pairs of five tables, by the higher table and then by the lower: so those of fewer tables stand first.
const PAIRS: [(u32, u32); 10] = [
    (0, 1),
    (0, 2),
    (1, 2),
    (0, 3),
    (1, 3),
    (2, 3),
    (0, 4),
    (1, 4),
    (2, 4),
    (3, 4),
];

/// The query of the graph that joins just the pairs whose bits are set in `mask`.
// stays: a mask has a bit for each of `PAIRS`; it is no set of tables
fn masked(alloc: Global, tables: u32, mask: u32) -> Result<String, AllocError> {
    let mut query = head(alloc, tables, mask.count_ones() as usize)?;
    for (i, &pair) in PAIRS.iter().enumerate() {
        if (mask >> i) & 1 == 1 {
            query.push_str(&join(alloc, pair)?)?;
        }
    }
    Ok(query)
}

/// All graphs of up to five tables.
#[test]
fn all_small_graphs(rt: HostRuntime) -> Result<(), Fail> {
    let cases = [
        (1u32, 1u32, 2890092030u32),
        (2, 2, 236826823),
        (3, 8, 2297000897),
        (4, 64, 3425942729),
        (5, 1024, 3171583343),
    ];
    for (tables, graphs, expected) in cases {
        let mut seed = SEED;
        for mask in 0..graphs {
            let query = masked(rt.alloc(), tables, mask)?;
            seed = printed(&rt, query.as_bytes(), seed);
        }
        assert_eq!(rt; seed, expected);
    }
    Ok(())
}

/// The complete graph of 64 tables, and the ring.
#[test]
fn complete_graph_and_ring(rt: HostRuntime) -> Result<(), Fail> {
    let mut complete = head(rt.alloc(), 64, 2016)?;
    for w in 0..64u32 {
        for v in 0..w {
            complete.push_str(&join(rt.alloc(), (v, w))?)?;
        }
    }
    assert_eq!(rt; printed(&rt, complete.as_bytes(), SEED), 2791982236);
    let mut ring = head(rt.alloc(), 64, 64)?;
    for v in 0..64u32 {
        ring.push_str(&join(rt.alloc(), (v, (v + 1) % 64))?)?;
    }
    assert_eq!(rt; printed(&rt, ring.as_bytes(), SEED), 4088684160);
    Ok(())
}

/// The query of a graph of 64 tables given by its joins.
fn listed(alloc: Global, joins: &[(u32, u32)]) -> Result<String, AllocError> {
    let mut query = head(alloc, 64, joins.len())?;
    for &pair in joins {
        query.push_str(&join(alloc, pair)?)?;
    }
    Ok(query)
}

/// Two random graphs.
#[test]
fn random_graphs(rt: HostRuntime) -> Result<(), Fail> {
    let sparse = listed(rt.alloc(), &SPARSE)?;
    assert_eq!(rt; printed(&rt, sparse.as_bytes(), SEED), 2494723983);
    let dense = listed(rt.alloc(), &DENSE)?;
    assert_eq!(rt; printed(&rt, dense.as_bytes(), SEED), 2523006443);
    Ok(())
}
