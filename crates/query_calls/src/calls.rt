//! Queries read, whole and in part, and the catalogue.
use bits::table::BitTable;
use catalogue::catalogue::Catalogue;
use catalogue::fault::RowFault;
use graph::graph::ReadableGraph;
use queries::query::{QueryHead, read_query};
use theory::mark::Mark;

/// Three tables in a row, with both marks, and two row counts for table 1.
const ROW: &[u8] =
    b"G    3    2     \nJ         0    1\nJ         2    1\nM         1    0\nM         1    2\nR    1       900\nR    2        -1\nR    1         7\n";

const BLANK: Mark = Mark { v: 9, w: 9 };

/// The pairs of the J lines are joined, the marks are kept as they stand, and the last row count holds.
#[test]
fn query_read(rt: HostRuntime) {
    let mut graph = BitTable::new(9);
    let mut marks = [BLANK; 3];
    let mut rows = Catalogue::new();
    assert_eq!(rt; rows.set(2, 5), Ok(()));
    assert_eq!(rt; rows.set(0, 6), Ok(()));
    assert_eq!(rt;
        read_query(ROW, 0, &mut graph, &mut marks, &mut rows),
        Ok(QueryHead {
            tables: 3,
            joins: 2,
            marks: 2,
            end: 136,
        })
    );
    assert_eq!(rt; graph.tables(), 3);
    assert!(rt; graph.joined(0, 1));
    assert!(rt; graph.joined(1, 2));
    assert!(rt; !graph.joined(0, 2));
    assert_eq!(rt; marks, [Mark { v: 1, w: 0 }, Mark { v: 1, w: 2 }, BLANK]);
    assert_eq!(rt; rows.get(0).known(), Some(6));
    assert_eq!(rt; rows.get(1).known(), Some(7));
    assert_eq!(rt; rows.get(2).known(), None);
}

/// A query needs neither marks nor row counts.
#[test]
fn query_without_marks(rt: HostRuntime) {
    let mut graph = BitTable::new(9);
    let mut marks = [BLANK; 2];
    let mut rows = Catalogue::new();
    assert_eq!(rt;
        read_query(&ROW[0..51], 0, &mut graph, &mut marks, &mut rows),
        Ok(QueryHead {
            tables: 3,
            joins: 2,
            marks: 0,
            end: 51,
        })
    );
    assert_eq!(rt; marks, [BLANK; 2]);
}

/// What a text tells: its head, or the number, the layer and the place of its refusal.
// stays: the three numbers of the X line are what is tested
fn told(
    text: &[u8],
    graph: &mut BitTable,
    rows: &mut Catalogue,
) -> Result<QueryHead, (u32, u32, usize)> {
    let mut marks = [BLANK; 2];
    read_query(text, 0, graph, &mut marks, rows).map_err(|fault| (
        fault.number(),
        u32::from(fault.layer()),
        fault.place(),
    ))
}

/// The G line.
#[test]
fn head_refused(rt: HostRuntime) {
    let mut graph = BitTable::new(9);
    let mut rows = Catalogue::new();
    assert_eq!(rt; told(b"", &mut graph, &mut rows), Err((15, 1, 0)));
    assert_eq!(rt; graph.tables(), 1);
    assert_eq!(rt;
        told(b"H    3    3    0\n", &mut graph, &mut rows),
        Err((16, 1, 0))
    );
}

/// The G line's numbers.
#[test]
fn head_out_of_limits(rt: HostRuntime) {
    let mut graph = BitTable::new(9);
    let mut rows = Catalogue::new();
    assert_eq!(rt;
        told(b"G    0    0     \n", &mut graph, &mut rows),
        Err((17, 1, 0))
    );
    assert_eq!(rt;
        told(b"G   65    0     \n", &mut graph, &mut rows),
        Err((17, 1, 0))
    );
    assert_eq!(rt;
        told(b"G   64 2017     \n", &mut graph, &mut rows),
        Err((17, 1, 0))
    );
    assert_eq!(rt;
        told(b"G    4 2016     \n", &mut graph, &mut rows),
        Err((9, 1, 3))
    );
}

/// A join is owed: another line, or the text's end, is refused.
#[test]
fn join_owed(rt: HostRuntime) {
    let mut graph = BitTable::new(9);
    let mut rows = Catalogue::new();
    assert_eq!(rt; told(&ROW[0..34], &mut graph, &mut rows), Err((15, 1, 34)));
    assert_eq!(rt;
        told(
            b"G    2    1     \nM         0    1\n",
            &mut graph,
            &mut rows,
        ),
        Err((16, 1, 17))
    );
}

/// Marks once begun are owed.
#[test]
fn mark_owed(rt: HostRuntime) {
    let mut graph = BitTable::new(9);
    let mut rows = Catalogue::new();
    assert_eq!(rt; told(&ROW[0..68], &mut graph, &mut rows), Err((15, 1, 68)));
    assert_eq!(rt;
        told(
            b"G    3    0     \nM         0    1\nR    0         1\n",
            &mut graph,
            &mut rows,
        ),
        Err((16, 1, 34))
    );
}

/// A mark of one table; a mark after a row count; a line begun where none is owed.
#[test]
fn line_misplaced(rt: HostRuntime) {
    let mut graph = BitTable::new(9);
    let mut rows = Catalogue::new();
    assert_eq!(rt;
        told(
            b"G    1    0     \nM         0    0\n",
            &mut graph,
            &mut rows,
        ),
        Err((16, 1, 17))
    );
    assert_eq!(rt;
        told(
            b"G    2    0     \nR    0         1\nM         0    1\n",
            &mut graph,
            &mut rows,
        ),
        Err((16, 1, 34))
    );
    assert_eq!(rt;
        told(b"G    2    0     \nR", &mut graph, &mut rows),
        Err((15, 1, 18))
    );
}

/// A join that the store refuses: the ones before it stay.
#[test]
fn join_refused(rt: HostRuntime) {
    let mut graph = BitTable::new(9);
    let mut rows = Catalogue::new();
    assert_eq!(rt;
        told(
            b"G    3    2     \nJ         0    1\nJ         1    0\n",
            &mut graph,
            &mut rows,
        ),
        Err((3, 2, 34))
    );
    assert!(rt; graph.joined(0, 1));
    assert_eq!(rt;
        told(
            b"G    3    1     \nJ         0    3\n",
            &mut graph,
            &mut rows,
        ),
        Err((1, 2, 17))
    );
    assert!(rt; !graph.joined(0, 1));
}

/// A row count that is refused: the ones before it stay. Ten characters hold more than 32 bits.
#[test]
fn row_refused(rt: HostRuntime) {
    let mut graph = BitTable::new(9);
    let mut rows = Catalogue::new();
    assert_eq!(rt;
        told(
            b"G    2    0     \nR    12147483647\nR    24294967297\n",
            &mut graph,
            &mut rows,
        ),
        Err((1, 4, 34))
    );
    assert_eq!(rt; rows.get(1).known(), Some(2147483647));
    assert_eq!(rt;
        told(
            b"G    2    0     \nR    14294967297\n",
            &mut graph,
            &mut rows,
        ),
        Err((21, 4, 17))
    );
    assert_eq!(rt;
        told(
            b"G    2    0     \nR    1        -2\n",
            &mut graph,
            &mut rows,
        ),
        Err((21, 4, 17))
    );
    assert_eq!(rt; rows.get(1).known(), Some(2147483647));
}

/// The catalogue by itself.
#[test]
fn rows_set(rt: HostRuntime) {
    let mut rows = Catalogue::new();
    assert_eq!(rt; rows.get(0).known(), None);
    assert_eq!(rt; rows.set(63, 0), Ok(()));
    assert_eq!(rt; rows.get(63).known(), Some(0));
    assert_eq!(rt; rows.get(62).known(), None);
    assert_eq!(rt; rows.get(64).known(), None);
    assert_eq!(rt; rows.set(64, -2), Err(RowFault::UnknownTable { table: 64 }));
    assert_eq!(rt;
        rows.set(63, 2147483648),
        Err(RowFault::OutOfRange {
            table: 63,
            stored: 2147483648,
        })
    );
    assert_eq!(rt; rows.get(63).known(), Some(0));
    assert_eq!(rt; rows.set(63, -1), Ok(()));
    assert_eq!(rt; rows.get(63).known(), None);
}
