//! Fillings and driving requests, on a table of bits.
use super::table::{DONE, Row, asked, compare};
use bits::table::BitTable;
use driving::fault::DriveFault;
use graph::fault::StoreFault;
use ledger::call::{Answer, Call};
use reports::record::ReportRecord;
use runs::run::run;
use runs::session::Session;
use theory::mark::Mark;
use trees::fault::{MarkFault, TreeFault};
use trees::tree::SpanningTree;

/// A filling that is accepted.
const FILLED: Answer = Answer::Filled(Ok(()));

/// The first three are the path 0–1–2–3, the last three the path 0–3–2–1.
const MARKS: [Mark; 8] = [
    Mark { v: 0, w: 1 },
    Mark { v: 1, w: 2 },
    Mark { v: 2, w: 3 },
    Mark { v: 3, w: 2 },
    Mark { v: 0, w: 2 },
    Mark { v: 3, w: 0 },
    Mark { v: 3, w: 2 },
    Mark { v: 2, w: 1 },
];

/// A ring of four tables; the tree at place 0 is the first path, and that at place 1 the other.
const CALLS: [Row; 26] = [
    // as lent, it is the tree of one table
    (
        Call::Drive {
            tree: 0,
            records: 4,
        },
        Answer::Driven {
            from: 0,
            outcome: Err(DriveFault::OtherCount { tree: 1, graph: 4 }),
        },
    ),
    (Call::Join { a: 0, b: 1 }, DONE),
    (Call::Join { a: 1, b: 2 }, DONE),
    (Call::Join { a: 2, b: 3 }, DONE),
    (Call::Join { a: 0, b: 3 }, DONE),
    (
        Call::Fill {
            tree: 0,
            first: 0,
            count: 3,
        },
        FILLED,
    ),
    (
        Call::Drive {
            tree: 0,
            records: 4,
        },
        Answer::Driven {
            from: 0,
            outcome: Ok(()),
        },
    ),
    (
        Call::Drive {
            tree: 0,
            records: 3,
        },
        Answer::Driven {
            from: 4,
            outcome: Err(DriveFault::TooFewRecords { needed: 4 }),
        },
    ),
    // refused fillings, after which the tree is as it was
    (
        Call::Fill {
            tree: 0,
            first: 0,
            count: 2,
        },
        Answer::Filled(Err(TreeFault::WrongCount { needed: 3 })),
    ),
    (
        Call::Fill {
            tree: 0,
            first: 6,
            count: 9,
        },
        Answer::Filled(Err(TreeFault::WrongCount { needed: 3 })),
    ),
    (
        Call::Fill {
            tree: 0,
            first: 9,
            count: 3,
        },
        Answer::Filled(Err(TreeFault::WrongCount { needed: 3 })),
    ),
    (
        Call::Fill {
            tree: 0,
            first: 1,
            count: 3,
        },
        Answer::Filled(Err(TreeFault::Mark {
            turn: 2,
            fault: MarkFault::ClosesRing { v: 3, w: 2 },
        })),
    ),
    (
        Call::Fill {
            tree: 0,
            first: 3,
            count: 3,
        },
        Answer::Filled(Err(TreeFault::Mark {
            turn: 1,
            fault: MarkFault::Store(StoreFault::NotJoined { a: 0, b: 2 }),
        })),
    ),
    (
        Call::Drive {
            tree: 0,
            records: 5,
        },
        Answer::Driven {
            from: 4,
            outcome: Ok(()),
        },
    ),
    // past the end it is judged and kept nowhere, and the tree there is that of one table
    (
        Call::Fill {
            tree: 2,
            first: 0,
            count: 3,
        },
        FILLED,
    ),
    (
        Call::Fill {
            tree: 2,
            first: 0,
            count: 4,
        },
        Answer::Filled(Err(TreeFault::WrongCount { needed: 3 })),
    ),
    (
        Call::Drive {
            tree: 2,
            records: 4,
        },
        Answer::Driven {
            from: 8,
            outcome: Err(DriveFault::OtherCount { tree: 1, graph: 4 }),
        },
    ),
    (
        Call::Fill {
            tree: 1,
            first: 5,
            count: usize::MAX,
        },
        FILLED,
    ),
    (
        Call::Drive {
            tree: 1,
            records: usize::MAX,
        },
        Answer::Driven {
            from: 8,
            outcome: Ok(()),
        },
    ),
    (Call::Join { a: 0, b: 2 }, DONE),
    (
        Call::Drive {
            tree: 0,
            records: 4,
        },
        Answer::Driven {
            from: 12,
            outcome: Ok(()),
        },
    ),
    // a mark that is no join goes before too few records
    (Call::Unjoin { a: 1, b: 2 }, DONE),
    (
        Call::Drive {
            tree: 0,
            records: 0,
        },
        Answer::Driven {
            from: 16,
            outcome: Err(DriveFault::NotJoined { table: 2 }),
        },
    ),
    (
        Call::Drive {
            tree: 1,
            records: 4,
        },
        Answer::Driven {
            from: 16,
            outcome: Err(DriveFault::NotJoined { table: 1 }),
        },
    ),
    (Call::Join { a: 2, b: 1 }, DONE),
    // one record is left
    (
        Call::Drive {
            tree: 0,
            records: 4,
        },
        Answer::Driven {
            from: 16,
            outcome: Err(DriveFault::TooFewRecords { needed: 4 }),
        },
    ),
];

/// The record of a table with so many cross joins; with none it drives.
fn record(cross: u32) -> ReportRecord {
    ReportRecord {
        cross,
        drives: cross == 0,
    }
}

/// Each report is laid behind the one before; a refused request lays none.
#[test]
fn reports_given(rt: HostRuntime) {
    let mut graph = BitTable::new(4);
    let mut turns = asked(&CALLS);
    let mut reports = [record(77); 17];
    let mut trees = [SpanningTree::new(); 2];
    let mut session = Session {
        turns: &mut turns,
        steps: &mut [],
        reports: &mut reports,
        trees: &mut trees,
        marks: &MARKS,
    };
    run(&mut graph, &mut session);
    compare(&rt, &turns, &CALLS);
    // the tree at 0, twice; that at 1; that at 0 again, with the join 0–2, too; and what was not filled
    let counts = [0, 1, 1, 0, 0, 1, 1, 0, 0, 0, 1, 1, 0, 2, 1, 0, 77];
    assert_eq!(rt; reports, counts.map(record));
}
