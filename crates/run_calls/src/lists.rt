//! Lists, refusals and questions, on a table of bits.
use super::table::{BLANK, DONE, FIRST, JOIN_1_3, PUT_3, PUT_4, Row, THREE, asked, compare};
use assembly::build::Built;
use bits::table::BitTable;
use graph::fault::StoreFault;
use ledger::call::{Answer, Call};
use refusals::build::BuildFault;
use runs::run::run;
use runs::session::Session;

/// The six joins of five tables; then that without 1–3, a ring of five tables; then a path, of which table 0 is an articulation table; then the
/// first graph again; then that without table 4.
const LISTS: [Row; 23] = [
    (Call::Join { a: 0, b: 1 }, DONE),
    (Call::Join { a: 0, b: 4 }, DONE),
    (Call::Join { a: 1, b: 2 }, DONE),
    (Call::Join { a: 1, b: 3 }, DONE),
    (Call::Join { a: 2, b: 3 }, DONE),
    (Call::Join { a: 3, b: 4 }, DONE),
    (
        Call::Build { records: 8 },
        Answer::Built {
            from: 0,
            outcome: THREE,
        },
    ),
    (
        Call::Build { records: 3 },
        Answer::Built {
            from: 3,
            outcome: THREE,
        },
    ),
    (
        Call::Join { a: 1, b: 0 },
        Answer::Edited(Err(StoreFault::AlreadyJoined { a: 1, b: 0 })),
    ),
    (
        Call::Unjoin { a: 2, b: 0 },
        Answer::Edited(Err(StoreFault::NotJoined { a: 2, b: 0 })),
    ),
    (Call::Unjoin { a: 3, b: 1 }, DONE),
    (
        Call::Build {
            records: usize::MAX,
        },
        Answer::Built {
            from: 6,
            outcome: Ok(Built {
                triangle: FIRST,
                steps: 2,
            }),
        },
    ),
    (Call::Unjoin { a: 2, b: 3 }, DONE),
    (
        Call::Build { records: 8 },
        Answer::Built {
            from: 8,
            outcome: Err(BuildFault::Articulation { table: 0 }),
        },
    ),
    (Call::Join { a: 3, b: 2 }, DONE),
    (Call::Join { a: 1, b: 3 }, DONE),
    (
        Call::Build { records: 2 },
        Answer::Built {
            from: 8,
            outcome: Err(BuildFault::TooFewRecords { needed: 3 }),
        },
    ),
    (
        Call::Build { records: 8 },
        Answer::Built {
            from: 8,
            outcome: THREE,
        },
    ),
    // two records are left
    (
        Call::Build { records: 8 },
        Answer::Built {
            from: 11,
            outcome: Err(BuildFault::TooFewRecords { needed: 3 }),
        },
    ),
    (Call::Unjoin { a: 0, b: 4 }, DONE),
    (Call::Unjoin { a: 4, b: 3 }, DONE),
    (
        Call::Build { records: 0 },
        Answer::Built {
            from: 11,
            outcome: Err(BuildFault::Unreached { table: 4 }),
        },
    ),
    (Call::Tables, Answer::Tables(5)),
];

/// Each list is laid behind the one before; a refused request lays none.
#[test]
fn lists_given(rt: HostRuntime) {
    let mut graph = BitTable::new(5);
    let mut turns = asked(&LISTS);
    let mut steps = [BLANK; 13];
    let mut session = Session {
        turns: &mut turns,
        steps: &mut steps,
        reports: &mut [],
        trees: &mut [],
        marks: &[],
    };
    run(&mut graph, &mut session);
    compare(&rt, &turns, &LISTS);
    assert_eq!(rt;
        steps,
        [
            PUT_3, JOIN_1_3, PUT_4, PUT_3, JOIN_1_3, PUT_4, PUT_3, PUT_4, PUT_3, JOIN_1_3, PUT_4,
            BLANK, BLANK
        ]
    );
}

/// Two joins of four tables.
const QUESTIONS: [Row; 21] = [
    (Call::Tables, Answer::Tables(4)),
    (Call::Capacity, Answer::Capacity(2016)),
    (Call::Join { a: 1, b: 3 }, DONE),
    (Call::Join { a: 0, b: 3 }, DONE),
    (
        Call::Join { a: 4, b: 9 },
        Answer::Edited(Err(StoreFault::UnknownTable { table: 4 })),
    ),
    (
        Call::Join { a: 0, b: u32::MAX },
        Answer::Edited(Err(StoreFault::UnknownTable { table: u32::MAX })),
    ),
    (
        Call::Join { a: 1, b: 1 },
        Answer::Edited(Err(StoreFault::SameTable { table: 1 })),
    ),
    (
        Call::Unjoin { a: 64, b: 64 },
        Answer::Edited(Err(StoreFault::UnknownTable { table: 64 })),
    ),
    (
        Call::Unjoin { a: 2, b: 2 },
        Answer::Edited(Err(StoreFault::SameTable { table: 2 })),
    ),
    (Call::Joined { a: 3, b: 1 }, Answer::Joined(true)),
    (Call::Joined { a: 0, b: 1 }, Answer::Joined(false)),
    (Call::Joined { a: 3, b: 3 }, Answer::Joined(false)),
    (Call::Joined { a: u32::MAX, b: 0 }, Answer::Joined(false)),
    (Call::Joined { a: 67, b: 65 }, Answer::Joined(false)),
    (
        Call::NextNeighbour { table: 3, bound: 0 },
        Answer::Neighbour(Some(0)),
    ),
    (
        Call::NextNeighbour { table: 3, bound: 1 },
        Answer::Neighbour(Some(1)),
    ),
    (
        Call::NextNeighbour { table: 3, bound: 2 },
        Answer::Neighbour(None),
    ),
    (
        Call::NextNeighbour {
            table: 0,
            bound: u32::MAX,
        },
        Answer::Neighbour(None),
    ),
    (
        Call::NextNeighbour {
            table: u32::MAX,
            bound: 0,
        },
        Answer::Neighbour(None),
    ),
    (
        Call::NextNeighbour {
            table: 67,
            bound: 0,
        },
        Answer::Neighbour(None),
    ),
    // the steps, the reports, the trees and the marks may all be none
    (
        Call::Build { records: 3 },
        Answer::Built {
            from: 0,
            outcome: Err(BuildFault::Unreached { table: 2 }),
        },
    ),
];

/// Numbers of any size may be asked.
#[test]
fn questions_answered(rt: HostRuntime) {
    let mut graph = BitTable::new(4);
    let mut turns = asked(&QUESTIONS);
    let mut session = Session {
        turns: &mut turns,
        steps: &mut [],
        reports: &mut [],
        trees: &mut [],
        marks: &[],
    };
    run(&mut graph, &mut session);
    compare(&rt, &turns, &QUESTIONS);
}
