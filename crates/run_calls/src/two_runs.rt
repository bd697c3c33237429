//! Two runs, on two stores of different kinds.
use super::pair_list::PairList;
use super::table::{BLANK, DONE, FIRST, JOIN_1_3, PUT_3, PUT_4, Row, THREE, asked, compare};
use assembly::build::Built;
use bits::table::BitTable;
use graph::fault::StoreFault;
use ledger::call::{Answer, Call};
use runs::run::run_two;
use runs::session::Session;
use theory::step::Step;

/// Six joins of five tables, and those with 0–2.
const STRAIGHT: [Row; 10] = [
    (Call::Capacity, Answer::Capacity(2016)),
    (Call::Join { a: 0, b: 1 }, DONE),
    (Call::Join { a: 0, b: 4 }, DONE),
    (Call::Join { a: 1, b: 2 }, DONE),
    (Call::Join { a: 1, b: 3 }, DONE),
    (Call::Join { a: 2, b: 3 }, DONE),
    (Call::Join { a: 3, b: 4 }, DONE),
    (
        Call::Build { records: 3 },
        Answer::Built {
            from: 0,
            outcome: THREE,
        },
    ),
    (Call::Join { a: 0, b: 2 }, DONE),
    (
        Call::Build { records: 4 },
        Answer::Built {
            from: 3,
            outcome: Ok(Built {
                triangle: FIRST,
                steps: 4,
            }),
        },
    ),
];

/// The six joins in another order, with detours, where six joins are all that there is room for.
const DETOURS: [Row; 14] = [
    (Call::Capacity, Answer::Capacity(6)),
    (Call::Join { a: 3, b: 4 }, DONE),
    (Call::Join { a: 2, b: 0 }, DONE),
    (Call::Join { a: 2, b: 3 }, DONE),
    (Call::Join { a: 1, b: 3 }, DONE),
    (Call::Join { a: 2, b: 1 }, DONE),
    (Call::Join { a: 4, b: 0 }, DONE),
    (
        Call::Join { a: 0, b: 1 },
        Answer::Edited(Err(StoreFault::Full { capacity: 6 })),
    ),
    (
        Call::Join { a: 0, b: 2 },
        Answer::Edited(Err(StoreFault::AlreadyJoined { a: 0, b: 2 })),
    ),
    (Call::Unjoin { a: 0, b: 2 }, DONE),
    (Call::Join { a: 0, b: 1 }, DONE),
    (Call::Unjoin { a: 3, b: 4 }, DONE),
    (Call::Join { a: 4, b: 3 }, DONE),
    (
        Call::Build { records: 4 },
        Answer::Built {
            from: 0,
            outcome: THREE,
        },
    ),
];

/// One graph has one list, however it was come to; one join more makes another.
#[test]
fn lists_of_two_stores(rt: HostRuntime) {
    let mut first = BitTable::new(5);
    let mut second = PairList::new(5);
    let mut straight = asked(&STRAIGHT);
    let mut detours = asked(&DETOURS);
    let mut left = [BLANK; 7];
    let mut right = [BLANK; 4];
    let mut one = Session {
        turns: &mut straight,
        steps: &mut left,
        reports: &mut [],
        trees: &mut [],
        marks: &[],
    };
    let mut two = Session {
        turns: &mut detours,
        steps: &mut right,
        reports: &mut [],
        trees: &mut [],
        marks: &[],
    };
    run_two(&mut first, &mut second, &mut one, &mut two);
    compare(&rt, &straight, &STRAIGHT);
    compare(&rt, &detours, &DETOURS);
    let first_then_other = [
        PUT_3,
        JOIN_1_3,
        PUT_4,
        PUT_3,
        Step::Edge { v: 0, w: 2 },
        JOIN_1_3,
        PUT_4,
    ];
    assert_eq!(rt; left, first_then_other);
    assert_eq!(rt; right, [PUT_3, JOIN_1_3, PUT_4, BLANK]);
}
