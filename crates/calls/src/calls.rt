//! The calls under the program: lists read and written, graphs written, and the replay with its refusals.
use super::given::{BLANK, FIRST};
use super::narrow::Narrow;
use bits::table::BitTable;
use construction::replay::replay;
use graph::fault::StoreFault;
use graph::graph::{EditableGraph, ReadableGraph};
use prints::graph_text::{count_joins, write_graph};
use refusals::fault::ReplayFault;
use std::mem::size_of;
use std::test::Fail;
use texts::fault::TextFault;
use texts::list::{BuildList, Heading, read_list};
use texts::list_write::write_list;
use theory::step::{Step, Triangle};

// stays: also in `cases`: a crate between the two would have to promise in public what only tests need
const FIVE: &[u8] =
    b"H    5    6    3\nT    0    1    2\nN    3    0    2\nE         1    3\nN    4    0    3\n";

const STEPS: [Step; 3] = [
    Step::Node { u: 3, v: 0, w: 2 },
    Step::Edge { v: 1, w: 3 },
    Step::Node { u: 4, v: 0, w: 3 },
];

/// The list of `FIVE`.
const LIST: BuildList = BuildList {
    tables: 5,
    triangle: FIRST,
    steps: &STEPS,
};

/// A record of three 32-bit numbers and a tag: with 64-bit ones the program would not keep within its memory.
#[test]
fn size_of_a_step(rt: HostRuntime) {
    assert_eq!(rt; size_of::<Step>(), 16);
}

/// A list fills as many records as it has steps, and later ones keep their contents.
#[test]
fn list_read(rt: HostRuntime) {
    let mut records = [BLANK; 4];
    assert_eq!(rt;
        read_list(FIVE, 0, &mut records),
        Ok(Heading {
            tables: 5,
            triangle: FIRST,
            steps: 3,
            end: 85,
        })
    );
    assert_eq!(rt; records, [STEPS[0], STEPS[1], STEPS[2], BLANK]);
}

/// 9 names the number of steps, and no record is touched.
#[test]
fn list_read_into_too_few(rt: HostRuntime) {
    let mut records = [BLANK; 2];
    assert_eq!(rt;
        read_list(FIVE, 0, &mut records),
        Err(TextFault::TooFew { needed: 3 })
    );
    assert_eq!(rt; records, [BLANK; 2]);
}

/// Lines before a refused one keep their effect.
#[test]
fn list_read_in_part(rt: HostRuntime) {
    let mut records = [BLANK; 3];
    assert_eq!(rt;
        read_list(&FIVE[0..84], 0, &mut records),
        Err(TextFault::BadForm { place: 84 })
    );
    assert_eq!(rt; records, [STEPS[0], STEPS[1], BLANK]);
}

/// Bytes past the text keep their contents.
#[test]
fn list_written(rt: HostRuntime) {
    let mut out = [7u8; 86];
    assert_eq!(rt; write_list(&mut out, LIST), Ok(85));
    assert_eq!(rt; &out[0..85], FIVE);
    assert_eq!(rt; out[85], 7);
}

/// 9 names the length of the text, 17 the line; nothing is written.
#[test]
fn list_not_written(rt: HostRuntime) {
    let mut out = [7u8; 84];
    assert_eq!(rt;
        write_list(&mut out, LIST),
        Err(TextFault::TooFew { needed: 85 })
    );
    assert_eq!(rt;
        write_list(&mut out, BuildList { tables: 2, ..LIST }),
        Err(TextFault::OutOfLimits { place: 0 })
    );
    assert_eq!(rt;
        write_list(&mut out, BuildList { tables: 65, ..LIST }),
        Err(TextFault::OutOfLimits { place: 0 })
    );
    let triangle = Triangle {
        a: 0,
        b: 1,
        c: 100000,
    };
    assert_eq!(rt;
        write_list(&mut out, BuildList { triangle, ..LIST }),
        Err(TextFault::OutOfLimits { place: 17 })
    );
    let steps = [
        STEPS[0],
        Step::Edge {
            v: 99999,
            w: 100000,
        },
    ];
    assert_eq!(rt;
        write_list(
            &mut out,
            BuildList {
                steps: &steps,
                ..LIST
            },
        ),
        Err(TextFault::OutOfLimits { place: 51 })
    );
    assert_eq!(rt; out, [7u8; 84]);
}

/// The graph of the five tables: 9 names the length of its text, and then nothing is written.
#[test]
fn graph_written(rt: HostRuntime) -> Result<(), Fail> {
    let mut graph = BitTable::new(5);
    replay(&mut graph, FIRST, &STEPS)?;
    assert_eq!(rt; count_joins(&graph), 6);
    let mut out = [7u8; 120];
    assert_eq!(rt;
        write_graph(&graph, &mut out[0..118]),
        Err(TextFault::TooFew { needed: 119 })
    );
    assert_eq!(rt; out, [7u8; 120]);
    assert_eq!(rt; write_graph(&graph, &mut out), Ok(119));
    assert_eq!(rt;
        &out[0..119],
        b"G    5    6     \nJ         0    1\nJ         0    4\nJ         1    2\nJ         1    3\nJ         2    3\nJ         3    4\n".as_slice()
    );
    assert_eq!(rt; out[119], 7);
    Ok(())
}

/// 10, before anything is changed.
#[test]
fn replay_on_joins(rt: HostRuntime) -> Result<(), Fail> {
    let mut graph = BitTable::new(5);
    graph.join(3, 4)?;
    assert_eq!(rt;
        replay(&mut graph, FIRST, &STEPS),
        Err(ReplayFault::HasJoins)
    );
    assert_eq!(rt; count_joins(&graph), 1);
    assert!(rt; graph.joined(4, 3));
    Ok(())
}

/// A refused step leaves what the steps before it made, and the store's refusal is carried whole.
#[test]
fn replay_refused_at_a_step(rt: HostRuntime) {
    let mut graph = BitTable::new(5);
    assert_eq!(rt;
        replay(
            &mut graph,
            FIRST,
            &[STEPS[0], STEPS[1], Step::Node { u: 4, v: 2, w: 0 }],
        ),
        Err(ReplayFault::Store {
            step: 3,
            fault: StoreFault::NotJoined { a: 2, b: 0 },
        })
    );
    assert_eq!(rt; count_joins(&graph), 5);
    assert!(rt; graph.joined(1, 3) && graph.joined(0, 3) && graph.joined(2, 3));
    assert_eq!(rt; graph.next_neighbour(4, 0), None);
}

/// 5 at the start, at a node step and at an edge step: a step leaves no half of itself.
#[test]
fn replay_without_room(rt: HostRuntime) {
    // the step that is refused, and the number of joins that are left
    for (capacity, step, joins) in [(2, 0, 0), (3, 1, 3), (4, 2, 4)] {
        let mut graph = Narrow::new(5, capacity);
        assert_eq!(rt;
            replay(&mut graph, FIRST, &STEPS),
            Err(ReplayFault::Store {
                step,
                fault: StoreFault::Full { capacity },
            })
        );
        assert_eq!(rt; count_joins(&graph), joins);
        assert_eq!(rt; graph.joined(0, 2), step == 1);
        assert_eq!(rt; graph.joined(0, 3), step == 2);
    }
}

/// A full graph that is asked for a join that it has answers 3, for another one 5, and takes that after an unjoin.
#[test]
fn full_graph(rt: HostRuntime) -> Result<(), Fail> {
    let mut graph = Narrow::new(4, 1);
    graph.join(0, 1)?;
    assert_eq!(rt;
        graph.join(1, 0),
        Err(StoreFault::AlreadyJoined { a: 1, b: 0 })
    );
    assert_eq!(rt; graph.join(0, 3), Err(StoreFault::Full { capacity: 1 }));
    graph.unjoin(1, 0)?;
    graph.join(0, 3)?;
    assert!(rt; graph.joined(3, 0) && !graph.joined(0, 1));
    Ok(())
}
