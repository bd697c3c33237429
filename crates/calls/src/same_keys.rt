//! The build request, keys compared, and the stack: the lists, the refusals, and what is left in lent records.
use super::given::{BLANK, FIRST};
use super::narrow::Narrow;
use assembly::build::{Built, build};
use bits::table::BitTable;
use graph::fault::StoreFault;
use graph::graph::EditableGraph;
use keys::key::{KeyFault, same_key};
use memory::stack::Stack;
use refusals::build::BuildFault;
use std::process::Abort;
use theory::step::Step;

/// All joins of the first four tables.
fn complete<G: EditableGraph>(rt: &impl Abort, graph: &mut G) {
    for w in 1..4u32 {
        for v in 0..w {
            assert_eq!(rt; graph.join(v, w), Ok(()));
        }
    }
}

/// The complete graph of four tables has three steps: two records are too few, and a fourth keeps its contents.
#[test]
fn complete_graph_of_four(rt: HostRuntime) {
    let mut graph = BitTable::new(4);
    complete(&rt, &mut graph);
    let mut two = [BLANK; 2];
    let refused = build(&graph, &mut two);
    assert_eq!(rt; refused, Err(BuildFault::TooFewRecords { needed: 3 }));
    assert_eq!(rt; two, [BLANK, BLANK]);
    assert_eq!(rt; BuildFault::TooFewRecords { needed: 3 }.number(), 9);
    assert_eq!(rt; BuildFault::TooFewRecords { needed: 3 }.value(), 3);
    let mut four = [BLANK; 4];
    let built = build(&graph, &mut four);
    assert_eq!(rt;
        built,
        Ok(Built {
            triangle: FIRST,
            steps: 3,
        })
    );
    assert_eq!(rt;
        four,
        [
            Step::Node { u: 3, v: 0, w: 2 },
            Step::Edge { v: 0, w: 2 },
            Step::Edge { v: 1, w: 3 },
            BLANK,
        ]
    );
}

/// Two tables; a table not reached; an articulation table.
#[test]
fn graphs_without_a_list(rt: HostRuntime) {
    let mut records = [BLANK; 1];
    assert_eq!(rt;
        build(&BitTable::new(2), &mut records),
        Err(BuildFault::TooSmall)
    );
    let mut path = BitTable::new(4);
    assert_eq!(rt; path.join(0, 1), Ok(()));
    assert_eq!(rt; path.join(1, 2), Ok(()));
    assert_eq!(rt;
        build(&path, &mut records),
        Err(BuildFault::Unreached { table: 3 })
    );
    assert_eq!(rt; path.join(2, 3), Ok(()));
    assert_eq!(rt;
        build(&path, &mut records),
        Err(BuildFault::Articulation { table: 1 })
    );
    assert_eq!(rt; records, [BLANK]);
}

/// Two kinds of store: one key, another key, and no key of the first or of the second.
#[test]
fn keys_of_two_stores(rt: HostRuntime) {
    let mut first = BitTable::new(4);
    let mut second = Narrow::new(4, 6);
    complete(&rt, &mut first);
    complete(&rt, &mut second);
    let mut left = [BLANK; 3];
    let mut right = [BLANK; 3];
    assert_eq!(rt; same_key(&first, &second, &mut left, &mut right), Ok(true));
    assert_eq!(rt; left, right);
    assert_eq!(rt; second.unjoin(0, 3), Ok(()));
    assert_eq!(rt; same_key(&first, &second, &mut left, &mut right), Ok(false));
    assert_eq!(rt; second.unjoin(1, 3), Ok(()));
    assert_eq!(rt;
        same_key(&first, &second, &mut left, &mut right),
        Err(KeyFault::Second(BuildFault::Articulation { table: 2 }))
    );
    assert_eq!(rt;
        same_key(&second, &first, &mut left, &mut right),
        Err(KeyFault::First(BuildFault::Articulation { table: 2 }))
    );
}

/// Full, the stack takes none; empty, it gives none; the lender finds what was put there.
#[test]
fn stack_of_two(rt: HostRuntime) {
    let mut slots = [5u32, 6, 7];
    let mut stack = Stack::new(&mut slots[0..2]);
    assert_eq!(rt; stack.pop(), None);
    assert_eq!(rt; stack.push(1), Ok(()));
    assert_eq!(rt; stack.push(2), Ok(()));
    assert_eq!(rt; stack.push(3), Err(3));
    assert_eq!(rt; stack.len(), 2);
    assert_eq!(rt; stack.top(), Some(2));
    assert_eq!(rt; stack.pop(), Some(2));
    assert_eq!(rt; stack.pop(), Some(1));
    assert_eq!(rt; stack.pop(), None);
    assert_eq!(rt; slots, [1, 2, 7]);
}
