//! Growths that are refused while factors answer: trees and routes from a factored graph, against
//! what was worked out by hand.
use crate::roads::{Reached, Roads, assert_pair, assert_tree};
use path_algebra::{PathAlgebra, Shortest};
use path_trials::{PARALLEL, made};
use std::process::Abort;

/// A source, and what is told of each vertex.
const TREES: [(u32, [Option<Reached>; 5]); 2] = [
    (
        1,
        [
            Some((0, 0, 0)),
            Some((3, 2, 3)),
            Some((1, 1, 1)),
            None,
            None,
        ],
    ),
    (
        5,
        [
            Some((3, 1, 5)),
            Some((6, 3, 3)),
            Some((4, 2, 1)),
            None,
            Some((0, 0, 0)),
        ],
    ),
];

/// A pair, its code and its route.
const PAIRS: [((u32, u32), u64, &[u32]); 6] = [
    ((1, 2), 3, &[1, 3, 2]),
    ((1, 3), 1, &[1, 3]),
    ((1, 4), 0, &[]),
    ((5, 2), 6, &[5, 1, 3, 2]),
    ((5, 5), 0, &[5]),
    ((1, 2), 3, &[1, 3, 2]),
];

/// Asserts each tree.
fn assert_trees<A: PathAlgebra>(rt: &(impl Abort + AllocGlobal), roads: &Roads<A>) {
    for (source, wanted) in &TREES {
        assert_tree(rt, roads, *source, wanted);
    }
}

/// Asserts each pair.
fn assert_pairs<A: PathAlgebra>(rt: &(impl Abort + AllocGlobal), roads: &mut Roads<A>) {
    for &(pair, code, route) in &PAIRS {
        assert_pair(rt, roads, pair, code, route);
    }
}

/// Whatever growth is refused, what is asked again and all that is asked after it is right.
#[test]
fn refused_growths(rt: HostRuntime) {
    let graph = match made(rt.alloc(), 5, &PARALLEL) {
        Some(graph) => graph,
        None => made(rt.alloc(), 5, &PARALLEL).expect(&rt, "memory"),
    };
    let mut roads = match Roads::new(&rt, Shortest, &graph) {
        Ok(roads) => roads,
        Err(_) => Roads::new(&rt, Shortest, &graph).expect(&rt, "factors"),
    };
    assert_trees(&rt, &roads);
    assert_pairs(&rt, &mut roads);
}
