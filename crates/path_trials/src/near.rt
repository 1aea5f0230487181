//! Pairs of five vertices by searches that may give up, worked out by hand.
use crate::graphs::graph_of;
use crate::samples::{FIVE, arc, is_found};
use halting::{Halt, Stop};
use path_algebra::Shortest;
use road_graph::{InGraph, OutGraph, Vertex};
use route_tree::{Found, Nearby, PairSearcher};
use std::process::Abort;

/// A pair, how many steps a search may take, and what is decided: the code and the route, which has
/// no vertices if there is none.
type Asked = ((u32, u32), u32, Option<(u64, &'static [u32])>);

/// Lists of pairs, each asked of one search, which decides some of them.
/// In the last step it is found that the search is past the target, or that its queue is empty. A
/// search that gave up goes on with the next pair of its source; from another source it begins anew.
const LISTS: [&[Asked]; 13] = [
    &[((1, 1), 1, None)],
    &[((1, 1), 2, Some((0, &[1])))],
    &[((1, 3), 2, None)],
    &[((1, 3), 3, Some((1, &[1, 3])))],
    &[((1, 2), 3, None)],
    &[((1, 2), 4, Some((3, &[1, 3, 2])))],
    &[((1, 4), 5, None)],
    &[((1, 4), 6, Some((8, &[1, 3, 2, 4])))],
    &[((1, 5), 6, None)],
    &[((1, 5), 7, Some((0, &[])))],
    &[((4, 4), 1, None)],
    &[((4, 4), 2, Some((0, &[4])))],
    &[
        ((1, 4), 4, None),
        ((1, 4), 2, Some((8, &[1, 3, 2, 4]))),
        ((1, 2), 1, Some((3, &[1, 3, 2]))),
        ((1, 5), 2, Some((0, &[]))),
        ((5, 4), 7, Some((11, &[5, 1, 3, 2, 4]))),
        ((4, 1), 2, Some((0, &[]))),
    ],
];

/// Whether what was found of a pair is what is wanted.
fn is_near(nearby: &Nearby, wanted: Option<(u64, &[u32])>) -> bool {
    match (nearby, wanted) {
        (Nearby::Decided(found), Some((code, route))) => is_found(found, code, route),
        (Nearby::Undecided, None) => true,
        _ => false,
    }
}

/// Asserts what one search finds of pairs, one after the other.
fn assert_asked(rt: &(impl Abort + AllocGlobal), graph: &OutGraph, pairs: &[Asked]) {
    let rows = InGraph::of(rt.alloc(), graph).expect(rt, "memory");
    let mut searcher = PairSearcher::new(rt.alloc(), Shortest, graph).expect(rt, "memory");
    for &((source, target), most, wanted) in pairs {
        let pair = (Vertex(source), Vertex(target));
        assert!(rt; graph.has(pair.0) && graph.has(pair.1));
        let found = searcher.solve_unless(graph, &rows, pair, &mut Halt::After(most));
        assert!(rt; is_near(&found.expect(rt, "memory"), wanted));
    }
}

#[test]
fn five_vertices_by_searches_that_give_up(rt: HostRuntime) {
    let five = graph_of(&rt, 5, &FIVE);
    for pairs in &LISTS {
        assert_asked(&rt, five.outgoing(), pairs);
    }
}

#[test]
fn a_stop_is_seen_by_all_its_owners(rt: HostRuntime) {
    let stop = Stop::new(rt.alloc()).expect(&rt, "memory");
    let other = stop.try_clone().expect(&rt, "memory");
    assert!(rt; !other.is_set());
    stop.set(true);
    assert!(rt; other.is_set());
    other.set(false);
    assert!(rt; !stop.is_set());
}

// A stop is looked at once in 1,024 steps.
#[test]
fn a_search_looks_at_its_stop_now_and_then(rt: HostRuntime) {
    let stop = Stop::new(rt.alloc()).expect(&rt, "memory");
    stop.set(true);
    let stop = Some(stop);
    let mut halt = Halt::by(&stop);
    for _ in 1..1024 {
        assert!(rt; !halt.is_due());
    }
    assert!(rt; halt.is_due());
    let none = None;
    assert!(rt; !Halt::by(&none).is_due());
}

/// Whether a route of so many arcs was found.
fn has_hops(found: &Option<Found>, hops: u32) -> bool {
    match found {
        Some(found) => found.hops == hops,
        None => false,
    }
}

/// How many vertices the road has: fewer than a search's steps between two looks at its stop.
const ON_THE_ROAD: u32 = 700;

// The search takes 700 steps, and the way back along tight arcs and forth 700 each.
#[test]
fn a_stop_ends_the_search_for_a_route(rt: HostRuntime) {
    let mut arcs = Vec::new(rt.alloc());
    for v in 1..ON_THE_ROAD {
        arcs.push(arc(v, v + 1, 1)).expect(&rt, "memory");
    }
    assert!(rt; arcs.len() < ON_THE_ROAD as usize);
    let road = OutGraph::new(rt.alloc(), ON_THE_ROAD, arcs).expect(&rt, "refused");
    let rows = InGraph::of(rt.alloc(), &road).expect(&rt, "memory");
    let mut searcher = PairSearcher::new(rt.alloc(), Shortest, &road).expect(&rt, "memory");
    let (source, target) = (Vertex(1), Vertex(ON_THE_ROAD));
    assert!(rt; road.has(source));
    assert!(rt; road.has(target));
    let stop = Stop::new(rt.alloc()).expect(&rt, "memory");
    stop.set(true);
    let stop = Some(stop);
    let near = searcher.solve_unless(&road, &rows, (source, target), &mut Halt::by(&stop));
    assert!(rt; is_near(&near.expect(&rt, "memory"), None));
    let found = searcher
        .solve(&road, &rows, (source, target))
        .expect(&rt, "memory");
    assert!(rt; has_hops(&found, ON_THE_ROAD - 1));
}
