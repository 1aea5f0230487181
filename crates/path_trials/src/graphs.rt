//! Graphs by arcs, by tail and by head, with what was worked out by hand.
use crate::samples::{PARALLEL, arc, made};
use road_graph::{ArcNo, Graph, GraphFault, InGraph, OutGraph, OutRoad, RoadArc, Vertex};
use std::process::Abort;

/// The graph of these tails, heads and weights, which is not refused.
pub(crate) fn graph_of(rt: &(impl Abort + AllocGlobal), n: u32, arcs: &[(u32, u32, u32)]) -> Graph {
    made(rt.alloc(), n, arcs).expect(rt, "refused")
}

/// Asserts that the second of these arcs was refused, and that they came back.
fn assert_second_refused<G>(
    rt: &impl Abort,
    made: Result<G, (GraphFault, Vec<RoadArc>)>,
    arcs: &[RoadArc],
) {
    match made {
        Err((GraphFault::BadEnd(ArcNo(2)), back)) => assert!(rt; back.as_slice() == arcs),
        _ => panic!(rt; "another fault, or none"),
    }
}

/// The first arc with an end that is no vertex is reported, and the arcs come back.
#[test]
fn bad_ends_hand_back(rt: HostRuntime) {
    let alloc = rt.alloc();
    let two = [arc(1, 2, 7), arc(1, 3, 8)];
    let three = [arc(1, 2, 7), arc(1, 3, 8), arc(0, 1, 9)];
    let arcs = vec![in alloc; two[0], two[1]].expect(&rt, "memory");
    assert_second_refused(&rt, Graph::new(alloc, 2, arcs), &two);
    let arcs = vec![in alloc; three[0], three[1], three[2]].expect(&rt, "memory");
    assert_second_refused(&rt, OutGraph::new(alloc, 2, arcs), &three);
}

/// The vertices with the numbers of the arcs that leave them, and of those that enter them.
const NUMBERS: [(u32, &[u32]); 5] = [(1, &[2, 4, 6]), (2, &[]), (3, &[1]), (4, &[3]), (5, &[5])];

/// Asserts the numbers of some arcs.
fn assert_numbers(rt: &impl Abort, found: &[ArcNo], wanted: &[u32]) {
    assert!(rt; found.len() == wanted.len());
    for (a, &number) in found.iter().zip(wanted) {
        assert!(rt; a.0 == number);
    }
}

/// The vertices with the heads and weights of the arcs that leave them, and the tails and weights of
/// those that enter them.
const ROADS: [(u32, &[(u32, u32)], &[(u32, u32)]); 5] = [
    (1, &[(2, 4), (3, 1), (3, 9)], &[(5, 3)]),
    (2, &[], &[(1, 4), (3, 2)]),
    (3, &[(2, 2)], &[(1, 1), (1, 9)]),
    (4, &[(4, 0)], &[(4, 0)]),
    (5, &[(1, 3)], &[]),
];

/// Asserts the heads and weights of some roads.
fn assert_roads(rt: &impl Abort, found: &[OutRoad], wanted: &[(u32, u32)]) {
    assert!(rt; found.len() == wanted.len());
    for (road, &(head, weight)) in found.iter().zip(wanted) {
        assert!(rt; road.head == Vertex(head) && road.weight == weight);
    }
}

/// Each arc has its number, and its index among those that leave its tail.
fn assert_arcs(rt: &impl Abort, graph: &Graph) {
    let mut a = ArcNo(0);
    for (&(tail, head, weight), rank) in PARALLEL.iter().zip(&[0, 0, 0, 1, 0, 2]) {
        a = ArcNo(a.0.saturating_add(1));
        assert!(rt; a.0 as usize <= graph.arcs());
        assert!(rt; graph.arc(a) == arc(tail, head, weight));
        assert!(rt; graph.rank(a) == *rank);
    }
}

#[test]
fn rows_of_numbers(rt: HostRuntime) {
    let graph = &graph_of(&rt, 5, &PARALLEL);
    for &(v, out) in &NUMBERS {
        assert!(rt; graph.has(Vertex(v)));
        assert_numbers(&rt, graph.out(Vertex(v)), out);
    }
    assert!(rt; !graph.has(Vertex(0)) && !graph.has(Vertex(6)));
}

#[test]
fn rows_by_one_side_alone(rt: HostRuntime) {
    let graph = graph_of(&rt, 5, &PARALLEL);
    let out = graph.outgoing();
    let into = InGraph::of(rt.alloc(), out).expect(&rt, "memory");
    for &(v, leaving, entering) in &ROADS {
        assert!(rt; out.has(Vertex(v)));
        assert_roads(&rt, out.roads_from(Vertex(v)), leaving);
        assert_roads(&rt, into.roads_into(Vertex(v)), entering);
    }
}

/// An index changes nothing that the graph says of an arc.
#[test]
fn arcs_by_number(rt: HostRuntime) {
    let mut graph = graph_of(&rt, 5, &PARALLEL);
    assert_arcs(&rt, &graph);
    graph.index(rt.alloc()).expect(&rt, "memory");
    assert_arcs(&rt, &graph);
}

/// The only arc of a graph.
const ONLY: RoadArc = RoadArc {
    tail: Vertex(2),
    head: Vertex(1),
    weight: 7,
};

/// Arcs that are known to join the vertices make a graph without a test of their ends.
#[test]
fn known_arcs(rt: HostRuntime) {
    let alloc = rt.alloc();
    let arcs = vec![in alloc; ONLY].expect(&rt, "memory");
    let graph = Graph::of_arcs(alloc, 2, arcs).expect(&rt, "memory");
    assert!(rt; graph.arc(ArcNo(1)) == ONLY);
    let arcs = vec![in alloc; ONLY].expect(&rt, "memory");
    let out = OutGraph::of_arcs(alloc, 2, arcs).expect(&rt, "memory");
    assert_roads(&rt, out.roads_from(Vertex(2)), &[(1, 7)]);
}

/// A graph may have no vertex at all.
#[test]
fn empty_graph(rt: HostRuntime) {
    let graph = graph_of(&rt, 0, &[]);
    assert!(rt; graph.vertices() == 0 && graph.arcs() == 0);
    assert!(rt; !graph.has(Vertex(0)) && !graph.has(Vertex(1)));
}
