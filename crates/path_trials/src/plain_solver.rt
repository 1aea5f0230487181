//! Labels worked out by hand, as far as a target and from several sources; for each algebra,
//! `system_tests/worked` tries them.

use crate::graphs::graph_of;
use crate::samples::FIVE;
use path_algebra::{Labels, Shortest};
use path_plain::{best_values_exist, labels_serve_nearer_targets, solve_outgoing, solve_to};
use road_graph::{OutGraph, Vertex};
use std::process::Abort;

/// Asserts the labels, vertex by vertex.
fn assert_labels(rt: &impl Abort, labels: &Labels<u64>, wanted: &[Option<u64>]) {
    let mut v = Vertex(0);
    for label in wanted {
        v = Vertex(v.0.saturating_add(1));
        assert!(rt; v.0 as usize <= labels.vertices());
        assert!(rt; labels.of(v) == *label);
    }
}

/// Asserts the labels from vertex 1 of a search as far as a target.
fn assert_to(
    rt: &(impl Abort + AllocGlobal),
    graph: &OutGraph,
    target: u32,
    wanted: &[Option<u64>],
) {
    let (source, target) = (Vertex(1), Vertex(target));
    assert!(rt; graph.has(source) && graph.has(target));
    let labels = solve_to(rt.alloc(), Shortest, graph, &[source], target);
    assert_labels(rt, &labels.expect(rt, "memory"), wanted);
}

// The search to 3 stops before 2 is settled, by which 4 has 8; the one to 5, which no walk reaches,
// goes on to the end.
#[test]
fn five_vertices_as_far_as_a_target(rt: HostRuntime) {
    labels_serve_nearer_targets(Shortest);
    best_values_exist(Shortest);
    let graph = graph_of(&rt, 5, &FIVE);
    for (target, wanted) in &[
        (1, [Some(0), Some(4), Some(1), None, None]),
        (3, [Some(0), Some(3), Some(1), Some(9), None]),
        (2, [Some(0), Some(3), Some(1), Some(8), None]),
        (5, [Some(0), Some(3), Some(1), Some(8), None]),
    ] {
        assert_to(&rt, graph.outgoing(), *target, wanted);
    }
}

#[test]
fn several_sources(rt: HostRuntime) {
    let graph = graph_of(&rt, 5, &FIVE);
    let graph = graph.outgoing();
    let sources = [Vertex(5), Vertex(2), Vertex(5)];
    assert!(rt; graph.has(Vertex(2)) && graph.has(Vertex(5)));
    let labels = solve_outgoing(rt.alloc(), Shortest, graph, &sources).expect(&rt, "memory");
    assert_labels(&rt, &labels, &[Some(3), Some(0), Some(4), Some(5), Some(0)]);
}
