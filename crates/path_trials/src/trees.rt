//! A small graph, with the hops and parents that were worked out by hand; `system_tests/worked` has
//! more.

use crate::graphs::graph_of;
use crate::samples::{FIVE, are_vertices};
use path_algebra::{PathAlgebra, Shortest};
use path_plain::solve_one;
use road_graph::{Graph, Vertex};
use route_tree::{
    Tree, hops_tell_reached, labels_and_trees_agree, route, routes_follow_parents, tree,
    trees_exist,
};
use std::process::Abort;

/// Asserts that each vertex has these hops and this parent, where 0 stands for none.
fn assert_tree(rt: &(impl Abort + AllocGlobal), found: &Tree, wanted: &[(Option<u32>, u32)]) {
    assert!(rt; found.vertices() == wanted.len());
    let mut v = Vertex(0);
    for &(hops, parent) in wanted {
        v = Vertex(v.0.saturating_add(1));
        assert!(rt; v.0 as usize <= found.vertices());
        assert!(rt; found.hops(v) == hops && found.parent(v).map_or(0, |u| u.0) == parent);
    }
}

/// The tree of the best labels from one source.
fn tree_from<A: PathAlgebra>(
    rt: &(impl Abort + AllocGlobal),
    algebra: A,
    graph: &Graph,
    source: u32,
) -> Tree {
    let source = Vertex(source);
    assert!(rt; graph.has(source));
    let labels = solve_one(rt.alloc(), algebra, graph, source).expect(rt, "memory");
    tree(rt.alloc(), algebra, graph, &[source], &labels).expect(rt, "memory")
}

/// Asserts that the route to a vertex goes through these.
fn assert_route(rt: &(impl Abort + AllocGlobal), found: &Tree, target: u32, wanted: &[u32]) {
    assert!(rt; 1 <= target);
    assert!(rt; target as usize <= found.vertices());
    match route(rt.alloc(), found, Vertex(target)).expect(rt, "memory") {
        Some(list) => assert!(rt; are_vertices(&list, wanted)),
        None => assert!(rt; wanted.is_empty()),
    }
}

#[test]
fn five_vertices_shortest(rt: HostRuntime) {
    let found = tree_from(&rt, Shortest, &graph_of(&rt, 5, &FIVE), 1);
    assert_tree(
        &rt,
        &found,
        &[
            (Some(0), 0),
            (Some(2), 3),
            (Some(1), 1),
            (Some(3), 2),
            (None, 0),
        ],
    );
    assert_route(&rt, &found, 4, &[1, 3, 2, 4]);
    assert_route(&rt, &found, 1, &[1]);
    assert_route(&rt, &found, 5, &[]);
    labels_and_trees_agree(Shortest);
    hops_tell_reached(Shortest);
    routes_follow_parents(Shortest);
    trees_exist(Shortest);
}
