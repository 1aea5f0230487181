//! Orders by approximate minimum degree and by nested dissection: what they make of graphs that are
//! counted by hand. `system_tests/factors` has larger ones, and those that are too dense.
use elimination_order::{Care, approximate_minimum_degree, nested_dissection};
use path_trials::made;
use std::alloc::{AllocError, Global};
use std::process::Abort;

/// Asserts how many links and triangles the order of a graph makes.
fn assert_counts(
    rt: &(impl Abort + AllocGlobal),
    (n, arcs): (u32, &[(u32, u32, u32)]),
    links: u64,
    triangles: u64,
) {
    let graph = made(rt.alloc(), n, arcs).expect(rt, "refused");
    let found = approximate_minimum_degree(rt.alloc(), graph.outgoing()).expect(rt, "memory");
    assert!(rt; found.order.is_some());
    assert!(rt; found.counts.links == links && found.counts.triangles == triangles);
}

/// Arcs from vertex 1 to each other one, and from each of these to the next in a cycle.
const WHEEL: [(u32, u32, u32); 10] = [
    (1, 2, 1),
    (1, 3, 1),
    (1, 4, 1),
    (1, 5, 1),
    (1, 6, 1),
    (2, 3, 1),
    (3, 4, 1),
    (4, 5, 1),
    (5, 6, 1),
    (6, 2, 1),
];

/// A star has a link for each arc, parallel arcs and those both ways have one, and a loop has none.
/// The rim of a wheel is eliminated with two neighbours and the hub: three links and three triangles
/// for each vertex, and at the end two links and a triangle, then one link.
#[test]
fn links_and_triangles_by_hand(rt: HostRuntime) {
    let twice = [(1, 1, 5), (1, 2, 3), (2, 1, 3), (1, 2, 4)];
    assert_counts(&rt, (1, &[]), 0, 0);
    assert_counts(&rt, (2, &twice), 1, 0);
    assert_counts(&rt, (6, &WHEEL[..5]), 5, 0);
    assert_counts(&rt, (6, &WHEEL), 12, 10);
}

/// Two complete graphs of 60 vertices, with vertex 121 joined to three of each.
fn two_cliques(alloc: Global) -> Result<Vec<(u32, u32, u32)>, AllocError> {
    let mut arcs = Vec::new(alloc);
    for clique in 0..2u32 {
        for v in 1..=60u32 {
            for w in 1..v {
                arcs.push((60 * clique + v, 60 * clique + w, 1))?;
            }
            if v <= 3 {
                arcs.push((60 * clique + v, 121, 1))?;
            }
        }
    }
    Ok(arcs)
}

/// A vertex that cuts a graph goes last: 57 vertices of each complete graph have 59 to 3 links, and
/// then the three beside the cut 3 to 1. By its degree it would go first, and the three would have
/// three more links each to those on the other side.
#[test]
fn a_cut_goes_last(rt: HostRuntime) {
    let arcs = two_cliques(rt.alloc()).expect(&rt, "memory");
    assert_counts(&rt, (121, &arcs), 3555, 68473);
    let graph = made(rt.alloc(), 121, &arcs).expect(&rt, "refused");
    for care in [Care::Fast, Care::Careful] {
        let found = nested_dissection(rt.alloc(), graph.outgoing(), care, &None).expect(
            &rt, "memory",
        );
        assert!(rt; found.order.is_some());
        assert!(rt; found.counts.links == 3546 && found.counts.triangles == 68446);
    }
}
