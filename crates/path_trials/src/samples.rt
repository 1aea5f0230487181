//! Two small graphs, and whether an answer is the one that was worked out by hand.
use road_graph::{Graph, RoadArc, Vertex};
use route_tree::Found;
use std::alloc::Global;

/// Five vertices, with a self-loop at 4; no arc leads to 5.
pub const FIVE: [(u32, u32, u32); 7] = [
    (1, 2, 4),
    (1, 3, 1),
    (3, 2, 2),
    (2, 4, 5),
    (3, 4, 8),
    (4, 4, 0),
    (5, 1, 3),
];

/// Five vertices, with two arcs from 1 to 3, a loop at 4, and nothing that enters 5. No arc has its
/// number's place in the rows.
pub const PARALLEL: [(u32, u32, u32); 6] = [
    (3, 2, 2),
    (1, 2, 4),
    (4, 4, 0),
    (1, 3, 1),
    (5, 1, 3),
    (1, 3, 9),
];

pub(crate) fn arc(tail: u32, head: u32, weight: u32) -> RoadArc {
    RoadArc {
        tail: Vertex(tail),
        head: Vertex(head),
        weight,
    }
}

/// The graph of these tails, heads and weights; none if it is refused.
pub fn made(alloc: Global, n: u32, arcs: &[(u32, u32, u32)]) -> Option<Graph> {
    let mut list = Vec::new(alloc);
    for &(tail, head, weight) in arcs {
        list.push(arc(tail, head, weight)).ok()?;
    }
    if n > 1_000_000 || list.len() > 1_000_000 {
        return None;
    }
    Graph::new(alloc, n, list).ok()
}

/// Whether a list has these vertices.
pub(crate) fn are_vertices(found: &[Vertex], wanted: &[u32]) -> bool {
    let mut same = found.len() == wanted.len();
    for (v, &number) in found.iter().zip(wanted) {
        same = same && v.0 == number;
    }
    same
}

/// Whether a pair has this code and this route, or none if the route has no vertices.
pub fn is_found(found: &Option<Found>, code: u64, route: &[u32]) -> bool {
    match found {
        Some(found) => {
            found.code == code
                && u64::from(found.hops) + 1 == route.len() as u64
                && are_vertices(&found.route, route)
        }
        None => route.is_empty(),
    }
}
