//! The graphs that the tests ask about, and their plans.
ghost use Rattle.std.specs.Prelude.{◌≡◌};

use road_graph::{Graph, RoadArc, Vertex};
use shard_part::{CountedPlan, Plan, QueueOrder};
use std::alloc::Global;
use std::process::Abort;

/// Five vertices, with a self-loop at 4; no arc leads to 5.
pub const FIVE: [(u32, u32, u32); 7] = [
    (1, 2, 4),
    (1, 3, 1),
    (3, 2, 2),
    (2, 4, 5),
    (3, 4, 8),
    (4, 4, 0),
    (5, 1, 3),
];

/// The least sums from vertex 1 of the five.
pub const SHORTEST: [Option<u64>; 5] = [Some(0), Some(3), Some(1), Some(8), None];

/// An arc of weight 7 from vertex 1 to vertex 2.
pub const TWO: [(u32, u32, u32); 1] = [(1, 2, 7)];

/// Both orders in which parts take their items.
pub const ORDERS: [QueueOrder; 2] = [QueueOrder::Arrival, QueueOrder::BestFirst];

/// A graph, and a plan of it.
#[derive(Drop)]
pub struct Ground {
    pub graph: Graph,
    pub counted: CountedPlan,
    ghost own: { counted.roads ≡ graph },
}

/// The graph of these tails, heads and weights, or none if memory was refused.
fn asked(alloc: Global, n: u32, arcs: &[(u32, u32, u32)]) -> Option<Graph> {
    let mut list = Vec::with_capacity(alloc, arcs.len()).ok()?;
    for &(tail, head, weight) in arcs {
        let (tail, head) = (Vertex(tail), Vertex(head));
        list.push(RoadArc { tail, head, weight }).ok()?;
    }
    if n > 1_000_000 || list.len() > 1_000_000 {
        return None;
    }
    Graph::new(alloc, n, list).ok()
}

/// The graph of these tails, heads and weights. If memory is refused, it is made once more.
pub fn graph_of(rt: &(impl Abort + AllocGlobal), n: u32, arcs: &[(u32, u32, u32)]) -> Graph {
    match asked(rt.alloc(), n, arcs) {
        Some(graph) => graph,
        None => asked(rt.alloc(), n, arcs).expect(rt, "a graph"),
    }
}

/// Vertices 1 to n in blocks. If memory is refused, the plan is made once more.
pub fn blocks_of(rt: &(impl Abort + AllocGlobal), n: u32, shards: u8) -> Plan {
    assert!(rt; n <= 1_000_000 && 1 <= shards && shards <= 64);
    match Plan::blocks(rt.alloc(), n, shards) {
        Ok(plan) => plan,
        Err(_) => Plan::blocks(rt.alloc(), n, shards).expect(rt, "memory"),
    }
}

/// A graph and its plan, or none if memory was refused or the plan is another graph's.
pub fn planned(alloc: Global, graph: Graph, plan: Plan) -> Option<Ground> {
    if plan.vertices() != graph.vertices() {
        return None;
    }
    let counted = CountedPlan::of(alloc, &graph, plan).ok()?;
    Some(Ground { graph, counted })
}

/// The graph of these tails, heads and weights, in blocks.
pub fn ground_of(
    rt: &(impl Abort + AllocGlobal),
    n: u32,
    arcs: &[(u32, u32, u32)],
    shards: u8,
) -> Ground {
    let (alloc, graph, plan) = (rt.alloc(), graph_of(rt, n, arcs), blocks_of(rt, n, shards));
    match planned(alloc, graph, plan) {
        Some(ground) => ground,
        None => {
            let (graph, plan) = (graph_of(rt, n, arcs), blocks_of(rt, n, shards));
            planned(alloc, graph, plan).expect(rt, "memory")
        }
    }
}
