//! A graph in memory: best values from one vertex, their tree, and a route.
ghost use Rattle.std.specs.Prelude.{◌≡◌, IfOk};

use crate::fault::Fault;
use path_algebra::Shortest;
use path_plain::solve_one;
use road_graph::{Graph, RoadArc, Vertex};
use route_tree::{route, tree};
use std::alloc::Global;

/// A one-way road.
fn road(tail: u32, head: u32, weight: u32) -> RoadArc {
    RoadArc {
        tail: Vertex(tail),
        head: Vertex(head),
        weight,
    }
}

/// Five vertices, with a self-loop at 4; no arc leads to 5.
pub fn five_vertices(alloc: Global) -> Result<Graph, Fault>
    ensures { IfOk result (λ g. g.vertices ≡ 5) }
{
    let roads = [
        road(1, 2, 4),
        road(1, 3, 1),
        road(3, 2, 2),
        road(2, 4, 5),
        road(3, 4, 8),
        road(4, 4, 0),
        road(5, 1, 3),
    ];
    match Graph::new(alloc, 5, Vec::from_array(alloc, roads)?) {
        Ok(graph) => Ok(graph),
        Err(_) => Err(Fault::NoGraph),
    }
}

/// Prints the least sum of weights to a vertex and the arcs of its route, or that no walk leads to
/// it.
fn print_sum<R: Print>(rt: &R, v: u32, sum: Option<u64>, hops: Option<u32>) -> Result<(), Fault> {
    match (sum, hops) {
        (Some(sum), Some(hops)) => println!(rt; "to {v}: {sum}, arcs: {hops}")?,
        _ => println!(rt; "to {v}: no walk")?,
    }
    Ok(())
}

/// Prints the vertices of a route.
fn print_route<R: Print>(rt: &R, target: u32, route: &[Vertex]) -> Result<(), Fault> {
    print!(rt; "the route to {target}:")?;
    for vertex in route {
        print!(rt; " {}", vertex.0)?;
    }
    Ok(println!(rt; "")?)
}

/// Prints the least sum of weights from vertex 1 to each vertex, and a route to vertex 4.
pub fn show<R: Print + AllocGlobal>(rt: &R) -> Result<(), Fault> {
    let alloc = rt.alloc();
    let graph = five_vertices(alloc)?;
    let source = Vertex(1);
    let labels = solve_one(alloc, Shortest, &graph, source)?;
    let tree = tree(alloc, Shortest, &graph, &[source], &labels)?;
    for v in 1..=graph.vertices() {
        print_sum(rt, v, labels.of(Vertex(v)), tree.hops(Vertex(v)))?;
    }
    match route(alloc, &tree, Vertex(4))? {
        Some(vertices) => print_route(rt, 4, vertices.as_slice()),
        None => Ok(()),
    }
}
