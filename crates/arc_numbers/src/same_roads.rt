//! Whether arcs in another order are the same graph.

ghost use Rattle.std.specs.Prelude.{◌≡◌, ◌↔◌, ◌≤◌, ◌^◌, ℕ, IfErr, IfOk, IsSome, IsTrue, MatchOption};
ghost use Rattle.halting.specs.declared.unfinished.Unfinished.TheVariants.{Halted};
ghost use Rattle.road_graph.specs.GraphData.{HasVertex, IsGraph};
ghost use Rattle.arc_numbers.specs.Numbering.{IsReordered};

use halting::{Stop, Unfinished, look_at};
use road_graph::{Graph, GraphFault, Memory, OutGraph, OutRoad, RoadArc, Vertex};
use std::alloc::Global;

/// The greatest number of arcs of a graph.
const MOST_ARCS: usize = 1 << 27;

/// The graph of these arcs on n vertices, none if there is none.
fn graph_of(alloc: Global, n: u32, arcs: Vec<RoadArc>) -> Result<Option<Graph>, Memory>
    requires { n ≤ 2 ^ 25 }
    ensures { IfOk result (λ found. MatchOption found
        (IsGraph (record { vertices = n; arcs = arcs.items }) → ⊥)
        (λ g. g ≡ record { vertices = n; arcs = arcs.items })) }
{
    if arcs.len() > MOST_ARCS {
        return Ok(None);
    }
    match Graph::new(alloc, n, arcs) {
        Ok(graph) => Ok(Some(graph)),
        Err((GraphFault::BadEnd(_), _)) => Ok(None),
        Err((GraphFault::Memory, _)) => Err(Memory),
    }
}

/// Whether two lists of roads are the same.
fn are_same(first: &[OutRoad], second: &[OutRoad]) -> bool
    ensures { IsTrue result ↔ (first.now ≡ second.now) }
{
    first == second
}

/// Whether a graph on the same vertices is this one with its arcs in another order.
fn is_reordered(graph: &OutGraph, other: &Graph, stop: &Option<Stop>) -> Result<bool, Unfinished>
    requires { other.now.vertices ≡ graph.now.vertices }
    ensures same { IfOk result (λ same. IsTrue same ↔ IsReordered graph.now other.now) }
    ensures halts { IfErr result (λ e. e ≡ Halted → IsSome stop.now) }
{
    other.holds();
    for i in 0..graph.vertices() {
        look_at(stop)?;
        let v = Vertex(i + 1);
        if !are_same(graph.roads_from(v), other.roads_from(v)) {
            return Ok(false);
        }
    }
    Ok(true)
}

/// The graph of these arcs, if it is this one with its arcs in another order.
pub(crate) fn reordered(
    alloc: Global,
    graph: &OutGraph,
    arcs: Vec<RoadArc>,
    stop: &Option<Stop>,
) -> Result<Option<Graph>, Unfinished>
    ensures halts { IfErr result (λ e. e ≡ Halted → IsSome stop.now) }
    ensures found { IfOk result (λ found. MatchOption found
        (IsReordered graph.now (record { vertices = graph.now.vertices; arcs = arcs.items }) → ⊥)
        (λ h. (h ≡ record { vertices = graph.now.vertices; arcs = arcs.items }) × IsReordered graph.now h)) }
{
    graph.holds();
    let Some(other) = graph_of(alloc, graph.vertices(), arcs)? else {
        return Ok(None);
    };
    if is_reordered(graph, &other, stop)? {
        Ok(Some(other))
    } else {
        Ok(None)
    }
}
