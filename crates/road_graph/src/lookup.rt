//! Where an arc is in the rows of a graph, by the numbers in them.

ghost use Rattle.std.specs.Prelude.{◌≡◌, ℕ, ◌-◌, ◌<◌, ◌≤◌, length, slice_index, Contains};
ghost use Rattle.road_graph.specs.GraphData.{HasArc, HasVertex, IsAscendingFrom, IsRank, ListsArcsFrom, arc_of, road_of};
ghost use Rattle.road_graph.specs.Making.{AreNumbers, StandsAt};
ghost use Rattle.road_graph.specs.declared.Side.TheVariants.{Tail};

use crate::out_graph::OutGraph;
use crate::rows::{range_of, row_of};
use crate::{ArcNo, OutRoad, Vertex};

/// Where an arc is in a row.
fn place_of(row: &[ArcNo], a: ArcNo) -> usize
    requires ascending { IsAscendingFrom 0 row.now }
    requires listed { Contains row.now a }
    ensures place { result < length row.now }
    ensures number { slice_index row.now result ≡ a }
{
    // The row has the arc, so the search finds it and never returns an insertion point.
    match row.binary_search(&a) {
        Ok(at) | Err(at) => at,
    }
}

/// Where an arc is in the rows, by a search in the row of its tail. If arcs are numbered in the
/// order of the rows, the first guess finds it.
fn find_place(graph: &OutGraph, numbers: &[ArcNo], tail: Vertex, a: ArcNo) -> usize
    requires numbers { AreNumbers Tail graph.now numbers.now }
    requires arc { HasArc graph.now a }
    requires tail { tail ≡ (arc_of graph.now a).tail }
    ensures { StandsAt numbers.now a result }
{
    let guess = a.0 as usize - 1;
    if guess < numbers.len() && numbers[guess] == a {
        return guess;
    }
    graph.holds();
    let starts = graph.starts();
    let (start, _) = range_of(starts, tail);
    start + place_of(row_of(starts, numbers, tail), a)
}

/// The road of an arc.
pub(crate) fn road_in(graph: &OutGraph, numbers: &[ArcNo], tail: Vertex, a: ArcNo) -> OutRoad
    requires numbers { AreNumbers Tail graph.now numbers.now }
    requires arc { HasArc graph.now a }
    requires tail { tail ≡ (arc_of graph.now a).tail }
    ensures { result ≡ road_of (arc_of graph.now a) }
{
    graph.roads()[find_place(graph, numbers, tail, a)]
}

/// The index of an arc among those that leave its tail.
pub(crate) fn rank_in(graph: &OutGraph, numbers: &[ArcNo], tail: Vertex, a: ArcNo) -> usize
    requires numbers { AreNumbers Tail graph.now numbers.now }
    requires arc { HasArc graph.now a }
    requires tail { tail ≡ (arc_of graph.now a).tail }
    ensures { IsRank graph.now a result }
{
    graph.holds();
    let (start, _) = range_of(graph.starts(), tail);
    find_place(graph, numbers, tail, a) - start
}

/// The numbers of the arcs that leave a vertex.
pub(crate) fn out_in<'a>(graph: &OutGraph, numbers: &'a [ArcNo], v: Vertex) -> &'a [ArcNo]
    requires numbers { AreNumbers Tail graph.now numbers.now }
    requires vertex { HasVertex graph.now v }
    ensures { ListsArcsFrom graph.now v result.now }
{
    row_of(graph.starts(), numbers, v)
}
