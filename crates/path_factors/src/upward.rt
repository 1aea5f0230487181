//! The arcs of a graph between places, each at the lesser of its ends.
ghost use Rattle.std.specs.Prelude.{◌≡◌, ℕ, ◌-◌, ◌<◌, List, IfErr, IfOk, IsSome, OnOk, length, slice_index};
ghost use Rattle.road_graph.specs.GraphData.{HasArc, HasVertex, arc_of};
ghost use Rattle.path_factors.specs.Chains.{AreBelow, HasValue, IsMore};
ghost use Rattle.path_factors.specs.Factors.{ArePlaces};
ghost use Rattle.path_factors.specs.Heads.{AreArcsJoined, IsJoined};
ghost use Rattle.halting.specs.declared.unfinished.Unfinished.TheVariants.{Halted};

use crate::chains::Chains;
use halting::{Stop, Unfinished, look_at};
use road_graph::{Memory, OutGraph, Vertex};
use std::alloc::Global;

/// Puts the greater of two places into the list of the lesser.
fn join(arcs: &mut Chains, x: u32, y: u32) -> Result<(), Memory>
    requires first { x < length arcs.old.firsts }
    requires second { y < length arcs.old.firsts }
    ensures joined { OnOk result (IsJoined (HasValue arcs.new) x y) }
    ensures more { OnOk result (IsMore (length arcs.old.firsts) arcs.old arcs.new) }
{
    if x < y {
        arcs.push(x as usize, y)
    } else if y < x {
        arcs.push(y as usize, x)
    } else {
        Ok(())
    }
}

/// Joins the ends of each arc that leaves a vertex.
fn join_roads(
    arcs: &mut Chains,
    graph: &OutGraph,
    places: &[u32],
    tail: Vertex,
) -> Result<(), Memory>
    requires places { (order : List ℕ) × ArePlaces graph.now.vertices order places.now }
    requires lists { length arcs.old.firsts ≡ graph.now.vertices }
    requires tail { HasVertex graph.now tail }
    ensures joined { OnOk result ((a : ℕ) → HasArc graph.now a → (arc_of graph.now a).tail ≡ tail →
        IsJoined (HasValue arcs.new) (slice_index places.now ((arc_of graph.now a).tail - 1))
        (slice_index places.now ((arc_of graph.now a).head - 1))) }
    ensures more { OnOk result (IsMore graph.now.vertices arcs.old arcs.new) }
{
    graph.holds();
    let from = places[tail.0 as usize - 1];
    for road in graph.roads_from(tail) {
        join(arcs, from, places[road.head.0 as usize - 1])?;
    }
    Ok(())
}

/// For each place the greater ones to or from which it has an arc.
pub(crate) fn upward_arcs(
    alloc: Global,
    graph: &OutGraph,
    places: &[u32],
    stop: &Option<Stop>,
) -> Result<Chains, Unfinished>
    requires { (order : List ℕ) × ArePlaces graph.now.vertices order places.now }
    ensures lists { IfOk result (λ arcs. length arcs.firsts ≡ graph.now.vertices) }
    ensures joined { IfOk result (λ arcs. AreArcsJoined (HasValue arcs) graph.now places.now) }
    ensures below { IfOk result (λ arcs. AreBelow graph.now.vertices arcs) }
    ensures halts { IfErr result (λ e. e ≡ Halted → IsSome stop.now) }
{
    graph.holds();
    let n = graph.vertices();
    let mut arcs = Chains::new(alloc, n as usize, graph.arcs())?;
    for i in 0..n {
        look_at(stop)?;
        join_roads(&mut arcs, graph, places, Vertex(i + 1))?;
    }
    Ok(arcs)
}
