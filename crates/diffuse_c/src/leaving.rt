//! The arcs that leave a vertex, written to a list of the caller.
ghost use Rattle.std.specs.Prelude.{◌≡◌, ◌↔◌, ◌≤◌, ◌∷◌, [], drop, length, map, pos, take, None};
ghost use Rattle.road_graph.specs.GraphData.{HasVertex};
ghost use Rattle.answer_lists.specs.Answers.{IsFound, IsOneOf};
ghost use Rattle.diffuse_c.specs.Holding.{OfGraph};
ghost use Rattle.diffuse_c.specs.Keeping.{KeepsHeld};
ghost use Rattle.diffuse_c.specs.Leaving.{AreArcsFrom, IsCountFrom, arc_out_of};
ghost use Rattle.diffuse_c.specs.Rooms.{FillsRoom};

use crate::arcs::DiffuseArc;
use crate::handle::{DiffuseGraph, put, take};
use crate::status::CLOSED;
use answer_lists::{DONE, NO_ROOM, NO_VERTEX};
use road_graph::{OutGraph, OutRoad, Vertex};
use std::alloc::Global;

/// Writes the roads out of a vertex as arcs.
fn write_arcs(v: u32, roads: &[OutRoad], arcs: &mut [DiffuseArc])
    requires { length roads.now ≤ length arcs.old }
    ensures list { take (length roads.now) arcs.new ≡ map (arc_out_of v) roads.now }
    ensures rest { drop (length roads.now) arcs.new ≡ drop (length roads.now) arcs.old }
{
    for i in 0..roads.len() {
        let road = roads[i];
        arcs[i] = DiffuseArc {
            tail: v,
            head: road.head.0,
            weight: road.weight,
        };
    }
}

/// Counts the arcs that leave a vertex, and writes them, if there is room.
fn answer(graph: &OutGraph, v: Vertex, arcs: &mut [DiffuseArc], count: &mut usize) -> i32
    requires { HasVertex graph.now v }
    ensures count { IsCountFrom graph.now v count.new }
    ensures arcs { result ≡ pos 0 → AreArcsFrom graph.now v (take count.new arcs.new) }
    ensures room { FillsRoom count.new arcs.old arcs.new result }
    ensures found { IsFound result }
{
    let roads = graph.roads_from(v);
    *count = roads.len();
    if arcs.len() < roads.len() {
        return NO_ROOM;
    }
    write_arcs(v.0, roads, arcs);
    DONE
}

/// The arcs that leave a vertex, in the order of the graph, and their number.
///
/// If the room is too short, the number is still written.
#[unsafe(no_mangle)]
pub extern "C" fn diffuse_graph_arcs_from(
    alloc: Global,
    handle: &mut DiffuseGraph,
    vertex: u32,
    arcs: &mut [DiffuseArc],
    count: &mut usize,
) -> i32
    ensures kept { KeepsHeld handle.old.held handle.new.held }
    ensures count { OfGraph handle.old.held.shared (λ g. IsFound result →
        IsCountFrom g vertex count.new) }
    ensures arcs { OfGraph handle.old.held.shared (λ g. result ≡ pos 0 →
        AreArcsFrom g vertex (take count.new arcs.new)) }
    ensures room { FillsRoom count.new arcs.old arcs.new result }
    ensures place { (IsFound result → ⊥) → count.new ≡ count.old }
    ensures vertex { OfGraph handle.old.held.shared
        (λ g. (result ≡ pos 17) ↔ (HasVertex g vertex → ⊥)) }
    ensures closed { (result ≡ pos 4) ↔ (handle.old.held.shared ≡ None) }
    ensures status { IsOneOf (0 ∷ 2 ∷ 4 ∷ 17 ∷ []) result }
{
    let Some(owner) = take(alloc, handle) else {
        return CLOSED;
    };
    let graph = owner.shared.graph();
    let status = if graph.has(Vertex(vertex)) {
        answer(graph, Vertex(vertex), arcs, count)
    } else {
        NO_VERTEX
    };
    put(handle, owner);
    status
}
