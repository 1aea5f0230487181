//! The calls that number the arcs of a graph, and tell those of a route.
ghost use Rattle.std.specs.Prelude.{◌≡◌, ◌≢◌, ◌↔◌, ◌+◌, ◌∷◌, [], take, pos, IfErr, IfOk, IsSome, None, Some};
ghost use Rattle.path_algebra.specs.Choices.{OfAlgebra};
ghost use Rattle.arc_numbers.specs.Numbering.{IsReordered};
ghost use Rattle.arc_numbers.specs.RouteArcs.{AreRouteArcs};
ghost use Rattle.answer_lists.specs.Answers.{HasBoth, IsAnswered, IsOneOf, ReportsRoute};
ghost use Rattle.diffuse_c.specs.Holding.{OfGraph, OfNumbered};
ghost use Rattle.diffuse_c.specs.Keeping.{KeepsHeld};
ghost use Rattle.diffuse_c.specs.Lent.{lent};
ghost use Rattle.diffuse_c.specs.Refusals.{ReportsNumberedRefusals};
ghost use Rattle.diffuse_c.specs.Rooms.{FillsRouteArcs, route_places};

use crate::arcs::{DiffuseArc, roads_of};
use crate::handle::{DiffuseGraph, put, take};
use crate::status::{CLOSED, NO_NUMBERS, OTHER_ARCS};
use answer_lists::{AlgebraNumber, DONE, MEMORY, RouteArcsRoom, STOPPED, answer_route_arcs};
use arc_numbers::ArcNumbers;
use factor_routes::Pair;
use halting::{Stop, Unfinished};
use road_graph::{OutGraph, Vertex};
use std::alloc::Global;

/// The numbers of lent arcs, or the status that says why there are none.
fn numbers_of(
    alloc: Global,
    graph: &OutGraph,
    stop: &Option<Stop>,
    arcs: &[DiffuseArc],
) -> Result<ArcNumbers, i32>
    ensures numbers { IfOk result (λ n. n ≡ record {
      roads = graph.now;
      numbered = lent graph.now.vertices arcs.now;
    }) }
    ensures same { IfOk result (λ n. IsReordered graph.now (lent graph.now.vertices arcs.now)) }
    ensures other { IfErr result (λ n. n ≡ pos 46 →
        IsReordered graph.now (lent graph.now.vertices arcs.now) → ⊥) }
    ensures stopped { IfErr result (λ n. n ≡ pos 45 → IsSome stop.now) }
    ensures status { IfErr result (IsOneOf (3 ∷ 45 ∷ 46 ∷ [])) }
{
    let Ok(list) = roads_of(alloc, arcs) else {
        return Err(MEMORY);
    };
    match ArcNumbers::of(alloc, graph, list, stop) {
        Ok(Some(numbers)) => Ok(numbers),
        Ok(None) => Err(OTHER_ARCS),
        Err(Unfinished::Memory) => Err(MEMORY),
        Err(Unfinished::Halted) => Err(STOPPED),
    }
}

/// Numbers the arcs of a graph by their places in a list, which may be changed or freed afterwards:
/// the arcs of the graph, those of one tail in the order of the graph.
///
/// If they are other arcs, nothing changes.
#[unsafe(no_mangle)]
pub extern "C" fn diffuse_graph_number(
    alloc: Global,
    handle: &mut DiffuseGraph,
    arcs: &[DiffuseArc],
) -> i32
    ensures kept { handle.new.held.shared ≡ handle.old.held.shared }
    ensures stop { handle.new.held.stop ≡ handle.old.held.stop }
    ensures numbers { OfGraph handle.old.held.shared (λ g. result ≡ pos 0 →
        handle.new.held.numbers ≡
        Some (record { roads = g; numbered = lent g.vertices arcs.now })) }
    ensures same { OfGraph handle.old.held.shared (λ g. result ≡ pos 0 →
        IsReordered g (lent g.vertices arcs.now)) }
    ensures other { OfGraph handle.old.held.shared (λ g. result ≡ pos 46 →
        IsReordered g (lent g.vertices arcs.now) → ⊥) }
    ensures unchanged { result ≢ pos 0 → handle.new.held.numbers ≡ handle.old.held.numbers }
    ensures closed { (result ≡ pos 4) ↔ (handle.old.held.shared ≡ None) }
    ensures stopped { result ≡ pos 45 → IsSome handle.old.held.stop }
    ensures status { IsOneOf (0 ∷ 3 ∷ 4 ∷ 45 ∷ 46 ∷ []) result }
{
    let Some(mut owner) = take(alloc, handle) else {
        return CLOSED;
    };
    let status = match numbers_of(alloc, owner.shared.graph(), &owner.stop, arcs) {
        Ok(numbers) => {
            owner.numbers = Some(numbers);
            DONE
        }
        Err(status) => status,
    };
    put(handle, owner);
    status
}

/// A route, as `diffuse_graph_route` gives it, and its arcs, counted from 0 in the list by which
/// the arcs of the graph were numbered. At each step it takes the arc that extends its value best,
/// and of those that do the one with the least number.
///
/// If the room for the route or for its arcs is too short, code and hops are still written:
/// hops + 1 places and hops places are needed.
#[unsafe(no_mangle)]
pub extern "C" fn diffuse_graph_route_arcs(
    alloc: Global,
    handle: &mut DiffuseGraph,
    algebra: u32,
    limit: u64,
    source: u32,
    target: u32,
    code: &mut u64,
    hops: &mut u32,
    room: &mut [u32],
    arcs: &mut [u32],
) -> i32
    ensures kept { KeepsHeld handle.old.held handle.new.held }
    ensures tells { OfGraph handle.old.held.shared (λ g. IsAnswered result → OfAlgebra algebra limit
        (λ V A. ReportsRoute A g source target result code.new hops.new room.new)) }
    ensures arcs { OfNumbered handle.old.held.numbers (λ g. result ≡ pos 0 →
        OfAlgebra algebra limit (λ V A. AreRouteArcs A g (take (hops.new + 1) room.new)
        (take hops.new arcs.new) code.new)) }
    ensures places { FillsRouteArcs
        (route_places code.old hops.old room.old arcs.old)
        (route_places code.new hops.new room.new arcs.new) result }
    ensures refusals { OfGraph handle.old.held.shared (λ g. ReportsNumberedRefusals
        handle.old.held.numbers (HasBoth g source target) algebra limit result) }
    ensures closed { (result ≡ pos 4) ↔ (handle.old.held.shared ≡ None) }
    ensures stopped { result ≡ pos 45 → IsSome handle.old.held.stop }
    ensures status { IsOneOf (0 ∷ 1 ∷ 2 ∷ 3 ∷ 4 ∷ 17 ∷ 43 ∷ 45 ∷ 47 ∷ []) result }
{
    let Some(mut owner) = take(alloc, handle) else {
        return CLOSED;
    };
    let parts = &mut *owner;
    let Some(numbers) = &parts.numbers else {
        put(handle, owner);
        return NO_NUMBERS;
    };
    let stop = &parts.stop;
    let by = AlgebraNumber { algebra, limit };
    let pair = Pair {
        source: Vertex(source),
        target: Vertex(target),
    };
    let mut lent = RouteArcsRoom {
        code,
        hops,
        vertices: room,
        numbers,
        arcs,
    };
    let status = answer_route_arcs(by, &mut parts.shared, stop, pair, &mut lent);
    put(handle, owner);
    status
}
