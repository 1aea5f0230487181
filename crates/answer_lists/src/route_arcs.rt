//! A route and the numbers of its arcs, written to memory that the caller lends.
ghost use Rattle.std.specs.Prelude.{◌≡◌, ◌≤◌, ◌+◌, ◌∷◌, [], ℕ, length, take, drop, pos, IsSome};
ghost use Rattle.path_algebra.specs.Choices.{OfAlgebra, Under};
ghost use Rattle.path_algebra.specs.Walks.{IsBestCode};
ghost use Rattle.route_tree.specs.Found.{IsRouteBetween};
ghost use Rattle.arc_numbers.specs.RouteArcs.{AreRouteArcs};
ghost use Rattle.answer_lists.specs.Answers.{HasBoth, IsAnswered, IsOneOf, ReportsRefusals, ReportsRoute};
ghost use Rattle.answer_lists.specs.Route.{HasRouteArcs, IsWrittenArcs};

use crate::algebra_number::AlgebraNumber;
use crate::route::{copy, find};
use crate::shared_graph::SharedGraph;
use crate::status::{DONE, NO_ALGEBRA, NO_ROOM, NO_VERTEX};
use arc_numbers::ArcNumbers;
use factor_routes::Pair;
use halting::Stop;
use path_algebra::{AlgebraChoice, with_algebra};
use road_graph::OutGraph;

/// Writes the numbers of the arcs of a route that was found by the chosen algebra.
fn write_arcs(
    chosen: AlgebraChoice,
    numbers: &ArcNumbers,
    graph: &OutGraph,
    route: &[u32],
    arcs: &mut [u32],
)
    requires graph { graph.now ≡ numbers.now.roads }
    requires route { (s t : ℕ) × Under chosen (λ V A. IsRouteBetween A graph.now s t route.now) }
    requires room { length route.now ≡ length arcs.old + 1 }
    ensures { Under chosen (λ V A. (s t code : ℕ) → IsRouteBetween A graph.now s t route.now →
        IsBestCode A graph.now (s ∷ []) t code →
        AreRouteArcs A numbers.now.numbered route.now arcs.new code) }
{
    with_algebra!(
        chosen,
        |algebra| numbers.arcs_of(algebra, graph, route, arcs)
    )
}

/// Writes the numbers of the arcs of a route that stands at the start of a room.
fn write_first_arcs(
    chosen: AlgebraChoice,
    numbers: &ArcNumbers,
    graph: &OutGraph,
    hops: u32,
    room: &[u32],
    arcs: &mut [u32],
)
    requires graph { graph.now ≡ numbers.now.roads }
    requires route { (s t : ℕ) × Under chosen (λ V A. IsRouteBetween A graph.now s t
        (take (hops + 1) room.now)) }
    requires long { hops + 1 ≤ length room.now }
    requires places { hops ≤ length arcs.old }
    ensures arcs { Under chosen (λ V A. (s t code : ℕ) → IsRouteBetween A graph.now s t
        (take (hops + 1) room.now) → IsBestCode A graph.now (s ∷ []) t code → AreRouteArcs A
        numbers.now.numbered (take (hops + 1) room.now) (take hops arcs.new) code) }
    ensures rest { drop hops arcs.new ≡ drop hops arcs.old }
{
    let count = hops as usize;
    write_arcs(
        chosen,
        numbers,
        graph,
        &room[..count + 1],
        &mut arcs[..count],
    );
}

/// Where a route and the numbers of its arcs are written, as a caller lends it, and by which they
/// are numbered.
#[derive(Drop)]
pub struct RouteArcsRoom<'a> {
    pub code: &'a mut u64,
    pub hops: &'a mut u32,
    pub vertices: &'a mut [u32],
    pub numbers: &'a ArcNumbers,
    pub arcs: &'a mut [u32],
}

/// Finds a route by the chosen algebra, and writes it and the numbers of its arcs.
fn answer_arcs(
    chosen: AlgebraChoice,
    shared: &mut SharedGraph,
    stop: &Option<Stop>,
    pair: Pair,
    room: &mut RouteArcsRoom<'_>,
) -> i32
    requires both { HasBoth shared.old.roads pair.source pair.target }
    requires numbers { room.old.numbers.now.roads ≡ shared.old.roads }
    ensures graph { shared.new ≡ shared.old }
    ensures tells { Under chosen (λ V A. ReportsRoute A shared.old.roads pair.source pair.target
        result room.new.code.now room.new.hops.now room.new.vertices.now) }
    ensures arcs { result ≡ pos 0 → Under chosen (λ V A. HasRouteArcs A room.old.numbers.now.numbered
        room.new) }
    ensures written { IsWrittenArcs room.old room.new result }
    ensures stopped { result ≡ pos 45 → IsSome stop.now }
    ensures status { IsOneOf (0 ∷ 1 ∷ 2 ∷ 3 ∷ 45 ∷ []) result }
{
    let found = match find(chosen, shared, stop, pair) {
        Ok(found) => found,
        Err(status) => return status,
    };
    let hops = found.hops;
    *room.code = found.code;
    *room.hops = hops;
    // A route is written only if there is room for its arcs too.
    if room.arcs.len() < hops as usize || room.vertices.len() < found.route.len() {
        return NO_ROOM;
    }
    copy(&found.route, room.vertices);
    let numbers = room.numbers;
    let vertices = &mut *room.vertices;
    let arcs = &mut *room.arcs;
    write_first_arcs(chosen, numbers, shared.graph(), hops, vertices, arcs);
    DONE
}

/// Finds a route by the algebra of a number, and writes it and the numbers of its arcs, counted
/// from 0, if there is such an algebra and both are vertices.
///
/// If there is no room for the route or for its arcs, neither is written. A search ends without an
/// answer soon after the stop is set, if there is one.
#[tactic(auto, using(path_algebra::proofs::Chosen::of_numbered))]
pub fn answer_route_arcs(
    by: AlgebraNumber,
    shared: &mut SharedGraph,
    stop: &Option<Stop>,
    pair: Pair,
    room: &mut RouteArcsRoom<'_>,
) -> i32
    requires { room.old.numbers.now.roads ≡ shared.old.roads }
    ensures graph { shared.new ≡ shared.old }
    ensures tells { IsAnswered result → OfAlgebra by.algebra by.limit (λ V A. ReportsRoute A
        shared.old.roads pair.source pair.target result room.new.code.now room.new.hops.now
        room.new.vertices.now) }
    ensures arcs { result ≡ pos 0 → OfAlgebra by.algebra by.limit (λ V A. HasRouteArcs A
        room.old.numbers.now.numbered room.new) }
    ensures written { IsWrittenArcs room.old room.new result }
    ensures refusals { ReportsRefusals (HasBoth shared.old.roads pair.source pair.target) by.algebra
        by.limit result }
    ensures stopped { result ≡ pos 45 → IsSome stop.now }
    ensures status { IsOneOf (0 ∷ 1 ∷ 2 ∷ 3 ∷ 17 ∷ 43 ∷ 45 ∷ []) result }
{
    let graph = shared.graph();
    if !graph.has(pair.source) || !graph.has(pair.target) {
        return NO_VERTEX;
    }
    let Some(chosen) = AlgebraChoice::numbered(by.algebra, by.limit) else {
        return NO_ALGEBRA;
    };
    answer_arcs(chosen, shared, stop, pair, room)
}
