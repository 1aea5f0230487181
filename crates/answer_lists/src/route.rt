//! A route, written to memory that the caller lends.
ghost use Rattle.std.specs.Prelude.{◌≡◌, ◌≤◌, ◌<◌, ◌+◌, ◌∷◌, [], length, take, drop, pos, IfErr, IfOk, IsSome};
ghost use Rattle.path_algebra.specs.Choices.{OfAlgebra, Under};
ghost use Rattle.path_algebra.specs.Walks.{IsUnreached};
ghost use Rattle.route_tree.specs.Found.{IsFoundBetween, IsFoundIfNear, found_of};
ghost use Rattle.route_tree.specs.declared.found.Nearby.TheVariants.{Undecided};
ghost use Rattle.answer_lists.specs.Answers.{HasBoth, IsAnswered, IsFound, IsOneOf, ReportsRefusals, ReportsRoute};
ghost use Rattle.answer_lists.specs.Route.{IsWrittenRoute};

use crate::algebra_number::AlgebraNumber;
use crate::kept::Until;
use crate::shared_graph::SharedGraph;
use crate::status::{DONE, MEMORY, NO_ALGEBRA, NO_ROOM, NO_ROUTE, NO_VERTEX, STOPPED};
use factor_routes::Pair;
use halting::Stop;
use path_algebra::{AlgebraChoice, PathAlgebra, with_algebra};
use road_graph::{InGraph, Memory, Vertex};
use route_tree::{Found, Nearby};

/// The best code and the route by factors, none if no walk to the target has a value; or undecided,
/// if there are no factors for the algebra.
fn ask<A: PathAlgebra>(
    algebra: A,
    shared: &mut SharedGraph,
    by_head: &InGraph,
    pair: Pair,
) -> Result<Nearby, Memory>
    requires by_head { by_head.now ≡ shared.old.roads }
    requires pair { HasBoth shared.old.roads pair.source pair.target }
    ensures graph { shared.new ≡ shared.old }
    ensures found { IfOk result (IsFoundIfNear (A.meaning algebra) shared.old.roads pair.source
        pair.target) }
{
    let Some(mut factored) = shared.take_factored(algebra) else {
        return Ok(Nearby::Undecided);
    };
    let found = factored.route(algebra, by_head, pair);
    shared.put_factored(factored);
    Ok(Nearby::Decided(found?))
}

/// The best code and the route on a factored graph, none if no walk to the target has a value: by a
/// search if it decides the pair soon, and else by factors. It is undecided if neither decides it.
fn find_soon(
    chosen: AlgebraChoice,
    shared: &mut SharedGraph,
    by_head: &InGraph,
    pair: Pair,
) -> Result<Nearby, Memory>
    requires by_head { by_head.now ≡ shared.old.roads }
    requires pair { HasBoth shared.old.roads pair.source pair.target }
    ensures graph { shared.new ≡ shared.old }
    ensures found { Under chosen (λ V A. IfOk result (IsFoundIfNear A shared.old.roads
        pair.source pair.target)) }
{
    let Pair { source, target } = pair;
    match shared.search(chosen, by_head, Pair { source, target }, Until::Far) {
        Ok(Nearby::Decided(found)) => Ok(Nearby::Decided(found)),
        Ok(Nearby::Undecided) | Err(Memory) => {
            with_algebra!(chosen, |algebra| ask(algebra, shared, by_head, pair))
        }
    }
}

/// The best code and the route, none if no walk to the target has a value; or undecided, if a stop
/// was set.
fn find_unless(
    chosen: AlgebraChoice,
    shared: &mut SharedGraph,
    stop: &Option<Stop>,
    pair: Pair,
) -> Result<Nearby, Memory>
    requires { HasBoth shared.old.roads pair.source pair.target }
    ensures graph { shared.new ≡ shared.old }
    ensures found { Under chosen (λ V A. IfOk result (IsFoundIfNear A shared.old.roads
        pair.source pair.target)) }
    ensures stopped { IfOk result (λ near. near ≡ Undecided → IsSome stop.now) }
{
    let Pair { source, target } = pair;
    let by_head = shared.by_head()?;
    if shared.is_factored_for(chosen) {
        let soon = find_soon(chosen, shared, &by_head, Pair { source, target })?;
        if let Nearby::Decided(found) = soon {
            return Ok(Nearby::Decided(found));
        }
    }
    shared.search(chosen, &by_head, pair, Until::Stopped(stop))
}

/// The best code and the route, or the status that says why there are none.
pub(crate) fn find(
    chosen: AlgebraChoice,
    shared: &mut SharedGraph,
    stop: &Option<Stop>,
    pair: Pair,
) -> Result<Found, i32>
    requires { HasBoth shared.old.roads pair.source pair.target }
    ensures graph { shared.new ≡ shared.old }
    ensures found { Under chosen (λ V A. IfOk result (λ found. IsFoundBetween A
        shared.old.roads pair.source pair.target (found_of found))) }
    ensures count { IfOk result (λ found. length found.route.items ≡ found.hops + 1) }
    ensures none { Under chosen (λ V A. IfErr result (λ status. status ≡ pos 1 → IsUnreached A
        shared.old.roads (pair.source ∷ []) pair.target)) }
    ensures stopped { IfErr result (λ status. status ≡ pos 45 → IsSome stop.now) }
    ensures status { IfErr result (IsOneOf (1 ∷ 3 ∷ 45 ∷ [])) }
{
    let Ok(near) = find_unless(chosen, shared, stop, pair) else {
        return Err(MEMORY);
    };
    let Nearby::Decided(found) = near else {
        return Err(STOPPED);
    };
    let Some(found) = found else {
        return Err(NO_ROUTE);
    };
    Ok(found)
}

/// Copies the vertices of a route into the room.
pub(crate) fn copy(list: &[Vertex], room: &mut [u32])
    requires { length list.now ≤ length room.old }
    ensures list { take (length list.now) room.new ≡ list.now }
    ensures rest { drop (length list.now) room.new ≡ drop (length list.now) room.old }
{
    for i in 0..list.len() {
        let v = list[i];
        room[i] = v.0;
    }
}

/// Writes the vertices of a route, if the room is long enough.
fn write_route(found: &Found, room: &mut [u32]) -> i32
    requires { length found.now.route.items ≡ found.now.hops + 1 }
    ensures found { IsFound result }
    ensures route { result ≡ pos 0 → take (found.now.hops + 1) room.new ≡ found.now.route.items }
    ensures short { result ≡ pos 2 → length room.old < found.now.hops + 1 }
    ensures long { result ≡ pos 0 → found.now.hops + 1 ≤ length room.old }
    ensures kept { result ≡ pos 2 → room.new ≡ room.old }
    ensures rest { result ≡ pos 0 → drop (found.now.hops + 1) room.new ≡ drop (found.now.hops + 1)
        room.old }
{
    if room.len() < found.route.len() {
        return NO_ROOM;
    }
    copy(&found.route, room);
    DONE
}

/// Where a route is written, as a caller lends it: its code, its hops, and room for its vertices.
#[derive(Drop)]
pub struct RouteRoom<'a> {
    pub code: &'a mut u64,
    pub hops: &'a mut u32,
    pub vertices: &'a mut [u32],
}

/// Finds a route by the chosen algebra and writes it.
fn answer(
    chosen: AlgebraChoice,
    shared: &mut SharedGraph,
    stop: &Option<Stop>,
    pair: Pair,
    room: &mut RouteRoom<'_>,
) -> i32
    requires { HasBoth shared.old.roads pair.source pair.target }
    ensures graph { shared.new ≡ shared.old }
    ensures tells { Under chosen (λ V A. ReportsRoute A shared.old.roads pair.source pair.target
        result room.new.code.now room.new.hops.now room.new.vertices.now) }
    ensures written { IsWrittenRoute room.old room.new result }
    ensures stopped { result ≡ pos 45 → IsSome stop.now }
    ensures status { IsOneOf (0 ∷ 1 ∷ 2 ∷ 3 ∷ 45 ∷ []) result }
{
    match find(chosen, shared, stop, pair) {
        Ok(found) => {
            *room.code = found.code;
            *room.hops = found.hops;
            write_route(&found, room.vertices)
        }
        Err(status) => status,
    }
}

/// Finds a route by the algebra of a number and writes it, if there is such an algebra and both are
/// vertices. A search ends without an answer soon after the stop is set, if there is one.
#[tactic(auto, using(path_algebra::proofs::Chosen::of_numbered))]
pub fn answer_route(
    by: AlgebraNumber,
    shared: &mut SharedGraph,
    stop: &Option<Stop>,
    pair: Pair,
    room: &mut RouteRoom<'_>,
) -> i32
    ensures graph { shared.new ≡ shared.old }
    ensures tells { IsAnswered result → OfAlgebra by.algebra by.limit (λ V A. ReportsRoute A
        shared.old.roads pair.source pair.target result room.new.code.now room.new.hops.now
        room.new.vertices.now) }
    ensures written { IsWrittenRoute room.old room.new result }
    ensures refusals { ReportsRefusals (HasBoth shared.old.roads pair.source pair.target) by.algebra
        by.limit result }
    ensures stopped { result ≡ pos 45 → IsSome stop.now }
    ensures status { IsOneOf (0 ∷ 1 ∷ 2 ∷ 3 ∷ 17 ∷ 43 ∷ 45 ∷ []) result }
{
    let graph = shared.graph();
    if !graph.has(pair.source) || !graph.has(pair.target) {
        return NO_VERTEX;
    }
    let Some(chosen) = AlgebraChoice::numbered(by.algebra, by.limit) else {
        return NO_ALGEBRA;
    };
    answer(chosen, shared, stop, pair, room)
}
