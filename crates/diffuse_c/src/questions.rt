//! The calls that answer questions: a route, a tree, and whether a tree is right.
ghost use Rattle.std.specs.Prelude.{◌≡◌, ◌↔◌, ◌+◌, ◌∷◌, [], pos, All, IsSome, None};
ghost use Rattle.road_graph.specs.GraphData.{HasVertex};
ghost use Rattle.path_algebra.specs.Choices.{OfAlgebra};
ghost use Rattle.answer_lists.specs.Answers.{HasBoth, HavePlaces, IsAnswered, IsFound, IsOneOf, ReportsListRefusals, ReportsRefusals, ReportsRoute};
ghost use Rattle.answer_lists.specs.Tree.{AreTreeLists, AreWantedLists, HaveAllOrNone, IsFirstRefuted};
ghost use Rattle.diffuse_c.specs.Holding.{OfGraph};
ghost use Rattle.diffuse_c.specs.Keeping.{KeepsHeld};
ghost use Rattle.diffuse_c.specs.Rooms.{FillsRoom};

use crate::handle::{DiffuseGraph, put, take};
use crate::owners::Owner;
use crate::status::CLOSED;
use answer_lists::{
    AlgebraNumber, FirstRefuted, ListedTree, RouteRoom, TreeLists, answer_route, answer_tree,
    check_tree,
};
use factor_routes::Pair;
use road_graph::Vertex;
use std::alloc::Global;

/// The best value from a source to a target, as a code, the least hops, and the route by least
/// parents, by the algebra of a number.
///
/// If the room is too short, code and hops are still written: hops + 1 places are needed.
#[unsafe(no_mangle)]
pub extern "C" fn diffuse_graph_route(
    alloc: Global,
    handle: &mut DiffuseGraph,
    algebra: u32,
    limit: u64,
    source: u32,
    target: u32,
    code: &mut u64,
    hops: &mut u32,
    room: &mut [u32],
) -> i32
    ensures kept { KeepsHeld handle.old.held handle.new.held }
    ensures tells { OfGraph handle.old.held.shared (λ g. IsAnswered result → OfAlgebra algebra limit
        (λ V A. ReportsRoute A g source target result code.new hops.new room.new)) }
    ensures room { FillsRoom (hops.new + 1) room.old room.new result }
    ensures places { (IsFound result → ⊥) → (code.new ≡ code.old) × (hops.new ≡ hops.old) }
    ensures refusals { OfGraph handle.old.held.shared
        (λ g. ReportsRefusals (HasBoth g source target) algebra limit result) }
    ensures closed { (result ≡ pos 4) ↔ (handle.old.held.shared ≡ None) }
    ensures stopped { result ≡ pos 45 → IsSome handle.old.held.stop }
    ensures status { IsOneOf (0 ∷ 1 ∷ 2 ∷ 3 ∷ 4 ∷ 17 ∷ 43 ∷ 45 ∷ []) result }
{
    let Some(mut owner) = take(alloc, handle) else {
        return CLOSED;
    };
    let Owner { shared, stop, .. } = &mut *owner;
    let by = AlgebraNumber { algebra, limit };
    let pair = Pair {
        source: Vertex(source),
        target: Vertex(target),
    };
    let mut lent = RouteRoom {
        code,
        hops,
        vertices: room,
    };
    let status = answer_route(by, shared, stop, pair, &mut lent);
    put(handle, owner);
    status
}

/// For each vertex the best value from the nearest of some sources, as a code, its least hops and
/// its least parent, by the algebra of a number.
///
/// A vertex that no walk with a value leads to has the code 2^64 - 1; it and each source have
/// parent 0. A list without places is not wanted.
#[unsafe(no_mangle)]
pub extern "C" fn diffuse_graph_tree(
    alloc: Global,
    handle: &mut DiffuseGraph,
    algebra: u32,
    limit: u64,
    sources: &[u32],
    codes: &mut [u64],
    hops: &mut [u32],
    parents: &mut [u32],
) -> i32
    ensures kept { KeepsHeld handle.old.held handle.new.held }
    ensures tree { OfGraph handle.old.held.shared (λ g. result ≡ pos 0 → OfAlgebra algebra limit
        (λ V A. AreWantedLists A g sources.now codes.new hops.new parents.new)) }
    ensures lists { (result ≡ pos 0 → ⊥) → (codes.new ≡ codes.old) × (hops.new ≡ hops.old) ×
        (parents.new ≡ parents.old) }
    ensures refusals { OfGraph handle.old.held.shared (λ g. ReportsListRefusals
        (All (HasVertex g) sources.now) (HaveAllOrNone g.vertices codes.old hops.old parents.old)
        algebra limit result) }
    ensures closed { (result ≡ pos 4) ↔ (handle.old.held.shared ≡ None) }
    ensures stopped { result ≡ pos 45 → IsSome handle.old.held.stop }
    ensures status { IsOneOf (0 ∷ 2 ∷ 3 ∷ 4 ∷ 17 ∷ 43 ∷ 45 ∷ []) result }
{
    let Some(mut owner) = take(alloc, handle) else {
        return CLOSED;
    };
    let Owner { shared, stop, .. } = &mut *owner;
    let by = AlgebraNumber { algebra, limit };
    let mut lists = TreeLists {
        codes,
        hops,
        parents,
    };
    let status = answer_tree(by, shared, stop, sources, &mut lists);
    put(handle, owner);
    status
}

/// Whether these lists are what `diffuse_graph_tree` writes, without solving.
///
/// If they are not, the first vertex whose line its neighbours refute is reported, with the number
/// of the first reason.
#[unsafe(no_mangle)]
pub extern "C" fn diffuse_graph_check(
    alloc: Global,
    handle: &mut DiffuseGraph,
    algebra: u32,
    limit: u64,
    sources: &[u32],
    codes: &[u64],
    hops: &[u32],
    parents: &[u32],
    vertex: &mut u32,
    reason: &mut u32,
) -> i32
    ensures kept { KeepsHeld handle.old.held handle.new.held }
    ensures right { OfGraph handle.old.held.shared (λ g. result ≡ pos 0 → OfAlgebra algebra limit
        (λ V A. AreTreeLists A g sources.now codes.now hops.now parents.now)) }
    ensures wrong { OfGraph handle.old.held.shared (λ g. result ≡ pos 6 → OfAlgebra algebra limit
        (λ V A. IsFirstRefuted A g sources.now codes.now hops.now parents.now vertex.new
        reason.new)) }
    ensures place { (result ≡ pos 6 → ⊥) → (vertex.new ≡ vertex.old) × (reason.new ≡ reason.old) }
    ensures refusals { OfGraph handle.old.held.shared (λ g. ReportsListRefusals
        (All (HasVertex g) sources.now) (HavePlaces g.vertices codes.now hops.now parents.now)
        algebra limit result) }
    ensures closed { (result ≡ pos 4) ↔ (handle.old.held.shared ≡ None) }
    ensures stopped { result ≡ pos 45 → IsSome handle.old.held.stop }
    ensures status { IsOneOf (0 ∷ 2 ∷ 3 ∷ 4 ∷ 6 ∷ 17 ∷ 43 ∷ 45 ∷ []) result }
{
    let Some(mut owner) = take(alloc, handle) else {
        return CLOSED;
    };
    let Owner { shared, stop, .. } = &mut *owner;
    let by = AlgebraNumber { algebra, limit };
    let tree = ListedTree {
        sources,
        codes,
        hops,
        parents,
    };
    let mut first = FirstRefuted { vertex, reason };
    let status = check_tree(by, shared, stop, &tree, &mut first);
    put(handle, owner);
    status
}
