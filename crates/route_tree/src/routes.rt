//! Routes: chains of parents, from a whole tree or between two vertices alone.

ghost use Rattle.std.specs.Prelude.{◌≡◌, ◌≤◌, [], ◌∷◌, ◌++◌, length, IfOk, OnErr, OnOk, None, MatchOption};
ghost use Rattle.road_graph.specs.GraphData.{HasVertex};
ghost use Rattle.path_algebra.specs.Walks.{AreBest};
ghost use Rattle.route_tree.specs.Found.{IsFoundIn, IsPairFound};
ghost use Rattle.route_tree.specs.Tree.{IsRoute, hops_of};

use crate::found::{Found, Nearby};
use crate::hops_and_parents::Tree;
use crate::route_finder::RouteFinder;
use halting::Halt;
use path_algebra::{Labels, PathAlgebra, laws_hold};
use road_graph::{InGraph, Memory, OutGraph, Vertex};
use std::alloc::{AllocError, Global};

/// Puts a vertex at the end of a list.
pub(crate) fn push(list: &mut Vec<Vertex>, v: Vertex) -> Result<(), Memory>
    ensures longer { OnOk result (list.new.items ≡ list.old.items ++ (v ∷ [])) }
    ensures kept { OnErr result (list.new.items ≡ list.old.items) }
{
    list.push(v).map_err(AllocError::from)?;
    Ok(())
}

/// The route to a vertex: from a source on, each vertex is the parent of the next. None if the
/// vertex has no hops. The only error is `Memory`.
pub fn route(alloc: Global, tree: &Tree, target: Vertex) -> Result<Option<Vec<Vertex>>, Memory>
    requires low { 1 ≤ target }
    requires high { target ≤ length tree.now.hops }
    ensures { IfOk result (λ found. MatchOption found (hops_of tree.now target ≡ None)
        (λ list. IsRoute tree.now target list.items)) }
{
    tree.holds();
    if tree.hops(target).is_none() {
        return Ok(None);
    }
    let mut list = Vec::new(alloc);
    push(&mut list, target)?;
    let mut at = target;
    while let Some(u) = tree.parent(at) {
        push(&mut list, u)?;
        at = u;
    }
    list.reverse();
    Ok(Some(list))
}

/// What a tree shows of a target whose best value has this code; none if the target has no hops.
pub(crate) fn found_in(
    alloc: Global,
    tree: &Tree,
    code: u64,
    target: Vertex,
) -> Result<Option<Found>, Memory>
    requires low { 1 ≤ target }
    requires high { target ≤ length tree.now.hops }
    ensures { IfOk result (IsFoundIn tree.now code target) }
{
    tree.holds();
    let Some(hops) = tree.hops(target) else {
        return Ok(None);
    };
    let Some(route) = route(alloc, tree, target)? else {
        return Ok(None);
    };
    Ok(Some(Found { code, hops, route }))
}

/// The best value of a pair's target and the route to it, for labels that are best from the pair's
/// source; none if no walk has a value. `by_head` has the arcs of the graph by head. The only error
/// is `Memory`.
///
/// The route is that of the whole tree, but only vertices with a walk of tight arcs to the target
/// are looked at, and no further back than the source.
pub fn route_between<A: PathAlgebra>(
    alloc: Global,
    algebra: A,
    graph: &OutGraph,
    by_head: &InGraph,
    pair: (Vertex, Vertex),
    labels: &Labels<A::Value>,
) -> Result<Option<Found>, Memory>
    requires by_head { by_head.now ≡ graph.now }
    requires source { HasVertex graph.now pair.0 }
    requires target { HasVertex graph.now pair.1 }
    requires labels { AreBest (A.meaning algebra) graph.now (pair.0 ∷ []) labels.now }
    ensures { IfOk result (IsPairFound (A.meaning algebra) graph.now pair.0 pair.1) }
{
    laws_hold(algebra);
    graph.holds();
    let mut finder = RouteFinder::new(alloc, graph.vertices());
    match finder.route(algebra, graph, by_head, labels, pair, &mut Halt::Never)? {
        Nearby::Decided(found) => Ok(found),
        Nearby::Undecided => unreachable!(),
    }
}
