//! The first reason against the answer to a pair, by comparison with the solver's.

ghost use Rattle.std.specs.Prelude.{◌≡◌, IfOk, option_map};
ghost use Rattle.road_graph.specs.GraphData.{HasVertex};
ghost use Rattle.path_plain.specs.Searcher.{IsOfSameGraph};
ghost use Rattle.answer_text.specs.AnswerData.{found_of};
ghost use Rattle.answer_check.specs.Reasons.{IsPairRefused, IsFirstReason};
ghost use Rattle.answer_text.specs.IsAnswer.{IsPairAnswer};
ghost use Rattle.answer_check.specs.Pairs.{IsOther};

use crate::verdict::Reason;
use path_algebra::{PathAlgebra, laws_hold};
use road_files::are_same;
use road_graph::{InGraph, Memory, OutGraph, Vertex};
use route_tree::{Found, PairSearcher};

/// The first way in which what is told of a pair differs from what is right.
fn difference(right: &Found, found: &Found) -> Option<Reason>
    ensures { IsFirstReason (found_of found.now ≡ found_of right.now)
        (IsOther (found_of right.now) (found_of found.now)) result }
{
    if found.code != right.code {
        Some(Reason::NotBest)
    } else if found.hops != right.hops {
        Some(Reason::OtherHops)
    } else if !are_same(right.route.as_slice(), found.route.as_slice()) {
        Some(Reason::OtherRoute)
    } else {
        None
    }
}

/// The first reason against the answer to a pair, which the searcher solves.
pub(crate) fn reason_of_pair<A: PathAlgebra>(
    searcher: &mut PairSearcher<A>,
    graph: &OutGraph,
    by_head: &InGraph,
    pair: (Vertex, Vertex),
    found: &Option<Found>,
) -> Result<Option<Reason>, Memory>
    requires graph { graph.now ≡ searcher.old.roads }
    requires by_head { by_head.now ≡ graph.now }
    requires source { HasVertex graph.now pair.0 }
    requires target { HasVertex graph.now pair.1 }
    ensures reason { IfOk result (IsFirstReason
        (IsPairAnswer (A.meaning searcher.old.algebra) graph.now pair.0 pair.1
        (option_map found_of found.now)) (IsPairRefused (A.meaning searcher.old.algebra) graph.now
        pair.0 pair.1 (option_map found_of found.now))) }
    ensures same { IsOfSameGraph searcher.old searcher.new }
{
    let algebra = searcher.algebra();
    laws_hold(algebra);
    let right = searcher.solve(graph, by_head, pair)?;
    let Some(found) = found else {
        return Ok(if right.is_some() {
            Some(Reason::HasWalk)
        } else {
            None
        });
    };
    match right {
        Some(right) => Ok(difference(&right, found)),
        None => Ok(Some(Reason::NotBest)),
    }
}
