//! Searches in a graph that handles share, by searchers that are kept.
ghost use Rattle.std.specs.Prelude.{◌≡◌, IfOk};
ghost use Rattle.path_algebra.specs.Choices.{Under};
ghost use Rattle.route_tree.specs.Found.{IsFoundIfNear};
ghost use Rattle.route_tree.specs.declared.found.Nearby.TheVariants.{Undecided};
ghost use Rattle.answer_lists.specs.Answers.{HasBoth};
ghost use Rattle.answer_lists.specs.Kept.{IsKeptOver, MayGiveUp, algebra_of};

use crate::kept::{Kept, Until};
use crate::shared_graph::SharedGraph;
use factor_routes::Pair;
use path_algebra::AlgebraChoice;
use road_graph::{InGraph, Memory};
use route_tree::Nearby;

impl SharedGraph {
    /// Takes out what searches for pairs, if it can by this algebra. Else it is freed, and another
    /// is made.
    fn take_for_routes(&mut self, chosen: AlgebraChoice) -> Kept
        ensures same { self.new ≡ self.old }
        ensures by { algebra_of result ≡ chosen }
        ensures over { IsKeptOver self.old.roads result }
    {
        if let Some(mut kept) = self.for_routes.take() {
            if kept.turn_to(chosen) {
                return kept;
            }
        }
        Kept::new(self.alloc, chosen)
    }

    /// Searches for the best code and the route, none if no walk to the target has a value; or
    /// undecided, if the search was to give up. The searcher is kept: where it stopped the next
    /// search from the same source goes on.
    pub(crate) fn search(
        &mut self,
        chosen: AlgebraChoice,
        by_head: &InGraph,
        pair: Pair,
        until: Until<'_>,
    ) -> Result<Nearby, Memory>
        requires by_head { by_head.now ≡ self.old.roads }
        requires pair { HasBoth self.old.roads pair.source pair.target }
        ensures kept { self.new ≡ self.old }
        ensures found { Under chosen (λ V A. IfOk result (IsFoundIfNear A self.old.roads pair.source
            pair.target)) }
        ensures gives_up { IfOk result (λ near. near ≡ Undecided → MayGiveUp until.entry) }
    {
        let mut kept = self.take_for_routes(chosen);
        let near = kept.route(&self.graph, by_head, pair, until);
        self.for_routes = Some(kept);
        near
    }

    /// Takes out what searches for trees in the same way.
    pub(crate) fn take_for_trees(&mut self, chosen: AlgebraChoice) -> Kept
        ensures same { self.new ≡ self.old }
        ensures by { algebra_of result ≡ chosen }
        ensures over { IsKeptOver self.old.roads result }
    {
        if let Some(mut kept) = self.for_trees.take() {
            if kept.turn_to(chosen) {
                return kept;
            }
        }
        Kept::new(self.alloc, chosen)
    }

    /// Puts what searches for trees in.
    pub(crate) fn put_for_trees(&mut self, kept: Kept)
        requires { IsKeptOver self.old.roads kept }
        ensures { self.new ≡ self.old }
    {
        self.for_trees = Some(kept);
    }
}
