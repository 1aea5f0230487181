//! Routes and values of single vertices, one source after another.
ghost use Rattle.std.specs.Prelude.{◌≡◌, ℕ, All, List, Option, Some, IfOk, [], ◌∷◌};
ghost use Rattle.road_graph.specs.GraphData.{HasVertex};
ghost use Rattle.path_algebra.specs.Carried.{IsCarried};
ghost use Rattle.path_algebra.specs.Counted.{cost_of};
ghost use Rattle.path_algebra.specs.Walks.{IsBest, IsBestLabel};
ghost use Rattle.route_tree.specs.Found.{IsPairFound};
ghost use Rattle.factor_routes.specs.Numbers.{numbers_of, AreBestNumbers};
ghost use Rattle.factor_routes.specs.Tails.{IsCountedRoute};

use crate::road_factors::{RoadFactors, RouteAsker};
use path_algebra::PathAlgebra;
use path_plain::best_values_exist;
use road_graph::{InGraph, Memory, Vertex};
use route_tree::{Found, trees_exist};
use std::alloc::{AllocError, Global};

/// The two ends of a route that is asked for.
#[derive(Clone, Copy)]
pub struct Pair {
    pub source: Vertex,
    pub target: Vertex,
}

impl RoadFactors {
    /// Begins with a source: from now on the asker is asked for walks from there. It takes back
    /// what it found before.
    pub fn begin(&self, asker: &mut RouteAsker, source: Vertex)
        requires same { asker.old.factors ≡ self.now }
        requires source { HasVertex self.now.roads source }
        ensures same { asker.new.factors ≡ asker.old.factors }
        ensures source { asker.new.sources ≡ source ∷ [] }
    {
        asker.begin(&self.factors, source);
    }

    /// The best value of a vertex over all walks from the asker's source, and none if no walk has a
    /// value.
    pub fn best_value<A: PathAlgebra>(
        &self,
        algebra: A,
        asker: &mut RouteAsker,
        v: Vertex,
    ) -> Result<Option<A::Value>, Memory>
        requires carried { IsCarried (A.meaning algebra) (cost_of self.now.algebra.cost) }
        requires same { asker.old.factors ≡ self.now }
        requires sources { All (HasVertex self.now.roads) asker.old.sources }
        requires vertex { HasVertex self.now.roads v }
        ensures same { asker.new.factors ≡ asker.old.factors }
        ensures sources { asker.new.sources ≡ asker.old.sources }
        ensures best { IfOk result (λ label. IsBestLabel (A.meaning algebra) self.now.roads
            asker.old.sources v label) }
    {
        self.holds();
        match self.number(asker, v)? {
            Some(number) => Ok(self.value_in(algebra, number)),
            None => Ok(None),
        }
    }

    /// The vertices of the route to a vertex, which is given with its number, from the source on.
    fn route_back(
        &self,
        alloc: Global,
        by_head: &InGraph,
        asker: &mut RouteAsker,
        end: (Vertex, u64),
    ) -> Result<Vec<Vertex>, Memory>
        requires by_head { by_head.now ≡ self.now.roads }
        requires same { asker.old.factors ≡ self.now }
        requires sources { All (HasVertex self.now.roads) asker.old.sources }
        requires end { HasVertex self.now.roads end.0 }
        requires number { IsBest (numbers_of self.now) self.now.roads asker.old.sources end.0 end.1 }
        ensures same { asker.new.factors ≡ asker.old.factors }
        ensures route { IfOk result (λ list. (number : ℕ → Option ℕ) →
            AreBestNumbers (numbers_of self.now) self.now.roads asker.old.sources number →
            number end.0 ≡ Some end.1 →
            IsCountedRoute self.now.roads (cost_of self.now.algebra.cost) self.now.algebra.bits number end.0 list.items) }
    {
        self.holds();
        self.numbers_exist();
        let mut list = Vec::new(alloc);
        list.push(end.0).map_err(AllocError::from)?;
        let (mut at, mut number) = end;
        let mut after = at;
        while number > 0 {
            let tail = self.tail_before(by_head, asker, (at, number), after)?;
            list.push(tail.0).map_err(AllocError::from)?;
            after = at;
            (at, number) = tail;
        }
        list.reverse();
        Ok(list)
    }

    /// The best value of a pair's target and the route to it; none if no walk has a value. The only
    /// error is `Memory`.
    ///
    /// The route is that of the whole tree, but only vertices along it and their ancestors in the
    /// factors are looked at.
    pub fn find<A: PathAlgebra>(
        &self,
        alloc: Global,
        algebra: A,
        by_head: &InGraph,
        asker: &mut RouteAsker,
        pair: Pair,
    ) -> Result<Option<Found>, Memory>
        requires by_head { by_head.now ≡ self.now.roads }
        requires carried { IsCarried (A.meaning algebra) (cost_of self.now.algebra.cost) }
        requires same { asker.old.factors ≡ self.now }
        requires source { HasVertex self.now.roads pair.source }
        requires target { HasVertex self.now.roads pair.target }
        ensures same { asker.new.factors ≡ asker.old.factors }
        ensures found { IfOk result (IsPairFound (A.meaning algebra) self.now.roads pair.source
            pair.target) }
    {
        self.holds();
        self.numbers_exist();
        best_values_exist(algebra);
        trees_exist(algebra);
        self.begin(asker, pair.source);
        let Some(number) = self.number(asker, pair.target)? else {
            return Ok(None);
        };
        let Some(value) = self.value_in(algebra, number) else {
            return Ok(None);
        };
        let route = self.route_back(alloc, by_head, asker, (pair.target, number))?;
        Ok(Some(Found {
            code: algebra.code(value),
            hops: self.hops_in(number),
            route,
        }))
    }
}
