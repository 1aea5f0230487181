//! Pairs of one graph, one after the other: what their searches use stays.

ghost use Rattle.std.specs.Prelude.{◌≡◌, ◌↔◌, ◌∷◌, [], IfOk, IsTrue, None, OnOk, Some};
ghost use Rattle.road_graph.specs.GraphData.{HasVertex};
ghost use Rattle.halting.specs.Halting.{CanHalt};
ghost use Rattle.path_plain.specs.Searcher.{IsOfSameGraph};
ghost use Rattle.path_plain.specs.UpTo.{AreBestUpTo};
ghost use Rattle.route_tree.specs.Found.{IsFoundIfNear, IsPairFound};
ghost use Rattle.route_tree.specs.declared.found.Nearby.TheVariants.{Undecided};

use crate::found::{Found, Nearby};
use crate::route_finder::RouteFinder;
use halting::Halt;
use path_algebra::PathAlgebra;
use path_plain::Searcher;
use road_graph::{InGraph, Memory, OutGraph, Vertex};
use std::alloc::Global;
use std::marker::Model;

/// A search for the values and the routes of the pairs of a graph. Its lists of all vertices are
/// made once.
///
/// Between two pairs only what the search has touched is put back, and of two from one source the
/// second goes on where the first stopped. After a growth that was refused the next pair is right
/// too.
#[derive(Drop)]
pub struct PairSearcher<A: PathAlgebra> {
    searcher: Searcher<A>,
    finder: RouteFinder,
}

impl<A: PathAlgebra> Model for PairSearcher<A> {
    ghost use Rattle.std.specs.Prelude.{◌≡◌};
    ghost use Rattle.path_plain.specs.Searcher.{SearcherState};

    ghost Value = { SearcherState A A.Value };

    ghost view = { λ s. s.searcher };

    ghost invariant = { λ s. s.finder ≡ s.searcher.roads.vertices };
}

/// What a search that has decided its pair may give up by: a stop alone.
fn stop_of<'s>(halt: &Halt<'s>) -> Halt<'s>
    ensures { CanHalt result → CanHalt halt.now }
{
    match halt {
        Halt::Stopped(stop, left) => Halt::Stopped(*stop, *left),
        _ => Halt::Never,
    }
}

impl<A: PathAlgebra> PairSearcher<A> {
    /// A searcher for the pairs of this graph. The only error is want of memory.
    pub fn new(alloc: Global, algebra: A, graph: &OutGraph) -> Result<Self, Memory>
        ensures algebra { IfOk result (λ s. s.algebra ≡ algebra) }
        ensures graph { IfOk result (λ s. s.roads ≡ graph.now) }
    {
        let searcher = Searcher::new(alloc, algebra, graph)?;
        let finder = RouteFinder::new(alloc, graph.vertices());
        Ok(PairSearcher { searcher, finder })
    }

    /// Its algebra.
    pub fn algebra(&self) -> A
        ensures { result ≡ self.now.algebra }
    {
        self.searcher.algebra()
    }

    /// Gives it another algebra. The next search begins anew.
    pub fn set_algebra(&mut self, algebra: A)
        ensures algebra { self.new.algebra ≡ algebra }
        ensures roads { self.new.roads ≡ self.old.roads }
    {
        self.searcher.set_algebra(algebra);
    }

    /// Whether the pair before came from this source, so that one more from there goes on with its
    /// search.
    pub fn is_from(&self, source: Vertex) -> bool
        ensures { IsTrue result ↔ (self.now.source ≡ Some source) }
    {
        self.searcher.is_from(source)
    }

    /// What is found of a pair, by labels that are best up to its target, unless the search for the
    /// route is to give up.
    fn find(
        &mut self,
        graph: &OutGraph,
        by_head: &InGraph,
        pair: (Vertex, Vertex),
        halt: &mut Halt<'_>,
    ) -> Result<Nearby, Memory>
        requires graph { graph.now ≡ self.old.roads }
        requires by_head { by_head.now ≡ graph.now }
        requires source { HasVertex graph.now pair.0 }
        requires target { HasVertex graph.now pair.1 }
        requires labels { AreBestUpTo (A.meaning self.old.algebra) graph.now (pair.0 ∷ []) pair.1
            self.old.labels }
        ensures found { IfOk result (IsFoundIfNear (A.meaning self.old.algebra) graph.now pair.0 pair.1) }
        ensures halts { IfOk result (λ near. near ≡ Undecided → CanHalt halt.old) }
        ensures same { self.new ≡ self.old }
    {
        let algebra = self.searcher.algebra();
        let labels = self.searcher.labels();
        self.finder
            .route(algebra, graph, by_head, labels, pair, halt)
    }

    /// The best value of a pair's target over all walks from its source, and the route to it; none
    /// if no walk has a value. `by_head` has the arcs of the graph by head. The only error is want
    /// of memory; after it the next call is right too.
    pub fn solve(
        &mut self,
        graph: &OutGraph,
        by_head: &InGraph,
        pair: (Vertex, Vertex),
    ) -> Result<Option<Found>, Memory>
        requires graph { graph.now ≡ self.old.roads }
        requires by_head { by_head.now ≡ graph.now }
        requires source { HasVertex graph.now pair.0 }
        requires target { HasVertex graph.now pair.1 }
        ensures found { IfOk result (IsPairFound (A.meaning self.old.algebra) graph.now pair.0 pair.1) }
        ensures source { OnOk result (self.new.source ≡ Some pair.0) }
        ensures same { IsOfSameGraph self.old self.new }
    {
        self.searcher.solve_to(graph, pair.0, pair.1)?;
        match self.find(graph, by_head, pair, &mut Halt::Never)? {
            Nearby::Decided(found) => Ok(found),
            Nearby::Undecided => unreachable!(),
        }
    }

    /// The same by a search that may be told to give up: then the pair is undecided, and a later
    /// call from the same source goes on from there. Once it has decided the pair, it gives up by a
    /// stop alone.
    pub fn solve_unless(
        &mut self,
        graph: &OutGraph,
        by_head: &InGraph,
        pair: (Vertex, Vertex),
        halt: &mut Halt<'_>,
    ) -> Result<Nearby, Memory>
        requires graph { graph.now ≡ self.old.roads }
        requires by_head { by_head.now ≡ graph.now }
        requires source { HasVertex graph.now pair.0 }
        requires target { HasVertex graph.now pair.1 }
        ensures found { IfOk result (IsFoundIfNear (A.meaning self.old.algebra) graph.now pair.0 pair.1) }
        ensures halts { IfOk result (λ near. near ≡ Undecided → CanHalt halt.old) }
        ensures source { OnOk result (self.new.source ≡ Some pair.0) }
        ensures same { IsOfSameGraph self.old self.new }
    {
        let mut last = stop_of(halt);
        if !self.searcher.solve_unless(graph, pair.0, pair.1, halt)? {
            return Ok(Nearby::Undecided);
        }
        self.find(graph, by_head, pair, &mut last)
    }
}
