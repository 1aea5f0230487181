//! What searches a graph by one algebra, kept from one question to the next.
ghost use Rattle.std.specs.Prelude.{◌≡◌, All, IfOk, IfSome, IsTrue, None};
ghost use Rattle.road_graph.specs.GraphData.{GraphData, HasVertex};
ghost use Rattle.path_algebra.specs.Choices.{Under};
ghost use Rattle.halting.specs.Halting.{CanHalt};
ghost use Rattle.route_tree.specs.Found.{IsFoundIfNear};
ghost use Rattle.route_tree.specs.declared.found.Nearby.TheVariants.{Undecided};
ghost use Rattle.answer_lists.specs.Answers.{HasBoth};
ghost use Rattle.answer_lists.specs.Kept.{AreSearchersOf, IsKeptOver, MayGiveUp, algebra_of};
ghost use Rattle.answer_lists.specs.Near.{HasReached};
ghost use Rattle.answer_lists.specs.Tree.{HasLowCodes};

use factor_routes::{Pair, find_near};
use halting::{Halt, Stop};
use path_algebra::{
    AlgebraChoice, Hops, PathAlgebra, Reach, Reliable, Shortest, Widest, Within, laws_hold,
};
use road_graph::{InGraph, Memory, OutGraph, Vertex};
use route_tree::{Nearby, PairSearcher, labels_and_trees_agree};
use std::alloc::Global;
use tree_search::TreeSearcher;

/// What searches a graph by an algebra: for pairs and for trees, each made when it is first needed.
#[derive(Drop)]
pub(crate) struct Searchers<A: PathAlgebra> {
    alloc: Global,
    pub(crate) algebra: A,
    pairs: Option<PairSearcher<A>>,
    pub(crate) trees: Option<TreeSearcher<A>>,
}

/// The searchers by one of the given algebras.
#[derive(Drop)]
pub(crate) enum Kept {
    Shortest(Searchers<Shortest>),
    Widest(Searchers<Widest>),
    Reach(Searchers<Reach>),
    Hops(Searchers<Hops>),
    Reliable(Searchers<Reliable>),
    Within(Searchers<Within>),
}

/// How long a search for a pair goes on.
#[derive(Clone, Copy)]
pub(crate) enum Until<'s> {
    /// While the pair may be near: not as long as factors would take.
    Far,
    /// Until it has its answer, or the stop is set, if there is one.
    Stopped(&'s Option<Stop>),
}

/// Gives them this limit. If they had another, their next search begins anew.
fn set_limit(searchers: &mut Searchers<Within>, limit: Within)
    ensures by { searchers.new.algebra ≡ limit }
    ensures over { (g : GraphData) → AreSearchersOf g searchers.old →
        AreSearchersOf g searchers.new }
{
    if searchers.algebra != limit {
        searchers.algebra = limit;
        if let Some(pairs) = &mut searchers.pairs {
            pairs.set_algebra(limit);
        }
    }
}

impl Kept {
    /// What searches by this algebra.
    pub(crate) fn new(alloc: Global, chosen: AlgebraChoice) -> Kept
        ensures by { algebra_of result ≡ chosen }
        ensures over { (g : GraphData) → IsKeptOver g result }
    {
        match chosen {
            AlgebraChoice::Shortest => Kept::Shortest(Searchers::new(alloc, Shortest)),
            AlgebraChoice::Widest => Kept::Widest(Searchers::new(alloc, Widest)),
            AlgebraChoice::Reach => Kept::Reach(Searchers::new(alloc, Reach)),
            AlgebraChoice::Hops => Kept::Hops(Searchers::new(alloc, Hops)),
            AlgebraChoice::Reliable => Kept::Reliable(Searchers::new(alloc, Reliable)),
            AlgebraChoice::Within(limit) => Kept::Within(Searchers::new(alloc, limit)),
        }
    }

    /// Whether it can search by this algebra from now on.
    pub(crate) fn turn_to(&mut self, chosen: AlgebraChoice) -> bool
        ensures by { IsTrue result → algebra_of self.new ≡ chosen }
        ensures over { (g : GraphData) → IsKeptOver g self.old → IsKeptOver g self.new }
    {
        match (self, chosen) {
            (Kept::Shortest(_), AlgebraChoice::Shortest)
            | (Kept::Widest(_), AlgebraChoice::Widest)
            | (Kept::Reach(_), AlgebraChoice::Reach)
            | (Kept::Hops(_), AlgebraChoice::Hops)
            | (Kept::Reliable(_), AlgebraChoice::Reliable) => true,
            (Kept::Within(searchers), AlgebraChoice::Within(limit)) => {
                set_limit(searchers, limit);
                true
            }
            _ => false,
        }
    }

    /// The best code and the route, none if no walk to the target has a value; or undecided, if the
    /// search was to give up.
    pub(crate) fn route(
        &mut self,
        graph: &OutGraph,
        by_head: &InGraph,
        pair: Pair,
        until: Until<'_>,
    ) -> Result<Nearby, Memory>
        requires over { IsKeptOver graph.now self.old }
        requires by_head { by_head.now ≡ graph.now }
        requires pair { HasBoth graph.now pair.source pair.target }
        ensures found { Under (algebra_of self.old) (λ V A. IfOk result
            (IsFoundIfNear A graph.now pair.source pair.target)) }
        ensures gives_up { IfOk result (λ near. near ≡ Undecided → MayGiveUp until.entry) }
        ensures over { IsKeptOver graph.now self.new }
    {
        with_kept!(
            self,
            |searchers| searchers.route(graph, by_head, pair, until)
        )
    }

    /// Whether a search within a limit from some sources ends before it is to give up.
    pub(crate) fn ends_within(
        &mut self,
        graph: &OutGraph,
        sources: &[Vertex],
        halt: &mut Halt<'_>,
    ) -> bool
        requires over { IsKeptOver graph.now self.old }
        requires sources { All (HasVertex graph.now) sources.now }
        ensures over { IsKeptOver graph.now self.new }
    {
        let Kept::Within(searchers) = self else {
            return false;
        };
        let Ok(Some(found)) = searchers.reach(graph, sources, halt) else {
            return false;
        };
        searchers.trees = Some(found);
        true
    }
}

impl<A: PathAlgebra> Searchers<A> {
    /// None is made yet.
    fn new(alloc: Global, algebra: A) -> Self
        ensures by { result.algebra ≡ algebra }
        ensures over { (g : GraphData) → AreSearchersOf g result }
    {
        Searchers {
            alloc,
            algebra,
            pairs: None,
            trees: None,
        }
    }

    /// The same by these.
    fn route(
        &mut self,
        graph: &OutGraph,
        by_head: &InGraph,
        pair: Pair,
        until: Until<'_>,
    ) -> Result<Nearby, Memory>
        requires over { AreSearchersOf graph.now self.old }
        requires by_head { by_head.now ≡ graph.now }
        requires pair { HasBoth graph.now pair.source pair.target }
        ensures found { IfOk result (IsFoundIfNear (A.meaning self.old.algebra) graph.now
            pair.source pair.target) }
        ensures gives_up { IfOk result (λ near. near ≡ Undecided → MayGiveUp until.entry) }
        ensures over { AreSearchersOf graph.now self.new }
    {
        let mut searcher = match self.pairs.take() {
            Some(searcher) => searcher,
            None => PairSearcher::new(self.alloc, self.algebra, graph)?,
        };
        let near = match until {
            Until::Far => Ok(find_near(&mut searcher, graph, by_head, pair)),
            Until::Stopped(stop) => {
                let ends = (pair.source, pair.target);
                searcher.solve_unless(graph, by_head, ends, &mut Halt::by(stop))
            }
        };
        self.pairs = Some(searcher);
        near
    }

    /// Takes the searcher for trees out, or makes it.
    fn take_trees(&mut self, graph: &OutGraph) -> Result<TreeSearcher<A>, Memory>
        requires { AreSearchersOf graph.now self.old }
        ensures searcher { IfOk result (λ t. t.roads ≡ graph.now) }
        ensures algebra { self.new.algebra ≡ self.old.algebra }
        ensures over { AreSearchersOf graph.now self.new }
    {
        match self.trees.take() {
            Some(searcher) => Ok(searcher),
            None => TreeSearcher::new(self.alloc, self.algebra, graph),
        }
    }

    /// Finds what is reached from some sources: the searcher that did, which is taken out; or none,
    /// if it gave up. It is lost if memory runs out.
    pub(crate) fn reach(
        &mut self,
        graph: &OutGraph,
        sources: &[Vertex],
        halt: &mut Halt<'_>,
    ) -> Result<Option<TreeSearcher<A>>, Memory>
        requires low { HasLowCodes (A.meaning self.old.algebra) }
        requires over { AreSearchersOf graph.now self.old }
        requires sources { All (HasVertex graph.now) sources.now }
        ensures found { IfOk result (λ found. IfSome found (HasReached (A.meaning self.old.algebra)
            graph.now sources.now)) }
        ensures halts { IfOk result (λ found. found ≡ None → CanHalt halt.old) }
        ensures algebra { self.new.algebra ≡ self.old.algebra }
        ensures over { AreSearchersOf graph.now self.new }
    {
        let algebra = self.algebra;
        graph.holds();
        laws_hold(algebra);
        labels_and_trees_agree(algebra);
        let before = self.take_trees(graph)?;
        let (found, is_found) = before.solve_unless(algebra, graph, sources, halt)?;
        if !is_found {
            self.trees = Some(found);
            return Ok(None);
        }
        Ok(Some(found))
    }
}
