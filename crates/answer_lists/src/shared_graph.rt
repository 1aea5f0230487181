//! A graph that handles share, with what was made of it for its answers.
ghost use Rattle.std.specs.Prelude.{◌≡◌, ◌≢◌, ℕ, length, IfOk, IfErr, IfNone, IfSome, IsSome, OnErr, OnOk, is_some};
ghost use Rattle.std.specs.Arc.{arc_value};
ghost use Rattle.path_algebra.specs.Carried.{IsCarried};
ghost use Rattle.path_algebra.specs.Counted.{cost_of, CountsFit};
ghost use Rattle.elimination_order.specs.Bounds.{IsTooDense};
ghost use Rattle.elimination_order.specs.declared.counts.Counts.{Counts};
ghost use Rattle.factor_routes.specs.declared.road_factors.Unfactored.TheVariants.{Dense, Heavy, Stopped};
ghost use Rattle.answer_lists.specs.Sharing.{factored_for, is_factored, unfactored};

mod searching;

use crate::factored_graph::FactoredGraph;
use crate::kept::Kept;
use elimination_order::Order;
use factor_routes::{RoadFactors, Unfactored};
use halting::Stop;
use path_algebra::{AlgebraChoice, Cost, PathAlgebra, with_algebra};
use path_factors::{Links, Making};
use road_graph::{InGraph, Memory, OutGraph};
use std::alloc::{AllocError, Global};
use std::marker::Model;
use std::sync::Arc;

/// An owner of a graph, of the same by heads if that was made, and of its factors by weights and by
/// arcs if it was factored; and what searched for its last route and its last near answer, maybe by
/// two algebras, which no other owner has.
#[derive(Drop)]
pub struct SharedGraph {
    alloc: Global,
    graph: Arc<OutGraph>,
    by_head: Option<Arc<InGraph>>,
    by_weights: Option<FactoredGraph>,
    by_arcs: Option<FactoredGraph>,
    for_routes: Option<Kept>,
    for_trees: Option<Kept>,
}

impl Model for SharedGraph {
    ghost use Rattle.std.specs.Prelude.{◌≡◌, IfSome, is_some};
    ghost use Rattle.std.specs.Arc.{arc_value};
    ghost use Rattle.path_algebra.specs.declared.counted_sums.Cost.TheVariants.{Weight, One};
    ghost use Rattle.answer_lists.specs.Factoring.{IsFactorOf};
    ghost use Rattle.answer_lists.specs.Kept.{IsKeptOver};
    ghost use Rattle.answer_lists.specs.Sharing.{Shared};

    ghost Value = { Shared };

    ghost view = { λ s. record {
      roads = arc_value s.graph;
      by_weights = is_some s.by_weights;
      by_arcs = is_some s.by_arcs;
    } };

    ghost invariant = { λ s. IfSome s.by_head (λ r. arc_value r ≡ arc_value s.graph)
        × IfSome s.by_weights (IsFactorOf (arc_value s.graph) Weight)
        × IfSome s.by_arcs (IsFactorOf (arc_value s.graph) One)
        × IfSome s.for_routes (IsKeptOver (arc_value s.graph))
        × IfSome s.for_trees (IsKeptOver (arc_value s.graph)) };
}

/// One more owner of what is there.
fn again(factored: &Option<FactoredGraph>) -> Result<Option<FactoredGraph>, AllocError>
    ensures { IfOk result (λ f. f ≡ factored.now) }
{
    match factored {
        Some(factored) => Ok(Some(factored.try_clone()?)),
        None => Ok(None),
    }
}

impl SharedGraph {
    /// The first owner of a graph.
    pub fn of(alloc: Global, graph: OutGraph) -> Result<SharedGraph, AllocError>
        ensures { IfOk result (λ s. s ≡ unfactored graph) }
    {
        let graph = Arc::new(alloc, graph).map_err(AllocError::from)?;
        Ok(SharedGraph {
            alloc,
            graph,
            by_head: None,
            by_weights: None,
            by_arcs: None,
            for_routes: None,
            for_trees: None,
        })
    }

    /// One more owner of the same graph, and of what was made of it. It makes its own searcher.
    pub fn try_clone(&self) -> Result<SharedGraph, AllocError>
        ensures { IfOk result (λ s. s ≡ self.now) }
    {
        let graph = Arc::try_clone(&self.graph)?;
        let by_head = match &self.by_head {
            Some(by_head) => Some(Arc::try_clone(by_head)?),
            None => None,
        };
        let by_weights = again(&self.by_weights)?;
        let by_arcs = again(&self.by_arcs)?;
        Ok(SharedGraph {
            alloc: self.alloc,
            graph,
            by_head,
            by_weights,
            by_arcs,
            for_routes: None,
            for_trees: None,
        })
    }

    /// The allocator of what is made of the graph.
    pub(crate) fn alloc(&self) -> Global {
        self.alloc
    }

    /// The graph.
    pub fn graph(&self) -> &OutGraph
        ensures { result.now ≡ self.now.roads }
    {
        &self.graph
    }

    /// The graph by heads, which is made at the first call and kept.
    pub fn by_head(&mut self) -> Result<Arc<InGraph>, Memory>
        ensures kept { self.new ≡ self.old }
        ensures by_head { IfOk result (λ r. arc_value r ≡ self.old.roads) }
    {
        if let Some(by_head) = &self.by_head {
            return Ok(Arc::try_clone(by_head)?);
        }
        let by_head = InGraph::of(self.alloc, &self.graph)?;
        let by_head = Arc::new(self.alloc, by_head).map_err(AllocError::from)?;
        let again = Arc::try_clone(&by_head)?;
        self.by_head = Some(by_head);
        Ok(again)
    }

    /// The factors for arcs that cost this, if there are any.
    pub(crate) fn factored(&self, cost: Cost) -> Option<&FactoredGraph>
        ensures some { is_some result ≡ is_factored self.now cost }
        ensures roads { IfSome result (λ f. f.now.roads ≡ self.now.roads) }
        ensures cost { IfSome result (λ f. f.now.algebra.cost ≡ cost) }
    {
        match cost {
            Cost::Weight => self.by_weights.as_ref(),
            Cost::One => self.by_arcs.as_ref(),
        }
    }

    /// Whether it is factored for the chosen algebra.
    pub(crate) fn is_factored_for(&self, chosen: AlgebraChoice) -> bool {
        match with_algebra!(chosen, |algebra| algebra.cost()) {
            Some(cost) => self.factored(cost).is_some(),
            None => false,
        }
    }

    /// Takes the factors out for arcs that cost this, if there are any.
    fn take(&mut self, cost: Cost) -> Option<FactoredGraph>
        ensures graph { self.new.roads ≡ self.old.roads }
        ensures none { IfNone result (self.new ≡ self.old) }
        ensures back { IfSome result (λ f. factored_for self.new cost ≡ self.old) }
        ensures roads { IfSome result (λ f. f.roads ≡ self.old.roads) }
        ensures cost { IfSome result (λ f. f.algebra.cost ≡ cost) }
    {
        match cost {
            Cost::Weight => self.by_weights.take(),
            Cost::One => self.by_arcs.take(),
        }
    }

    /// Takes the factors out for an algebra, if there are any.
    pub(crate) fn take_factored<A: PathAlgebra>(&mut self, algebra: A) -> Option<FactoredGraph>
        ensures graph { self.new.roads ≡ self.old.roads }
        ensures none { IfNone result (self.new ≡ self.old) }
        ensures back { IfSome result (λ f. factored_for self.new f.algebra.cost ≡ self.old) }
        ensures roads { IfSome result (λ f. f.roads ≡ self.old.roads) }
        ensures carried { IfSome result (λ f. IsCarried (A.meaning algebra) (cost_of f.algebra.cost)) }
    {
        match algebra.cost() {
            Some(cost) => self.take(cost),
            None => None,
        }
    }

    /// Puts factors in.
    pub(crate) fn put_factored(&mut self, factored: FactoredGraph)
        requires { factored.roads ≡ self.old.roads }
        ensures { self.new ≡ factored_for self.old factored.algebra.cost }
    {
        match factored.cost() {
            Cost::Weight => self.by_weights = Some(factored),
            Cost::One => self.by_arcs = Some(factored),
        }
    }

    /// Factors the graph for arcs that cost this, unless that is done.
    ///
    /// # Errors
    /// `Heavy` only if no number of low bits leaves room for both the hops and the sums; `Dense`
    /// only if some do, with counts of which one is above its bound.
    #[tactic(auto, using(crate::proofs::SameFactors::factored_again))]
    pub(crate) fn factor(&mut self, cost: Cost, stop: &Option<Stop>) -> Result<(), Unfactored>
        ensures done { OnOk result (self.new ≡ factored_for self.old cost) }
        ensures kept { OnErr result (self.new ≡ self.old) }
        ensures heavy { IfErr result (λ e. e ≡ Heavy → (k : ℕ) →
            CountsFit self.old.roads (cost_of cost) k → ⊥) }
        ensures dense { IfErr result (λ e. (c : Counts) → e ≡ Dense c →
            (k : ℕ) × CountsFit self.old.roads (cost_of cost) k) }
        ensures bounds { IfErr result (λ e. (c : Counts) → e ≡ Dense c →
            IsTooDense self.old.roads.vertices (length self.old.roads.arcs) c) }
        ensures stopped { IfErr result (λ e. e ≡ Stopped → IsSome stop.now) }
    {
        if self.factored(cost).is_some() {
            return Ok(());
        }
        let Ok(by_head) = self.by_head() else {
            return Err(Unfactored::Memory);
        };
        let factors = match RoadFactors::of(self.alloc, cost, &self.graph, &by_head, stop) {
            Ok(factors) => factors,
            Err(why) => return Err(why),
        };
        let Ok(factored) = FactoredGraph::of(self.alloc, factors) else {
            return Err(Unfactored::Memory);
        };
        self.put_factored(factored);
        Ok(())
    }

    /// The factors of the graph for arcs that cost this, by an order of its vertices.
    fn factors_by(
        &mut self,
        cost: Cost,
        order: &Order,
        stop: &Option<Stop>,
    ) -> Result<RoadFactors, Unfactored>
        requires order { length order.now.vertices.items ≡ self.old.roads.vertices }
        ensures same { self.new ≡ self.old }
        ensures roads { IfOk result (λ f. f.roads ≡ self.old.roads) }
        ensures cost { IfOk result (λ f. f.algebra.cost ≡ cost) }
        ensures order { IfOk result (λ f. f.factor.order ≡ order.now.vertices.items) }
        ensures heavy { IfErr result (λ e. e ≡ Heavy → (k : ℕ) →
            CountsFit self.old.roads (cost_of cost) k → ⊥) }
        ensures dense { IfErr result (λ e. (c : Counts) → e ≢ Dense c) }
        ensures stopped { IfErr result (λ e. e ≡ Stopped → IsSome stop.now) }
    {
        let Ok(by_head) = self.by_head() else {
            return Err(Unfactored::Memory);
        };
        let making = Making {
            links: Links::Needed,
            stop,
        };
        RoadFactors::by_order(self.alloc, cost, &self.graph, &by_head, order, making)
    }

    /// Factors the graph by an order of its vertices for arcs that cost this, in place of factors
    /// that there are.
    ///
    /// # Errors
    /// `Heavy` as of `factor`; never `Dense`.
    pub(crate) fn factor_by(
        &mut self,
        cost: Cost,
        order: &Order,
        stop: &Option<Stop>,
    ) -> Result<(), Unfactored>
        requires order { length order.now.vertices.items ≡ self.old.roads.vertices }
        ensures done { OnOk result (self.new ≡ factored_for self.old cost) }
        ensures kept { OnErr result (self.new ≡ self.old) }
        ensures heavy { IfErr result (λ e. e ≡ Heavy → (k : ℕ) →
            CountsFit self.old.roads (cost_of cost) k → ⊥) }
        ensures dense { IfErr result (λ e. (c : Counts) → e ≢ Dense c) }
        ensures stopped { IfErr result (λ e. e ≡ Stopped → IsSome stop.now) }
    {
        let factors = match self.factors_by(cost, order, stop) {
            Ok(factors) => factors,
            Err(why) => return Err(why),
        };
        let Ok(factored) = FactoredGraph::of(self.alloc, factors) else {
            return Err(Unfactored::Memory);
        };
        self.put_factored(factored);
        Ok(())
    }
}
