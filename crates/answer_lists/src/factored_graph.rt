//! A factored graph, and what asks it.
ghost use Rattle.std.specs.Prelude.{◌≡◌, ◌∷◌, [], IfOk, IfErr, IfSome, IsSome, None};
ghost use Rattle.std.specs.List.{All};
ghost use Rattle.road_graph.specs.GraphData.{HasVertex};
ghost use Rattle.path_algebra.specs.Carried.{IsCarried};
ghost use Rattle.path_algebra.specs.Counted.{cost_of};
ghost use Rattle.path_algebra.specs.Walks.{AreBest};
ghost use Rattle.route_tree.specs.Tree.{IsTree};
ghost use Rattle.route_tree.specs.Found.{IsPairFound};
ghost use Rattle.factor_routes.specs.Reweighing.{IsCause};
ghost use Rattle.factor_routes.specs.declared.reweighed.Unweighed.TheVariants.{Stopped};
ghost use Rattle.answer_lists.specs.Answers.{HasBoth};
ghost use Rattle.answer_lists.specs.Table.{AreRowCodes};
ghost use Rattle.answer_lists.specs.Tree.{HasLowCodes};

use crate::codes::{code_for, push_code};
use crate::table_rows::RowEnds;
use factor_routes::{Pair, RoadFactors, RouteAsker, Unweighed};
use halting::{Stop, is_stopped};
use path_algebra::{Cost, Labels, PathAlgebra, laws_hold};
use road_graph::{InGraph, Memory, OutGraph, Vertex};
use route_tree::{Found, Tree};
use std::alloc::{AllocError, Global};
use std::marker::Model;
use std::sync::Arc;

/// An owner of a factored graph, with an asker of its own once it was needed.
#[derive(Drop)]
pub(crate) struct FactoredGraph {
    alloc: Global,
    factors: Arc<RoadFactors>,
    asker: Option<RouteAsker>,
}

impl Model for FactoredGraph {
    ghost use Rattle.std.specs.Prelude.{◌≡◌, ℕ, IfSome};
    ghost use Rattle.std.specs.Arc.{arc_value};
    ghost use Rattle.path_algebra.specs.declared.counted_sums.CountedSums.{CountedSums};
    ghost use Rattle.path_factors.specs.State.{FactorState};

    ghost Value = { FactorState CountedSums ℕ };

    ghost view = { λ f. arc_value f.factors };

    ghost invariant = { λ f. IfSome f.asker (λ a. a.factors ≡ arc_value f.factors) };
}

impl FactoredGraph {
    /// The first owner.
    pub(crate) fn of(alloc: Global, factors: RoadFactors) -> Result<FactoredGraph, AllocError>
        ensures { IfOk result (λ f. f ≡ factors) }
    {
        let factors = Arc::new(alloc, factors).map_err(AllocError::from)?;
        Ok(FactoredGraph {
            alloc,
            factors,
            asker: None,
        })
    }

    /// One more owner, which makes its own asker.
    pub(crate) fn try_clone(&self) -> Result<FactoredGraph, AllocError>
        ensures { IfOk result (λ f. f ≡ self.now) }
    {
        let factors = Arc::try_clone(&self.factors)?;
        Ok(FactoredGraph {
            alloc: self.alloc,
            factors,
            asker: None,
        })
    }

    /// The first owner of the factors of another graph, over the same links.
    pub(crate) fn reweighed(
        &self,
        graph: &OutGraph,
        by_head: &InGraph,
        stop: &Option<Stop>,
    ) -> Result<FactoredGraph, Unweighed>
        requires { by_head.now ≡ graph.now }
        ensures roads { IfOk result (λ f. f.roads ≡ graph.now) }
        ensures cost { IfOk result (λ f. f.algebra.cost ≡ self.now.algebra.cost) }
        ensures cause { IfErr result (λ why. IsCause why graph.now self.now) }
        ensures stopped { IfErr result (λ why. why ≡ Stopped → IsSome stop.now) }
    {
        let factors = self.factors.reweighed(self.alloc, graph, by_head, stop)?;
        match FactoredGraph::of(self.alloc, factors) {
            Ok(factored) => Ok(factored),
            Err(AllocError) => Err(Unweighed::Memory),
        }
    }

    /// What an arc costs.
    pub(crate) fn cost(&self) -> Cost
        ensures { result ≡ self.now.algebra.cost }
    {
        self.factors.cost()
    }

    /// Takes the asker out, or makes it.
    fn take_asker(&mut self) -> Result<RouteAsker, Memory>
        ensures kept { self.new ≡ self.old }
        ensures asker { IfOk result (λ a. a.factors ≡ self.old) }
    {
        match self.asker.take() {
            Some(asker) => Ok(asker),
            None => self.factors.asker(self.alloc),
        }
    }

    /// Asks for the code of the best value of each target; none if the stop is set before.
    fn ask_row<A: PathAlgebra>(
        &self,
        algebra: A,
        stop: &Option<Stop>,
        asker: &mut RouteAsker,
        ends: &RowEnds<'_>,
    ) -> Result<Option<Vec<u64>>, Memory>
        requires carried { IsCarried (A.meaning algebra) (cost_of self.now.algebra.cost) }
        requires same { asker.old.factors ≡ self.now }
        requires low { HasLowCodes (A.meaning algebra) }
        requires source { HasVertex self.now.roads ends.now.source }
        requires targets { All (HasVertex self.now.roads) ends.now.targets.now }
        ensures same { asker.new.factors ≡ self.now }
        ensures row { IfOk result (λ row. IfSome row (λ row. AreRowCodes (A.meaning algebra)
            self.now.roads ends.now.targets.now ends.now.source row.items)) }
        ensures stopped { IfOk result (λ row. row ≡ None → IsSome stop.now) }
    {
        laws_hold(algebra);
        self.factors.holds();
        self.factors.begin(asker, ends.source);
        let mut row = Vec::with_capacity(self.alloc, ends.targets.len())?;
        for target in ends.targets {
            if is_stopped(stop) {
                return Ok(None);
            }
            let value = self.factors.best_value(algebra, asker, Vertex(*target))?;
            push_code(&mut row, code_for(algebra, value))?;
        }
        Ok(Some(row))
    }

    /// The codes of a row of a table; none if the stop is set before.
    pub(crate) fn row<A: PathAlgebra>(
        &mut self,
        algebra: A,
        stop: &Option<Stop>,
        ends: &RowEnds<'_>,
    ) -> Result<Option<Vec<u64>>, Memory>
        requires carried { IsCarried (A.meaning algebra) (cost_of self.old.algebra.cost) }
        requires low { HasLowCodes (A.meaning algebra) }
        requires source { HasVertex self.old.roads ends.now.source }
        requires targets { All (HasVertex self.old.roads) ends.now.targets.now }
        ensures kept { self.new ≡ self.old }
        ensures row { IfOk result (λ row. IfSome row (λ row. AreRowCodes (A.meaning algebra)
            self.old.roads ends.now.targets.now ends.now.source row.items)) }
        ensures stopped { IfOk result (λ row. row ≡ None → IsSome stop.now) }
    {
        let mut asker = self.take_asker()?;
        let row = self.ask_row(algebra, stop, &mut asker, ends);
        self.asker = Some(asker);
        row
    }

    /// The best code and the route; none if no walk to the target has a value.
    pub(crate) fn route<A: PathAlgebra>(
        &mut self,
        algebra: A,
        by_head: &InGraph,
        pair: Pair,
    ) -> Result<Option<Found>, Memory>
        requires carried { IsCarried (A.meaning algebra) (cost_of self.old.algebra.cost) }
        requires by_head { by_head.now ≡ self.old.roads }
        requires pair { HasBoth self.old.roads pair.source pair.target }
        ensures kept { self.new ≡ self.old }
        ensures found { IfOk result (IsPairFound (A.meaning algebra) self.old.roads pair.source
            pair.target) }
    {
        let mut asker = self.take_asker()?;
        let found = self
            .factors
            .find(self.alloc, algebra, by_head, &mut asker, pair);
        self.asker = Some(asker);
        found
    }

    /// The labels from some sources, and their tree; none if the stop is set before.
    pub(crate) fn tree<A: PathAlgebra>(
        &self,
        algebra: A,
        by_head: &InGraph,
        sources: &[Vertex],
        stop: &Option<Stop>,
    ) -> Result<Option<(Labels<A::Value>, Tree)>, Memory>
        requires carried { IsCarried (A.meaning algebra) (cost_of self.now.algebra.cost) }
        requires by_head { by_head.now ≡ self.now.roads }
        requires sources { All (HasVertex self.now.roads) sources.now }
        ensures labels { IfOk result (λ found. IfSome found (λ s.
            AreBest (A.meaning algebra) self.now.roads sources.now s.0)) }
        ensures tree { IfOk result (λ found. IfSome found (λ s.
            IsTree (A.meaning algebra) self.now.roads sources.now s.1)) }
        ensures stopped { IfOk result (λ found. found ≡ None → IsSome stop.now) }
    {
        self.factors
            .solve_with_tree_unless(self.alloc, algebra, by_head, sources, stop)
    }
}
