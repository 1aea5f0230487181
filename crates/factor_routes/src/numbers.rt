//! Where the best numbers of vertices come from.
ghost use Rattle.std.specs.Prelude.{◌≡◌, ℕ, List, All, Option, IfOk};
ghost use Rattle.road_graph.specs.GraphData.{HasVertex};
ghost use Rattle.path_algebra.specs.Walks.{AreBest, IsBestLabel};
ghost use Rattle.path_algebra.specs.declared.counted_sums.CountedSums.{CountedSums};
ghost use Rattle.path_factors.specs.State.{FactorState};
ghost use Rattle.factor_routes.specs.Numbers.{numbers_of};

use crate::road_factors::RoadFactors;
use path_algebra::{CountedSums, Labels};
use path_factors::{Asker, Factors};
use path_plain::best_values_exist;
use road_graph::{Memory, Vertex};

/// Best numbers from some sources, of all vertices or of those that are asked for.
pub(crate) trait BestNumbers {
    // They are best in a factored graph, from these sources.
    ghost are_best: { Self → FactorState CountedSums ℕ → List ℕ → Type 0 };

    /// The best number of a vertex over all walks from the sources, and none if there is no walk.
    fn number(&mut self, factors: &Factors<CountedSums>, v: Vertex) -> Result<Option<u64>, Memory>
        requires known { (sources : List ℕ) × are_best self.old factors.now sources }
        requires vertex { HasVertex factors.now.roads v }
        ensures kept { (sources : List ℕ) → are_best self.old factors.now sources → are_best
            self.new factors.now sources }
        ensures best { IfOk result (λ number. (sources : List ℕ) → are_best self.old factors.now sources →
            IsBestLabel (numbers_of factors.now) factors.now.roads sources v number) };
}

impl BestNumbers for Labels<u64> {
    ghost are_best = { λ labels f sources. AreBest (numbers_of f) f.roads sources labels };

    fn number(
        &mut self,
        _factors: &Factors<CountedSums>,
        v: Vertex,
    ) -> Result<Option<u64>, Memory> {
        Ok(self.of(v))
    }
}

impl BestNumbers for Asker<CountedSums> {
    ghost are_best = { λ asker f sources. (asker.factors ≡ f) × (asker.sources ≡ sources) };

    fn number(&mut self, factors: &Factors<CountedSums>, v: Vertex) -> Result<Option<u64>, Memory> {
        self.label(factors, v)
    }
}

impl RoadFactors {
    /// Best numbers exist, from every list of vertices. Nothing is computed.
    pub(crate) fn numbers_exist(&self)
        ensures { (sources : List ℕ) → All (HasVertex self.now.roads) sources →
            (numbers : List (Option ℕ)) × AreBest (numbers_of self.now) self.now.roads sources numbers }
    {
        self.holds();
        best_values_exist(self.sums);
    }

    /// The best number of a vertex over all walks from the sources, and none if there is no walk.
    pub(crate) fn number<N: BestNumbers>(
        &self,
        numbers: &mut N,
        v: Vertex,
    ) -> Result<Option<u64>, Memory>
        requires known { (sources : List ℕ) × N.are_best numbers.old self.now sources }
        requires vertex { HasVertex self.now.roads v }
        ensures kept { (sources : List ℕ) → N.are_best numbers.old self.now sources → N.are_best
            numbers.new self.now sources }
        ensures best { IfOk result (λ number. (sources : List ℕ) → N.are_best numbers.old self.now sources →
            IsBestLabel (numbers_of self.now) self.now.roads sources v number) }
    {
        numbers.number(&self.factors, v)
    }
}
