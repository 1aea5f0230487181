//! A road graph that is factored for numbers that carry hops.
ghost use Rattle.std.specs.Prelude.{◌≡◌, ◌≢◌, ℕ, length, IfOk, IfErr, IsSome};
ghost use Rattle.road_graph.specs.GraphData.{IsGraph};
ghost use Rattle.path_algebra.specs.Counted.{cost_of, CountsFit};
ghost use Rattle.elimination_order.specs.Found.{IsOrderedOn};
ghost use Rattle.elimination_order.specs.Bounds.{AreWithinBounds, IsTooDense};
ghost use Rattle.elimination_order.specs.declared.counts.Counts.{Counts};
ghost use Rattle.factor_routes.specs.declared.road_factors.Unfactored.TheVariants.{Dense, Heavy, Stopped};
ghost use Rattle.halting.specs.declared.unfinished.Unfinished.TheVariants.{Halted};

use crate::fitting::fitting_sums;
use elimination_order::{
    Care, Counts, Order, Ordered, approximate_minimum_degree, nested_dissection,
};
use halting::{Stop, Unfinished};
use path_algebra::{Cost, CountedSums};
use path_factors::{Asker, Factors, Links, Making};
use road_graph::{InGraph, Memory, OutGraph};
use std::alloc::Global;
use std::marker::Model;

/// Why a graph is not factored.
#[derive(Clone, Copy, Debug, PartialEq, Eq)]
pub enum Unfactored {
    /// Memory was refused.
    Memory,
    /// Its factors would have too many links: what its order had counted when it was given up.
    Dense(Counts),
    /// The sums of its costs, with hops, could pass 2^63.
    Heavy,
    /// The stop was set before.
    Stopped,
}

/// An order by nested dissection with this care, or else by approximate minimum degree.
fn ordered(
    alloc: Global,
    graph: &OutGraph,
    care: Option<Care>,
    stop: &Option<Stop>,
) -> Result<Ordered, Unfinished>
    ensures order { IfOk result (IsOrderedOn graph.now care) }
    ensures halts { IfErr result (λ e. e ≡ Halted → IsSome stop.now) }
{
    match care {
        Some(care) => nested_dissection(alloc, graph, care, stop),
        None => Ok(approximate_minimum_degree(alloc, graph)?),
    }
}

/// What is asked of a factored graph vertex by vertex, from one source after another. It is made
/// once, and then takes no time or memory for the vertices that are not asked for.
pub type RouteAsker = Asker<CountedSums>;

/// A factored graph, from which least sums of costs are found with their hops and parents. It
/// serves every algebra whose values are such sums.
#[derive(Drop)]
pub struct RoadFactors {
    pub(crate) sums: CountedSums,
    pub(crate) factors: Factors<CountedSums>,
}

impl Model for RoadFactors {
    ghost use Rattle.std.specs.Prelude.{◌≡◌, ℕ};
    ghost use Rattle.path_algebra.specs.Counted.{cost_of, CountsFit};
    ghost use Rattle.path_algebra.specs.declared.counted_sums.CountedSums.{CountedSums};
    ghost use Rattle.path_factors.specs.State.{FactorState};

    ghost Value = { FactorState CountedSums ℕ };

    ghost view = { λ f. f.factors };

    ghost invariant = { λ f. (f.factors.algebra ≡ f.sums) × CountsFit f.factors.roads (cost_of f.sums.cost) f.sums.bits };
}

impl RoadFactors {
    /// An order of elimination for factors of a graph, and the counts of what it makes; that they
    /// are those of this order is not claimed. It is by nested dissection with this care, or else by
    /// approximate minimum degree. `by_head` is the same graph, with its arcs by head.
    ///
    /// # Errors
    /// As of `of`.
    pub fn seek_order(
        alloc: Global,
        cost: Cost,
        graph: &OutGraph,
        by_head: &InGraph,
        care: Option<Care>,
        stop: &Option<Stop>,
    ) -> Result<(Order, Counts), Unfactored>
        requires { by_head.now ≡ graph.now }
        ensures each { IfOk result (λ found. length found.0.vertices.items ≡ graph.now.vertices) }
        ensures within { IfOk result (λ found. AreWithinBounds graph.now.vertices
            (length graph.now.arcs) found.1) }
        ensures heavy { IfErr result (λ e. e ≡ Heavy → (k : ℕ) → CountsFit graph.now (cost_of cost) k → ⊥) }
        ensures dense { IfErr result (λ e. (c : Counts) → e ≡ Dense c → (k : ℕ) ×
            CountsFit graph.now (cost_of cost) k) }
        ensures bounds { IfErr result (λ e. (c : Counts) → e ≡ Dense c →
            IsTooDense graph.now.vertices (length graph.now.arcs) c) }
        ensures stopped { IfErr result (λ e. e ≡ Stopped → IsSome stop.now) }
    {
        let Some(_) = fitting_sums(cost, by_head) else {
            return Err(Unfactored::Heavy);
        };
        let Ordered { order, counts } = match ordered(alloc, graph, care, stop) {
            Ok(ordered) => ordered,
            Err(Unfinished::Memory) => return Err(Unfactored::Memory),
            Err(Unfinished::Halted) => return Err(Unfactored::Stopped),
        };
        match order {
            Some(found) => Ok((found.into_order(), counts)),
            None => Err(Unfactored::Dense(counts)),
        }
    }

    /// The factors of a graph by an order of its vertices, with all of their links or those needed.
    /// Any order gives the same answers, a good one few links. `by_head` is the same graph, with its arcs by head.
    ///
    /// # Errors
    /// `Heavy` and `Stopped` as of `of`; never `Dense`.
    pub fn by_order(
        alloc: Global,
        cost: Cost,
        graph: &OutGraph,
        by_head: &InGraph,
        order: &Order,
        making: Making<'_>,
    ) -> Result<RoadFactors, Unfactored>
        requires same { by_head.now ≡ graph.now }
        requires order { length order.now.vertices.items ≡ graph.now.vertices }
        ensures roads { IfOk result (λ f. f.roads ≡ graph.now) }
        ensures cost { IfOk result (λ f. f.algebra.cost ≡ cost) }
        ensures order { IfOk result (λ f. f.factor.order ≡ order.now.vertices.items) }
        ensures heavy { IfErr result (λ e. e ≡ Heavy → (k : ℕ) → CountsFit graph.now (cost_of cost) k → ⊥) }
        ensures dense { IfErr result (λ e. (c : Counts) → e ≢ Dense c) }
        ensures stopped { IfErr result (λ e. e ≡ Stopped → IsSome making.entry.stop.now) }
    {
        let Some(sums) = fitting_sums(cost, by_head) else {
            return Err(Unfactored::Heavy);
        };
        match Factors::by_order(alloc, sums, graph, order, making) {
            Ok(factors) => Ok(RoadFactors { sums, factors }),
            Err(Unfinished::Memory) => Err(Unfactored::Memory),
            Err(Unfinished::Halted) => Err(Unfactored::Stopped),
        }
    }

    /// The factors of a graph for the sums of these costs, by an order that nested dissection finds
    /// fast. `by_head` is the same graph, with its arcs by head.
    ///
    /// # Errors
    /// `Heavy` only if no number of low bits leaves room for both the hops and the sums; `Dense`
    /// only if some do, with counts of which one is above its bound; `Stopped` only if there is a
    /// stop. It is looked at all the time.
    pub fn of(
        alloc: Global,
        cost: Cost,
        graph: &OutGraph,
        by_head: &InGraph,
        stop: &Option<Stop>,
    ) -> Result<RoadFactors, Unfactored>
        requires { by_head.now ≡ graph.now }
        ensures roads { IfOk result (λ f. f.roads ≡ graph.now) }
        ensures cost { IfOk result (λ f. f.algebra.cost ≡ cost) }
        ensures heavy { IfErr result (λ e. e ≡ Heavy → (k : ℕ) → CountsFit graph.now (cost_of cost) k → ⊥) }
        ensures dense { IfErr result (λ e. (c : Counts) → e ≡ Dense c → (k : ℕ) ×
            CountsFit graph.now (cost_of cost) k) }
        ensures bounds { IfErr result (λ e. (c : Counts) → e ≡ Dense c →
            IsTooDense graph.now.vertices (length graph.now.arcs) c) }
        ensures stopped { IfErr result (λ e. e ≡ Stopped → IsSome stop.now) }
    {
        let care = Some(Care::Fast);
        let (order, _) = RoadFactors::seek_order(alloc, cost, graph, by_head, care, stop)?;
        let links = Links::Needed;
        RoadFactors::by_order(alloc, cost, graph, by_head, &order, Making { links, stop })
    }

    /// What holds of every factored graph. Nothing is computed.
    pub fn holds(&self)
        ensures roads { IsGraph self.now.roads }
        ensures fits { CountsFit self.now.roads (cost_of self.now.algebra.cost) self.now.algebra.bits }
    {
        self.factors.holds();
    }

    /// What an arc costs.
    pub fn cost(&self) -> Cost
        ensures { result ≡ self.now.algebra.cost }
    {
        self.sums.cost
    }

    /// An asker for this graph, without a source.
    pub fn asker(&self, alloc: Global) -> Result<RouteAsker, Memory>
        ensures { IfOk result (λ asker. asker.factors ≡ self.now) }
    {
        Asker::new(alloc, &self.factors)
    }
}
