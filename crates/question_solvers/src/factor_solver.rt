//! What the solver by factors keeps between two questions.
ghost use Rattle.std.specs.Prelude.{◌≡◌, ◌≢◌, ◌↔◌, ℕ, length, IfErr, IfOk, IfSome, IsNone, IsSome, IsTrue, None, Ok, OnOk, Some};
ghost use Rattle.std.specs.Option.{ForSome, IsSomeAnd, option_map};
ghost use Rattle.path_algebra.specs.Counted.{cost_of, CountsFit};
ghost use Rattle.elimination_order.specs.Bounds.{AreWithinBounds, IsTooDense};
ghost use Rattle.elimination_order.specs.declared.counts.Counts.{Counts};
ghost use Rattle.question_solvers.specs.declared.factor_solver.NoFactors.TheVariants.{Dense, Heavy};

use crate::order_care::links_for;
use crate::plain_solver::PlainSolver;
use elimination_order::{Care, Counts, Order};
use factor_routes::{RoadFactors, RouteAsker, Unfactored};
use path_algebra::{Cost, PathAlgebra};
use path_factors::{Links, Making};
use road_graph::{InGraph, Memory, OutGraph};
use std::alloc::Global;

/// The factors of a graph, and the lists by which they are asked for pairs.
#[derive(Drop)]
pub(crate) struct Factored {
    pub(crate) factors: RoadFactors,
    pub(crate) asker: RouteAsker,
    ghost own: { asker.factors ≡ factors },
}

impl Factored {
    /// These factors, and lists for as many vertices as their graph has.
    pub(crate) fn new(alloc: Global, factors: RoadFactors) -> Result<Factored, Memory>
        ensures { IfOk result (λ f. f.factors ≡ factors) }
    {
        let asker = factors.asker(alloc)?;
        Ok(Factored { factors, asker })
    }
}

/// Why a graph has no factors.
#[derive(Clone, Copy, Debug, PartialEq, Eq)]
pub enum NoFactors {
    /// Its factors would have too many links: what its order had counted when it was given up.
    Dense(Counts),
    /// The sums of its costs, with hops, could pass 2^63.
    Heavy,
}

/// What became of factoring a graph.
#[derive(Clone, Copy, Debug, PartialEq, Eq)]
pub enum Factoring {
    /// It has not been tried.
    Untried,
    /// The graph is factored.
    Made,
    /// The graph is not factored.
    Refused(NoFactors),
}

/// Solves a pair by asking the factors of the graph, several side by side, and another question by
/// two sweeps over them. The graph is factored when the first task begins, by the order of its
/// vertices that is given, or else by one that is found then and kept. If it is too dense or too
/// heavy, the plain solver in it answers.
#[derive(Drop)]
pub struct FactorSolver<A: PathAlgebra> {
    pub(crate) plain: PlainSolver<A>,
    /// The order by which the graph is factored, once it is given or found.
    pub(crate) order: Option<Order>,
    /// Which links the factors keep.
    pub(crate) links: Links,
    /// The factors by that order, once they are made.
    pub(crate) factored: Option<Factored>,
    /// For which costs the graph is not factored, and why.
    pub(crate) refused: Option<(Cost, NoFactors)>,
    ghost each: { ForSome order (λ o. length o.vertices.items ≡ plain.graph.vertices) },
    ghost ordered: { ForSome factored (λ f. option_map (λ o. o.vertices.items) order ≡ Some f.factors.factor.order) },
    ghost of_graph: { ForSome factored (λ f. f.factors.roads ≡ plain.graph) },
    ghost heavy: { ForSome refused (λ r. r.1 ≡ Heavy → (k : ℕ) → CountsFit plain.graph (cost_of r.0) k → ⊥) },
    ghost dense: { ForSome refused (λ r. (c : Counts) → r.1 ≡ Dense c → IsTooDense plain.graph.vertices (length plain.graph.arcs) c) },
}

impl<A: PathAlgebra> FactorSolver<A> {
    ghost use Rattle.road_graph.specs.GraphData.{IsGraph};
    ghost use Rattle.question_solvers.specs.Solvers.{IsFactoringBy, IsToldRightly};

    /// The solver over a graph, which is not factored yet, and later by an order of its vertices if
    /// one is given.
    pub fn new(alloc: Global, graph: OutGraph, order: Option<Order>) -> Self
        requires { IfSome order (λ o. length o.vertices.items ≡ graph.vertices) }
        ensures graph { result.plain.graph ≡ graph }
        ensures order { result.order ≡ order }
    {
        FactorSolver {
            plain: PlainSolver::new(alloc, graph),
            order,
            links: Links::Needed,
            factored: None,
            refused: None,
        }
    }

    /// How many vertices the graph has.
    pub fn vertices(&self) -> u32
        ensures count { result ≡ self.now.plain.graph.vertices }
        ensures graph { IsGraph self.now.plain.graph }
    {
        self.plain.vertices()
    }

    /// What became of factoring the graph.
    pub fn factoring(&self) -> Factoring
        ensures made { (result ≡ Factoring.Made) ↔ IsSome self.now.factored }
        ensures refused { (why : NoFactors) → (result ≡ Factoring.Refused why) ↔
            (IsNone self.now.factored × IsSomeAnd self.now.refused (λ r. r.1 ≡ why)) }
        ensures by { IsFactoringBy self.now result }
        ensures told { IsToldRightly self.now.plain.graph result }
    {
        match (&self.factored, self.refused) {
            (Some(factored), _) => {
                factored.factors.holds();
                Factoring::Made
            }
            (None, Some((_, why))) => Factoring::Refused(why),
            (None, None) => Factoring::Untried,
        }
    }

    /// Whether the graph is not factored for what arcs cost.
    fn is_refused(&self, cost: Cost) -> bool
        ensures { IsTrue result ↔ IsSomeAnd self.now.refused (λ r. r.0 ≡ cost) }
    {
        match self.refused {
            Some((refused, _)) => refused == cost,
            None => false,
        }
    }

    /// Seeks an order by which to factor the graph for what arcs cost, unless there is one, or the
    /// graph was refused: what the order makes, if one is found. The only error is want of memory.
    pub(crate) fn seek_order(
        &mut self,
        alloc: Global,
        cost: Cost,
        care: Option<Care>,
    ) -> Result<Option<Counts>, Memory>
        requires { IsSome self.old.plain.by_head }
        ensures plain { self.new.plain ≡ self.old.plain }
        ensures factored { self.new.factored ≡ self.old.factored }
        ensures known { IsSome self.old.order → (self.new.order ≡ self.old.order) × (result ≡ Ok None) }
        ensures within { IfOk result (λ found. IfSome found (AreWithinBounds
            self.old.plain.graph.vertices (length self.old.plain.graph.arcs))) }
        ensures refused { OnOk result (IsNone self.new.order →
            IsSomeAnd self.new.refused (λ r. r.0 ≡ cost)) }
    {
        if self.order.is_some() || self.is_refused(cost) {
            return Ok(None);
        }
        let plain = &self.plain;
        let Some(by_head) = &plain.by_head else {
            unreachable!()
        };
        match RoadFactors::seek_order(alloc, cost, &plain.graph, by_head, care, &None) {
            Ok((order, counts)) => {
                self.links = links_for(care);
                self.order = Some(order);
                return Ok(Some(counts));
            }
            Err(Unfactored::Memory) => return Err(Memory),
            Err(Unfactored::Dense(counts)) => self.refused = Some((cost, NoFactors::Dense(counts))),
            Err(Unfactored::Heavy) => self.refused = Some((cost, NoFactors::Heavy)),
            Err(Unfactored::Stopped) => unreachable!(),
        }
        Ok(None)
    }

    /// Factors the graph for what arcs cost, unless it is so already, or was refused. If there is
    /// no order, one is found fast: how many questions will come is not known. The only error is
    /// want of memory.
    pub(crate) fn factor(&mut self, alloc: Global, cost: Cost) -> Result<(), Memory>
        requires { IsSome self.old.plain.by_head }
        ensures graph { self.new.plain.graph ≡ self.old.plain.graph }
        ensures order { IsSome self.old.order → self.new.order ≡ self.old.order }
        ensures rows { self.new.plain.by_head ≡ self.old.plain.by_head }
        ensures searched { self.new.plain.searched ≡ self.old.plain.searched }
        ensures pool { self.new.plain.pool ≡ self.old.plain.pool }
        ensures cost { OnOk result (IfSome self.new.factored (λ f. f.factors.algebra.cost ≡ cost)) }
        ensures refused { OnOk result (IsNone self.new.factored →
            IsSomeAnd self.new.refused (λ r. r.0 ≡ cost)) }
    {
        if let Some(factored) = &self.factored {
            if factored.factors.cost() == cost {
                return Ok(());
            }
        }
        self.factored = None;
        let _ = self.seek_order(alloc, cost, Some(Care::Fast))?;
        if self.is_refused(cost) {
            return Ok(());
        }
        let plain = &self.plain;
        let (Some(by_head), Some(order)) = (&plain.by_head, &self.order) else {
            unreachable!()
        };
        let (links, stop) = (self.links, &None);
        let making = Making { links, stop };
        match RoadFactors::by_order(alloc, cost, &plain.graph, by_head, order, making) {
            Ok(factors) => {
                let factored = Factored::new(alloc, factors)?;
                self.factored = Some(factored);
            }
            Err(Unfactored::Memory) => return Err(Memory),
            Err(Unfactored::Dense(_) | Unfactored::Stopped) => unreachable!(),
            Err(Unfactored::Heavy) => self.refused = Some((cost, NoFactors::Heavy)),
        }
        Ok(())
    }
}
