//! Best values of all vertices, with their hops and parents.
ghost use Rattle.std.specs.Prelude.{◌≡◌, ℕ, ◌<◌, List, All, IfOk, IfSome, IsSome, None, option_map};
ghost use Rattle.road_graph.specs.GraphData.{HasVertex};
ghost use Rattle.path_algebra.specs.Carried.{IsCarried};
ghost use Rattle.path_algebra.specs.Counted.{cost_of};
ghost use Rattle.path_algebra.specs.Walks.{AreBest};
ghost use Rattle.route_tree.specs.Told.{IsToldOf};
ghost use Rattle.route_tree.specs.Tree.{IsTree};
ghost use Rattle.factor_routes.specs.Numbers.{numbers_of};

use crate::findings::{Finding, Findings};
use crate::road_factors::RoadFactors;
use halting::{Halt, Stop};
use path_algebra::{Labels, PathAlgebra};
use path_plain::best_values_exist;
use road_graph::{InGraph, Memory, Vertex};
use route_tree::{NumberSlot, Tree, trees_exist};
use std::alloc::Global;

/// The vertex, without its number.
fn vertex_slot(tail: Option<(Vertex, u64)>) -> NumberSlot
    requires { IfSome tail (λ t. t.0 < 4294967295) }
    ensures { result ≡ option_map (λ t. t.0) tail }
{
    match tail {
        Some(tail) => NumberSlot::some(tail.0.0),
        None => NumberSlot::none(),
    }
}

impl RoadFactors {
    /// The best number of each vertex; none if the stop is set before.
    fn numbers(
        &self,
        alloc: Global,
        sources: &[Vertex],
        stop: &Option<Stop>,
    ) -> Result<Option<Labels<u64>>, Memory>
        requires { All (HasVertex self.now.roads) sources.now }
        ensures best { IfOk result (λ found. IfSome found (λ numbers.
            AreBest (numbers_of self.now) self.now.roads sources.now numbers)) }
        ensures stopped { IfOk result (λ found. found ≡ None → IsSome stop.now) }
    {
        self.factors.solve_unless(alloc, sources, stop)
    }

    /// What the best numbers say of a vertex.
    fn finding<A: PathAlgebra>(
        &self,
        algebra: A,
        by_head: &InGraph,
        numbers: &mut Labels<u64>,
        v: Vertex,
    ) -> Result<Finding<A::Value>, Memory>
        requires by_head { by_head.now ≡ self.now.roads }
        requires carried { IsCarried (A.meaning algebra) (cost_of self.now.algebra.cost) }
        requires vertex { HasVertex self.now.roads v }
        requires known { (sources : List ℕ) × AreBest (numbers_of self.now) self.now.roads sources numbers.old }
        ensures kept { (sources : List ℕ) → AreBest (numbers_of self.now) self.now.roads sources numbers.old →
            AreBest (numbers_of self.now) self.now.roads sources numbers.new }
        ensures told { IfOk result (λ finding. (sources : List ℕ) → All (HasVertex self.now.roads) sources →
            AreBest (numbers_of self.now) self.now.roads sources numbers.old →
            IsToldOf (A.meaning algebra) self.now.roads sources v finding.value finding.hops finding.parent) }
    {
        self.holds();
        best_values_exist(algebra);
        trees_exist(algebra);
        let none = Finding {
            value: None,
            hops: NumberSlot::none(),
            parent: NumberSlot::none(),
        };
        let Some(y) = numbers.of(v) else {
            return Ok(none);
        };
        let Some(value) = self.value_in(algebra, y) else {
            return Ok(none);
        };
        let tail = self.least_tail(by_head, numbers, v, y)?;
        Ok(Finding {
            value: Some(value),
            hops: NumberSlot::some(self.hops_in(y)),
            parent: vertex_slot(tail),
        })
    }

    /// The best value of each vertex over all walks from some source of the list, and none if no
    /// walk has a value; with the tree of these values. Sources may repeat. The only error is
    /// `Memory`.
    ///
    /// It takes two sweeps over the factors, and one pass over the arcs.
    pub fn solve_with_tree<A: PathAlgebra>(
        &self,
        alloc: Global,
        algebra: A,
        by_head: &InGraph,
        sources: &[Vertex],
    ) -> Result<(Labels<A::Value>, Tree), Memory>
        requires by_head { by_head.now ≡ self.now.roads }
        requires carried { IsCarried (A.meaning algebra) (cost_of self.now.algebra.cost) }
        requires sources { All (HasVertex self.now.roads) sources.now }
        ensures labels { IfOk result (λ s. AreBest (A.meaning algebra) self.now.roads sources.now s.0) }
        ensures tree { IfOk result (λ s. IsTree (A.meaning algebra) self.now.roads sources.now s.1) }
    {
        match self.solve_with_tree_unless(alloc, algebra, by_head, sources, &None)? {
            Some(solved) => Ok(solved),
            None => unreachable!(),
        }
    }

    /// The same, or none if the stop is set before: it is looked at once in a thousand vertices.
    pub fn solve_with_tree_unless<A: PathAlgebra>(
        &self,
        alloc: Global,
        algebra: A,
        by_head: &InGraph,
        sources: &[Vertex],
        stop: &Option<Stop>,
    ) -> Result<Option<(Labels<A::Value>, Tree)>, Memory>
        requires by_head { by_head.now ≡ self.now.roads }
        requires carried { IsCarried (A.meaning algebra) (cost_of self.now.algebra.cost) }
        requires sources { All (HasVertex self.now.roads) sources.now }
        ensures labels { IfOk result (λ found. IfSome found (λ s.
            AreBest (A.meaning algebra) self.now.roads sources.now s.0)) }
        ensures tree { IfOk result (λ found. IfSome found (λ s.
            IsTree (A.meaning algebra) self.now.roads sources.now s.1)) }
        ensures stopped { IfOk result (λ found. found ≡ None → IsSome stop.now) }
    {
        self.holds();
        let Some(mut numbers) = self.numbers(alloc, sources, stop)? else {
            return Ok(None);
        };
        let mut halt = Halt::by(stop);
        let mut findings = Findings::new(alloc, by_head.vertices() as usize)?;
        for i in 0..by_head.vertices() {
            if halt.is_due() {
                return Ok(None);
            }
            let finding = self.finding(algebra, by_head, &mut numbers, Vertex(i + 1))?;
            findings.push(finding)?;
        }
        Ok(Some(findings.into_labels_and_tree()))
    }
}
