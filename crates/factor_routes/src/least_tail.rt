//! One step back along a route.
ghost use Rattle.std.specs.Prelude.{◌≡◌, ℕ, ◌<◌, ◌≤◌, All, List, Option, Some, IfOk, IfSome, IsTrue, MatchOption};
ghost use Rattle.road_graph.specs.GraphData.{HasVertex};
ghost use Rattle.path_algebra.specs.Counted.{AreBestInto, IsCountedStepOf, cost_of};
ghost use Rattle.path_algebra.specs.Walks.{IsBest, IsBestLabel};
ghost use Rattle.factor_routes.specs.Numbers.{numbers_of};
ghost use Rattle.factor_routes.specs.Tails.{adding_up, lesser, IsLeastTail};

use crate::numbers::BestNumbers;
use crate::road_factors::{RoadFactors, RouteAsker};
use road_graph::{InGraph, Memory, OutRoad, Vertex};
use route_tree::trees_exist;

/// The one with the lesser vertex, the only one, or none.
fn lesser(a: Option<(Vertex, u64)>, b: Option<(Vertex, u64)>) -> Option<(Vertex, u64)>
    ensures { result ≡ lesser a b }
{
    match (a, b) {
        (Some(x), Some(y)) => Some(if x.0.0 <= y.0.0 { x } else { y }),
        (None, y) => y,
        (x, None) => x,
    }
}

/// Whether there is a tail, and it is no greater than a vertex.
fn is_settled(least: &Option<(Vertex, u64)>, v: Vertex) -> bool
    ensures { IsTrue result → (other : Option (ℕ × ℕ)) → IfSome other (λ tail. tail.0 ≡ v) → lesser least.now other ≡ least.now }
{
    match least {
        Some(found) => found.0.0 <= v.0,
        None => false,
    }
}

impl RoadFactors {
    /// The tail of an arc and its number, if what the arc adds to it gives the number y; otherwise
    /// none. Here `road` is the arc reversed.
    fn tail_if<N: BestNumbers>(
        &self,
        numbers: &mut N,
        road: OutRoad,
        y: u64,
    ) -> Result<Option<(Vertex, u64)>, Memory>
        requires tail { HasVertex self.now.roads road.head }
        requires known { (sources : List ℕ) × N.are_best numbers.old self.now sources }
        ensures kept { (sources : List ℕ) → N.are_best numbers.old self.now sources → N.are_best
            numbers.new self.now sources }
        ensures inside { IfOk result (λ found. IfSome found (λ tail.
            HasVertex self.now.roads tail.0 × (tail.1 < y))) }
        ensures tail { IfOk result (λ found. (sources : List ℕ) (number : Option ℕ) →
            N.are_best numbers.old self.now sources →
            IsBestLabel (numbers_of self.now) self.now.roads sources road.head number →
            found ≡ adding_up (cost_of self.now.algebra.cost) self.now.algebra.bits y road number) }
    {
        self.holds();
        let Some(x) = self.number(numbers, road.head)? else {
            return Ok(None);
        };
        if x + self.added(road.weight) == y {
            Ok(Some((road.head, x)))
        } else {
            Ok(None)
        }
    }

    /// The lesser of a tail and that of an arc, if it has one as in `tail_if`. An arc from no lesser
    /// vertex is not looked at.
    fn lesser_tail<N: BestNumbers>(
        &self,
        numbers: &mut N,
        least: Option<(Vertex, u64)>,
        road: OutRoad,
        y: u64,
    ) -> Result<Option<(Vertex, u64)>, Memory>
        requires tail { HasVertex self.now.roads road.head }
        requires known { (sources : List ℕ) × N.are_best numbers.old self.now sources }
        requires inside { IfSome least (λ tail. HasVertex self.now.roads tail.0 × (tail.1 < y)) }
        ensures kept { (sources : List ℕ) → N.are_best numbers.old self.now sources → N.are_best
            numbers.new self.now sources }
        ensures inside { IfOk result (λ found. IfSome found (λ tail.
            HasVertex self.now.roads tail.0 × (tail.1 < y))) }
        ensures lesser { IfOk result (λ found. (sources : List ℕ) (number : Option ℕ) →
            N.are_best numbers.old self.now sources →
            IsBestLabel (numbers_of self.now) self.now.roads sources road.head number →
            found ≡ lesser least (adding_up (cost_of self.now.algebra.cost) self.now.algebra.bits y road number)) }
    {
        if is_settled(&least, road.head) {
            return Ok(least);
        }
        let tail = self.tail_if(numbers, road, y)?;
        Ok(lesser(least, tail))
    }

    /// The least vertex from which an arc adds up to the number y of v, and its number; none if
    /// there is no such vertex.
    pub(crate) fn least_tail<N: BestNumbers>(
        &self,
        by_head: &InGraph,
        numbers: &mut N,
        v: Vertex,
        y: u64,
    ) -> Result<Option<(Vertex, u64)>, Memory>
        requires by_head { by_head.now ≡ self.now.roads }
        requires vertex { HasVertex self.now.roads v }
        requires known { (sources : List ℕ) × N.are_best numbers.old self.now sources }
        ensures kept { (sources : List ℕ) → N.are_best numbers.old self.now sources → N.are_best
            numbers.new self.now sources }
        ensures inside { IfOk result (λ found. IfSome found (λ tail.
            HasVertex self.now.roads tail.0 × (tail.1 < y))) }
        ensures least { IfOk result (λ found. (sources : List ℕ) (number : ℕ → Option ℕ) →
            N.are_best numbers.old self.now sources →
            AreBestInto (numbers_of self.now) self.now.roads sources number v →
            IsLeastTail self.now.roads (cost_of self.now.algebra.cost) self.now.algebra.bits number v y found) }
    {
        self.holds();
        let mut least = None;
        for road in by_head.roads_into(v) {
            least = self.lesser_tail(numbers, least, *road, y)?;
        }
        Ok(least)
    }

    /// An arc adds up to each best number but 0. Nothing is computed.
    fn steps_exist(&self)
        ensures { (sources : List ℕ) → All (HasVertex self.now.roads) sources → (v y : ℕ) (number : ℕ → Option ℕ) →
            HasVertex self.now.roads v → IsBest (numbers_of self.now) self.now.roads sources v y → 0 < y →
            AreBestInto (numbers_of self.now) self.now.roads sources number v →
            (u : ℕ) × IsCountedStepOf self.now.roads (cost_of self.now.algebra.cost) self.now.algebra.bits number v y u }
    {
        self.holds();
        self.numbers_exist();
        trees_exist(self.sums);
    }

    /// The least tail for a vertex that is given with its number, which is not 0: an arc adds up to
    /// it, so the last one that is left is taken without a look. `after` has no lesser number, so
    /// no arc from there does.
    pub(crate) fn tail_before(
        &self,
        by_head: &InGraph,
        asker: &mut RouteAsker,
        at: (Vertex, u64),
        after: Vertex,
    ) -> Result<(Vertex, u64), Memory>
        requires by_head { by_head.now ≡ self.now.roads }
        requires same { asker.old.factors ≡ self.now }
        requires sources { All (HasVertex self.now.roads) asker.old.sources }
        requires vertex { HasVertex self.now.roads at.0 }
        requires number { IsBest (numbers_of self.now) self.now.roads asker.old.sources at.0 at.1 }
        requires positive { 0 < at.1 }
        requires after { (n : ℕ) → IsBest (numbers_of self.now) self.now.roads asker.old.sources after n →
            at.1 ≤ n }
        ensures same { asker.new.factors ≡ asker.old.factors }
        ensures sources { asker.new.sources ≡ asker.old.sources }
        ensures inside { IfOk result (λ tail. HasVertex self.now.roads tail.0 × (tail.1 < at.1)) }
        ensures least { IfOk result (λ tail. (number : ℕ → Option ℕ) →
            AreBestInto (numbers_of self.now) self.now.roads asker.old.sources number at.0 →
            IsLeastTail self.now.roads (cost_of self.now.algebra.cost) self.now.algebra.bits number at.0 at.1 (Some tail)) }
    {
        self.holds();
        self.numbers_exist();
        self.steps_exist();
        let (v, y) = at;
        let mut least = None;
        let mut held = None;
        for road in by_head.roads_into(v) {
            if road.head != after {
                least = self.with_held(asker, least, held, y)?;
                held = Some(*road);
            }
        }
        if let (None, Some(road)) = (least, held) {
            return Ok((road.head, y - self.added(road.weight)));
        }
        match self.with_held(asker, least, held, y)? {
            Some(tail) => Ok(tail),
            None => unreachable!(),
        }
    }

    /// The lesser of a tail and that of an arc that was held back, if there is one.
    fn with_held(
        &self,
        asker: &mut RouteAsker,
        least: Option<(Vertex, u64)>,
        held: Option<OutRoad>,
        y: u64,
    ) -> Result<Option<(Vertex, u64)>, Memory>
        requires same { asker.old.factors ≡ self.now }
        requires tail { IfSome held (λ road. HasVertex self.now.roads road.head) }
        requires inside { IfSome least (λ tail. HasVertex self.now.roads tail.0 × (tail.1 < y)) }
        ensures same { asker.new.factors ≡ asker.old.factors }
        ensures sources { asker.new.sources ≡ asker.old.sources }
        ensures inside { IfOk result (λ found. IfSome found (λ tail.
            HasVertex self.now.roads tail.0 × (tail.1 < y))) }
        ensures lesser { IfOk result (λ found. MatchOption held (found ≡ least) (λ road. (number : Option ℕ) →
            IsBestLabel (numbers_of self.now) self.now.roads asker.old.sources road.head number →
            found ≡ lesser least (adding_up (cost_of self.now.algebra.cost) self.now.algebra.bits y road number))) }
    {
        match held {
            Some(road) => self.lesser_tail(asker, least, road, y),
            None => Ok(least),
        }
    }
}
