//! A walk at a link for each arc of the graph, before any place is eliminated.
ghost use Rattle.std.specs.Prelude.{◌≡◌, ℕ, ◌<◌, ◌⊎◌, IfErr, IsSome, OnOk, length, true};
ghost use Rattle.road_graph.specs.GraphData.{HasVertex};
ghost use Rattle.path_factors.specs.Asking.{is_on};
ghost use Rattle.path_factors.specs.Factors.{place_of};
ghost use Rattle.path_factors.specs.Eliminating.{CoversArcsFrom, CoversArcsOn, Improves, IsWorthUnder, KeepsRest, LeadsOn};
ghost use Rattle.path_factors.specs.Heads.{IsHead, IsJoined, heads_in};
ghost use Rattle.path_factors.specs.State.{IsSameState};
ghost use Rattle.halting.specs.declared.unfinished.Unfinished.TheVariants.{Halted};

use crate::weighing::Weighing;
use halting::{Stop, Unfinished, look_at};
use path_algebra::ComposingAlgebra;
use road_graph::{OutRoad, Vertex};

impl<'g, A: ComposingAlgebra> Weighing<'g, A> {
    /// The place of a vertex.
    fn place(&self, v: Vertex) -> u32
        requires { HasVertex self.now.roads v }
        ensures place { result ≡ place_of self.now.factor v }
        ensures inside { result < self.now.roads.vertices }
    {
        self.places[v.0 as usize - 1]
    }

    /// Puts a walk at the link for a road from a vertex, if the lesser place is marked, unless there
    /// is one no worse.
    fn add(&mut self, tail: Vertex, road: OutRoad, marks: &[bool])
        requires tail { HasVertex self.old.roads tail }
        requires head { HasVertex self.old.roads road.head }
        requires joined { IsJoined (IsHead (heads_in self.old.factor.leaving))
            (place_of self.old.factor tail) (place_of self.old.factor road.head) }
        requires worth { (z : ℕ) → (z ≡ place_of self.old.factor tail) ⊎ (z ≡ place_of self.old.factor road.head) →
            IsWorthUnder (A.meaning self.old.algebra) (A.walks self.old.algebra) self.old.roads
            (heads_in self.old.factor.leaving) self.old.factor.places z tail road.head
            ((A.walks self.old.algebra).of_arc road.weight) }
        requires marks { length marks.now ≡ self.old.roads.vertices }
        ensures same { IsSameState self.old self.new }
        ensures improves { Improves (A.walks self.old.algebra) 0 self.old.factor
            self.new.factor }
        ensures rest { KeepsRest (λ z. is_on marks.now z ≡ true) self.old.factor self.new.factor }
        ensures leads { (tail ≡ road.head → ⊥) → LeadsOn (A.walks self.old.algebra) marks.now
            self.old.factor.places self.new.factor tail road.head
            ((A.walks self.old.algebra).of_arc road.weight) }
    {
        self.holds();
        let (x, y) = (self.place(tail), self.place(road.head));
        if marks[x.min(y) as usize] {
            let there = self.algebra.of_arc(road.weight);
            self.connect(x, y, there, self.algebra.no_walk());
        }
    }

    /// Puts a walk at the link for each arc that leaves a vertex, if the lesser place is marked.
    fn load_from(&mut self, tail: Vertex, marks: &[bool])
        requires tail { HasVertex self.old.roads tail }
        requires marks { length marks.now ≡ self.old.roads.vertices }
        ensures same { IsSameState self.old self.new }
        ensures improves { Improves (A.walks self.old.algebra) 0 self.old.factor
            self.new.factor }
        ensures rest { KeepsRest (λ z. is_on marks.now z ≡ true) self.old.factor self.new.factor }
        ensures covers { CoversArcsFrom (A.walks self.old.algebra) marks.now self.old.roads
            self.old.factor.places self.new.factor tail }
    {
        self.holds();
        let graph = self.graph;
        for road in graph.roads_from(tail) {
            self.add(tail, *road, marks);
        }
    }

    /// Puts a walk at the link for each arc, if the lesser place is marked.
    pub(crate) fn load(&mut self, marks: &[bool], stop: &Option<Stop>) -> Result<(), Unfinished>
        requires { length marks.now ≡ self.old.roads.vertices }
        ensures same { OnOk result (IsSameState self.old self.new) }
        ensures improves { OnOk result (Improves (A.walks self.old.algebra) 0 self.old.factor
            self.new.factor) }
        ensures rest { OnOk result (KeepsRest (λ z. is_on marks.now z ≡ true) self.old.factor
            self.new.factor) }
        ensures covers { OnOk result (CoversArcsOn (A.walks self.old.algebra) marks.now
            self.old.roads self.new.factor) }
        ensures halts { IfErr result (λ e. e ≡ Halted → IsSome stop.now) }
    {
        self.holds();
        for i in 0..self.graph.vertices() {
            look_at(stop)?;
            self.load_from(Vertex(i + 1), marks);
        }
        Ok(())
    }
}
