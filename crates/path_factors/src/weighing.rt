//! Walks are put at the links of an outline: what makes a factor of a graph.
ghost use Rattle.std.specs.Prelude.{◌≡◌, ℕ, ◌+◌, ◌<◌, ◌≤◌, ◌⊎◌, IfErr, IsSome, OnOk, length, slice_index, true};
ghost use Rattle.road_graph.specs.GraphData.{IsGraph};
ghost use Rattle.path_algebra.specs.Composition.{IsComposition};
ghost use Rattle.path_factors.specs.declared.edge.Edge.{Edge};
ghost use Rattle.path_factors.specs.Asking.{is_on};
ghost use Rattle.path_factors.specs.Factors.{row_of, LeadsNoWorse};
ghost use Rattle.path_factors.specs.Edges.{AreAligned, IsEdgeAt, AreJoined};
ghost use Rattle.path_factors.specs.Eliminating.{IsBegun, Improves, IsClosedOn, IsLesser, IsLinkUnder, KeepsRest};
ghost use Rattle.path_factors.specs.Heads.{AreAhead, IsHead, IsJoined, IsOutline, heads_in};
ghost use Rattle.path_factors.specs.State.{IsSameState};
ghost use Rattle.halting.specs.declared.unfinished.Unfinished.TheVariants.{Halted};

use crate::edge::Edge;
use crate::heads::{position, seek};
use crate::packed::PackedRows;
use elimination_order::Order;
use halting::{Stop, Unfinished, look_at};
use path_algebra::{ComposingAlgebra, composition_holds};
use road_graph::OutGraph;
use std::marker::Model;
use std::snapshot::Snapshot;
use std::sync::Arc;

/// A factor in the making, with an edge wherever elimination needs one: its links are worth walks
/// of the graph, and are closed at the places that are eliminated.
#[derive(Drop)]
pub(crate) struct Weighing<'g, A: ComposingAlgebra> {
    pub(crate) algebra: A,
    pub(crate) graph: &'g OutGraph,
    pub(crate) order: Arc<Snapshot<Order>>,
    pub(crate) places: Vec<u32>,
    pub(crate) rows: PackedRows<A::Walk>,
}

impl<'g, A: ComposingAlgebra> Model for Weighing<'g, A> {
    ghost use Rattle.std.specs.Arc.{arc_value};
    ghost use Rattle.path_factors.specs.Eliminating.{IsBegun};
    ghost use Rattle.path_factors.specs.Heads.{IsOutline, heads_in};
    ghost use Rattle.path_factors.specs.State.{FactorState};

    ghost Value = { FactorState A A.Walk };

    ghost view = { λ f. record { algebra = f.algebra; roads = f.graph.now; factor = record { order = (arc_value f.order).value.vertices.items; places = f.places.items; leaving = f.rows.leaving; entering = f.rows.entering }; heads = heads_in f.rows.leaving } };

    ghost invariant = { λ f.
        IsBegun (A.meaning f.algebra) (A.walks f.algebra) f.graph.now (record { order = (arc_value f.order).value.vertices.items; places = f.places.items; leaving = f.rows.leaving; entering = f.rows.entering })
        × IsOutline f.graph.now f.places.items (heads_in f.rows.leaving) };
}

impl<'g, A: ComposingAlgebra> Weighing<'g, A> {
    /// Makes both links of an edge of a place no worse than these walks; `j` is its index.
    fn improve(&mut self, x: usize, j: usize, edge: Edge<A::Walk>)
        requires from { x < self.old.roads.vertices }
        requires index { j < length (row_of (heads_in self.old.factor.leaving) x) }
        requires head { slice_index (row_of (heads_in self.old.factor.leaving) x) j ≡ edge.place }
        requires leaving { IsLinkUnder (A.meaning self.old.algebra) (A.walks self.old.algebra)
            self.old.roads self.old.factor x x edge.place edge.leaving }
        requires entering { IsLinkUnder (A.meaning self.old.algebra) (A.walks self.old.algebra)
            self.old.roads self.old.factor x edge.place x edge.entering }
        ensures same { IsSameState self.old self.new }
        ensures rest { KeepsRest (λ i. i ≡ x) self.old.factor self.new.factor }
        ensures improves { (low : ℕ) → low ≤ x →
            Improves (A.walks self.old.algebra) low self.old.factor self.new.factor }
        ensures leaving { LeadsNoWorse (A.walks self.old.algebra) self.new.factor x
            edge.place edge.leaving }
        ensures entering { LeadsNoWorse (A.walks self.old.algebra) self.new.factor
            edge.place x edge.entering }
    {
        let algebra = self.algebra;
        composition_holds(algebra);
        self.rows.improve(algebra, x, j, edge);
    }

    /// Makes the links from one place to another and back no worse than these walks. From a place
    /// to itself none is needed.
    pub(crate) fn connect(&mut self, x: u32, y: u32, there: A::Walk, back: A::Walk)
        requires from { x < self.old.roads.vertices }
        requires to { y < self.old.roads.vertices }
        requires joined { IsJoined (IsHead (heads_in self.old.factor.leaving)) x y }
        requires there { (z : ℕ) → (z ≡ x) ⊎ (z ≡ y) → IsLinkUnder (A.meaning self.old.algebra)
            (A.walks self.old.algebra) self.old.roads self.old.factor z x y there }
        requires back { (z : ℕ) → (z ≡ x) ⊎ (z ≡ y) → IsLinkUnder (A.meaning self.old.algebra)
            (A.walks self.old.algebra) self.old.roads self.old.factor z y x back }
        ensures same { IsSameState self.old self.new }
        ensures rest { KeepsRest (IsLesser x y) self.old.factor self.new.factor }
        ensures improves { Improves (A.walks self.old.algebra) 0 self.old.factor
            self.new.factor }
        ensures there { (x ≡ y → ⊥) →
            LeadsNoWorse (A.walks self.old.algebra) self.new.factor x y there }
    {
        self.holds();
        if x < y {
            let edge = Edge {
                place: y,
                leaving: there,
                entering: back,
            };
            let j = position(self.rows.heads(x as usize), y);
            self.improve(x as usize, j, edge);
        } else if y < x {
            let edge = Edge {
                place: x,
                leaving: back,
                entering: there,
            };
            let j = position(self.rows.heads(y as usize), x);
            self.improve(y as usize, j, edge);
        }
    }

    /// What holds of every weighing. Nothing is computed.
    pub(crate) fn holds(&self)
        ensures begun { IsBegun (A.meaning self.now.algebra) (A.walks self.now.algebra)
            self.now.roads self.now.factor }
        ensures outline { IsOutline self.now.roads self.now.factor.places
            (heads_in self.now.factor.leaving) }
        ensures roads { IsGraph self.now.roads }
        ensures composes { IsComposition (A.meaning self.now.algebra) (A.walks self.now.algebra) }
        ensures aligned { AreAligned self.now.factor.leaving self.now.factor.entering }
    {
        composition_holds(self.algebra);
        self.graph.holds();
        let _ = self.rows.len();
    }

    /// How many edges a place has.
    pub(crate) fn count(&self, v: usize) -> usize
        requires { v < self.now.roads.vertices }
        ensures { result ≡ length (row_of self.now.factor.leaving v) }
    {
        self.rows.count(v)
    }

    /// One of the edges of a place.
    pub(crate) fn edge(&self, v: usize, j: usize) -> Edge<A::Walk>
        requires place { v < self.now.roads.vertices }
        requires edge { j < length (row_of self.now.factor.leaving v) }
        ensures { IsEdgeAt self.now.factor v j result }
    {
        self.holds();
        let riser = self.rows.riser(v, j);
        let faller = self.rows.faller(v, j);
        Edge {
            place: riser.place,
            leaving: riser.walk,
            entering: faller.walk,
        }
    }

    /// The index of the edge between the ends of two edges of a place, if that of the ends of the
    /// first and of an edge after it is known to come later.
    pub(crate) fn between(&self, v: usize, i: usize, j: usize, from: usize) -> usize
        requires place { v < self.now.roads.vertices }
        requires after { i < j }
        requires edge { j < length (row_of self.now.factor.leaving v) }
        requires ahead { AreAhead (heads_in self.now.factor.leaving) v i j from }
        ensures index { result < length (row_of (heads_in self.now.factor.leaving)
            (slice_index (row_of (heads_in self.now.factor.leaving) v) i)) }
        ensures head { slice_index (row_of (heads_in self.now.factor.leaving)
            (slice_index (row_of (heads_in self.now.factor.leaving) v) i)) result
            ≡ slice_index (row_of (heads_in self.now.factor.leaving) v) j }
        ensures ahead { AreAhead (heads_in self.now.factor.leaving) v i (j + 1) (result + 1) }
        ensures fits { result < 18446744073709551615 }
    {
        self.holds();
        let row = self.rows.heads(v);
        seek(self.rows.heads(row[i] as usize), from, row[j])
    }

    /// Joins two edges that meet at a place, both ways; `q` is the index of the edge between their
    /// places.
    fn join(&mut self, v: usize, e: Edge<A::Walk>, f: Edge<A::Walk>, q: usize)
        requires first { (j : ℕ) × IsEdgeAt self.old.factor v j e }
        requires second { (j : ℕ) × IsEdgeAt self.old.factor v j f }
        requires index { q < length (row_of (heads_in self.old.factor.leaving) e.place) }
        requires head { slice_index (row_of (heads_in self.old.factor.leaving) e.place) q ≡ f.place }
        ensures same { IsSameState self.old self.new }
        ensures improves { Improves (A.walks self.old.algebra) (v + 1) self.old.factor
            self.new.factor }
        ensures rest { KeepsRest (λ i. i ≡ e.place) self.old.factor self.new.factor }
        ensures joined { AreJoined (A.walks self.old.algebra) self.new.factor e f }
    {
        self.holds();
        let there = self.algebra.compose(e.entering, f.leaving);
        let back = self.algebra.compose(f.entering, e.leaving);
        let edge = Edge {
            place: f.place,
            leaving: there,
            entering: back,
        };
        self.improve(e.place as usize, q, edge);
    }

    /// Joins an edge of a place with each one after it.
    fn pass(&mut self, v: usize, i: usize)
        requires place { v < self.old.roads.vertices }
        requires edge { i < length (row_of self.old.factor.leaving v) }
        ensures same { IsSameState self.old self.new }
        ensures improves { Improves (A.walks self.old.algebra) (v + 1) self.old.factor
            self.new.factor }
        ensures rest { KeepsRest
            (λ z. z ≡ slice_index (row_of (heads_in self.old.factor.leaving) v) i)
            self.old.factor self.new.factor }
        ensures joined { (j : ℕ) (e f : Edge A.Walk) → i < j → IsEdgeAt self.old.factor v i e →
            IsEdgeAt self.old.factor v j f → AreJoined (A.walks self.old.algebra) self.new.factor e f }
    {
        self.holds();
        let first = self.edge(v, i);
        let count = self.count(v);
        let mut q = 0;
        for j in i + 1..count {
            let second = self.edge(v, j);
            q = self.between(v, i, j, q);
            self.join(v, first, second, q);
            q += 1;
        }
    }

    /// Does so if the head of the edge is marked.
    fn pass_marked(&mut self, v: usize, i: usize, marks: &[bool])
        requires place { v < self.old.roads.vertices }
        requires edge { i < length (row_of self.old.factor.leaving v) }
        requires marks { length marks.now ≡ self.old.roads.vertices }
        ensures same { IsSameState self.old self.new }
        ensures improves { Improves (A.walks self.old.algebra) (v + 1) self.old.factor
            self.new.factor }
        ensures rest { KeepsRest (λ z. is_on marks.now z ≡ true) self.old.factor self.new.factor }
        ensures joined { (j : ℕ) (e f : Edge A.Walk) → i < j → IsEdgeAt self.old.factor v i e →
            IsEdgeAt self.old.factor v j f → is_on marks.now e.place ≡ true →
            AreJoined (A.walks self.old.algebra) self.new.factor e f }
    {
        self.holds();
        let first = self.edge(v, i);
        if marks[first.place as usize] {
            self.pass(v, i);
        }
    }

    /// Eliminates a place: joins each two of its edges, if the lesser head is marked.
    fn eliminate(&mut self, v: usize, marks: &[bool], stop: &Option<Stop>) -> Result<(), Unfinished>
        requires place { v < self.old.roads.vertices }
        requires marks { length marks.now ≡ self.old.roads.vertices }
        ensures same { OnOk result (IsSameState self.old self.new) }
        ensures improves { OnOk result (Improves (A.walks self.old.algebra) (v + 1)
            self.old.factor self.new.factor) }
        ensures rest { OnOk result (KeepsRest (λ z. is_on marks.now z ≡ true) self.old.factor
            self.new.factor) }
        ensures closed { OnOk result (IsClosedOn (A.walks self.old.algebra) marks.now
            self.new.factor v) }
        ensures halts { IfErr result (λ e. e ≡ Halted → IsSome stop.now) }
    {
        self.holds();
        for i in 0..self.count(v) {
            look_at(stop)?;
            self.pass_marked(v, i, marks);
        }
        Ok(())
    }

    /// Eliminates each place, in ascending order.
    pub(crate) fn eliminate_all(
        &mut self,
        marks: &[bool],
        stop: &Option<Stop>,
    ) -> Result<(), Unfinished>
        requires { length marks.now ≡ self.old.roads.vertices }
        ensures same { OnOk result (IsSameState self.old self.new) }
        ensures improves { OnOk result (Improves (A.walks self.old.algebra) 0 self.old.factor
            self.new.factor) }
        ensures rest { OnOk result (KeepsRest (λ z. is_on marks.now z ≡ true) self.old.factor
            self.new.factor) }
        ensures closed { OnOk result ((v : ℕ) → v < self.old.roads.vertices →
            IsClosedOn (A.walks self.old.algebra) marks.now self.new.factor v) }
        ensures halts { IfErr result (λ e. e ≡ Halted → IsSome stop.now) }
    {
        self.holds();
        for v in 0..self.graph.vertices() as usize {
            self.eliminate(v, marks, stop)?;
        }
        Ok(())
    }
}
