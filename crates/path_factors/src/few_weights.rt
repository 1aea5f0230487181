//! A graph is factored over the links of another one, of whose arcs few have other weights.
ghost use Rattle.std.specs.Prelude.{◌≡◌, ℕ, ◌<◌, All, IfErr, IfOk, IsSome, length, true};
ghost use Rattle.road_graph.specs.GraphData.{HasVertex};
ghost use Rattle.path_factors.specs.Asking.{IsKnownUpward, is_on};
ghost use Rattle.path_factors.specs.Eliminating.{IsWhole};
ghost use Rattle.path_factors.specs.Heads.{heads_in};
ghost use Rattle.path_factors.specs.Reweighing.{AreMarkedAt, DiffersAt};
ghost use Rattle.halting.specs.declared.unfinished.Unfinished.TheVariants.{Halted};

use crate::factors::Factors;
use crate::prune::{Links, Making};
use crate::weighing::Weighing;
use halting::{Stop, Unfinished};
use path_algebra::ComposingAlgebra;
use road_graph::{Memory, OutGraph, RoadArc};
use std::alloc::Global;
use std::sync::Arc;

impl<A: ComposingAlgebra> Factors<A> {
    /// Marks a place and those above it in the tree.
    fn mark_up(&self, marks: &mut [bool], place: usize)
        requires count { length marks.old ≡ self.now.roads.vertices }
        requires upward { IsKnownUpward self.now.heads marks.old }
        requires place { place < self.now.roads.vertices }
        ensures count { length marks.new ≡ self.now.roads.vertices }
        ensures upward { IsKnownUpward self.now.heads marks.new }
        ensures on { is_on marks.new place ≡ true }
        ensures kept { (i : ℕ) → is_on marks.old i ≡ true → is_on marks.new i ≡ true }
    {
        self.holds();
        let parents = self.parents();
        let mut v = place;
        while v < marks.len() {
            marks[v] = true;
            v = parents[v] as usize;
        }
    }

    /// Marks the lesser place of the ends of each change, and those above it.
    fn marks_at(&self, alloc: Global, changes: &[RoadArc]) -> Result<Vec<bool>, Memory>
        requires { All (λ c. HasVertex self.now.roads c.tail × HasVertex self.now.roads c.head) changes.now }
        ensures count { IfOk result (λ marks. length marks.items ≡ self.now.roads.vertices) }
        ensures upward { IfOk result (λ marks. IsKnownUpward self.now.heads marks.items) }
        ensures marked { IfOk result (λ marks. AreMarkedAt self.now.factor.places marks.items changes.now) }
    {
        self.holds();
        let mut marks = vec![in alloc; false; self.places.len()]?;
        for change in changes {
            let lesser = self.place(change.tail).min(self.place(change.head));
            self.mark_up(&mut marks, lesser);
        }
        Ok(marks)
    }

    /// The links of the changed graph, once they are closed: those above the changed arcs are made
    /// anew, the others are the same.
    fn weighed_above<'g>(
        &self,
        alloc: Global,
        graph: &'g OutGraph,
        changes: &[RoadArc],
        stop: &Option<Stop>,
    ) -> Result<Weighing<'g, A>, Unfinished>
        requires ends { All (λ c. HasVertex self.now.roads c.tail × HasVertex self.now.roads c.head) changes.now }
        requires differs { DiffersAt changes.now graph.now self.now.roads }
        requires whole { IsWhole (A.meaning self.now.algebra) (A.walks self.now.algebra) self.now.roads
            self.now.factor }
        requires heads { self.now.heads ≡ heads_in self.now.factor.leaving }
        ensures algebra { IfOk result (λ w. w.algebra ≡ self.now.algebra) }
        ensures roads { IfOk result (λ w. w.roads ≡ graph.now) }
        ensures order { IfOk result (λ w. w.factor.order ≡ self.now.factor.order) }
        ensures whole { IfOk result (λ w. IsWhole (A.meaning w.algebra) (A.walks w.algebra)
            w.roads w.factor) }
        ensures halts { IfErr result (λ e. e ≡ Halted → IsSome stop.now) }
    {
        self.holds();
        let _ = self.rows.len();
        let order = Arc::try_clone(&self.order)?;
        let places = self.places.to_vec(alloc)?;
        let marks = self.marks_at(alloc, changes)?;
        let rows = self.rows.blanked(alloc, &marks, self.algebra.no_walk())?;
        let mut weighing = Weighing::open(self.algebra, graph, order, places, rows);
        weighing.weigh(&marks, stop)?;
        Ok(weighing)
    }

    /// The factors, with all links, of a graph that has the arcs of this one, with other weights at
    /// most where a change has the ends of an arc. If these factors have all links, those above the
    /// changed arcs alone are made anew: a partial update of a customizable contraction hierarchy
    /// (Dibbelt, Strasser and Wagner 2014).
    pub fn reweighed_at(
        &self,
        alloc: Global,
        graph: &OutGraph,
        changes: &[RoadArc],
        stop: &Option<Stop>,
    ) -> Result<Factors<A>, Unfinished>
        requires ends { All (λ c. HasVertex self.now.roads c.tail × HasVertex self.now.roads c.head) changes.now }
        requires differs { DiffersAt changes.now graph.now self.now.roads }
        ensures algebra { IfOk result (λ f. f.algebra ≡ self.now.algebra) }
        ensures roads { IfOk result (λ f. f.roads ≡ graph.now) }
        ensures order { IfOk result (λ f. f.factor.order ≡ self.now.factor.order) }
        ensures halts { IfErr result (λ e. e ≡ Halted → IsSome stop.now) }
    {
        self.holds();
        let links = Links::All;
        let weighing = match &self.heads {
            Some(_) => self.weighed_anew(alloc, self.algebra, graph, stop)?,
            None => self.weighed_above(alloc, graph, changes, stop)?,
        };
        weighing.prune(alloc, Making { links, stop })
    }
}
