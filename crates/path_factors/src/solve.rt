//! Best values by substitution.
ghost use Rattle.std.specs.Prelude.{◌≡◌, ℕ, ◌<◌, List, All, IfOk, IfSome, IsSome, IsTrue, None, false, length, map};
ghost use Rattle.road_graph.specs.GraphData.{HasVertex};
ghost use Rattle.path_algebra.specs.Walks.{AreBest, label_of};
ghost use Rattle.path_factors.specs.Factors.{row_of, place_of};
ghost use Rattle.path_factors.specs.Substituting.{at, offered_from, best_along, AreOrigins, IsForward, IsForwardTo, IsBackward, AreSubstituted};

use crate::factors::Factors;
use crate::label_slot::{CompactAlgebra, LabelSlot, label_at, no_labels, offer};
use halting::{Halt, Stop};
use path_algebra::Labels;
use road_graph::{Memory, Vertex};
use std::alloc::{AllocError, Global};

impl<A: CompactAlgebra> Factors<A> {
    /// Offers the label of a place, extended, to each greater place to which it has a link.
    pub(crate) fn offer_up(&self, labels: &mut [LabelSlot<A>], i: usize)
        requires place { i < self.now.roads.vertices }
        requires labels { length labels.old ≡ self.now.roads.vertices }
        ensures { labels.new ≡ offered_from (A.meaning self.now.algebra) (A.walks self.now.algebra)
            (at labels.old i) labels.old (row_of self.now.factor.leaving i) }
    {
        let algebra = self.algebra;
        let label = labels[i].again();
        if label.get().is_none() {
            return;
        }
        for j in 0..self.rows.count(i) {
            let link = self.rows.riser(i, j);
            offer(algebra, labels, link.place as usize, &label, link.walk);
        }
    }

    /// The best of the label of a place and of what the links from greater places bring.
    pub(crate) fn best_down(&self, labels: &[LabelSlot<A>], i: usize) -> LabelSlot<A>
        requires place { i < self.now.roads.vertices }
        requires labels { length labels.now ≡ self.now.roads.vertices }
        ensures { result ≡ best_along (A.meaning self.now.algebra) (A.walks self.now.algebra)
            labels.now (at labels.now i) (row_of self.now.factor.entering i) }
    {
        let algebra = self.algebra;
        let mut best = labels[i].again();
        for j in 0..self.rows.count(i) {
            let link = self.rows.faller(i, j);
            best = best.better_after(algebra, &labels[link.place as usize], link.walk);
        }
        best
    }

    /// The origin at each source, and no label elsewhere. Sources may repeat.
    fn at_sources(&self, alloc: Global, sources: &[Vertex]) -> Result<Vec<LabelSlot<A>>, Memory>
        requires { All (HasVertex self.now.roads) sources.now }
        ensures { IfOk result (λ labels. AreOrigins (A.meaning self.now.algebra) self.now.roads
            self.now.factor sources.now labels.items) }
    {
        self.holds();
        let mut labels = no_labels(alloc, self.places.len())?;
        for s in sources {
            labels[self.place(*s)] = LabelSlot::origin(self.algebra);
        }
        Ok(labels)
    }

    /// Forward substitution: each place, in ascending order, offers its label along its links. False
    /// if the stop was set before the end, as in each sweep.
    fn sweep_up(&self, labels: &mut [LabelSlot<A>], stop: &Option<Stop>) -> bool
        requires { length labels.old ≡ self.now.roads.vertices }
        ensures stopped { result ≡ false → IsSome stop.now }
        ensures forward { IsTrue result → (sources : List ℕ) →
            IsForwardTo (A.meaning self.now.algebra) (A.walks self.now.algebra) self.now.roads self.now.factor sources 0 labels.old →
            IsForward (A.meaning self.now.algebra) (A.walks self.now.algebra) self.now.roads self.now.factor sources labels.new }
    {
        self.holds();
        let mut halt = Halt::by(stop);
        for i in 0..labels.len() {
            if halt.is_due() {
                return false;
            }
            self.offer_up(labels, i);
        }
        true
    }

    /// Back substitution: each place, in descending order, gets the best of its label and of what
    /// its links bring.
    fn sweep_down(&self, labels: &mut [LabelSlot<A>], stop: &Option<Stop>) -> bool
        requires { length labels.old ≡ self.now.roads.vertices }
        ensures stopped { result ≡ false → IsSome stop.now }
        ensures backward { IsTrue result → IsBackward (A.meaning self.now.algebra) (A.walks self.now.algebra) self.now.roads
            self.now.factor labels.old labels.new }
    {
        self.holds();
        let mut halt = Halt::by(stop);
        for i in (0..labels.len()).rev() {
            if halt.is_due() {
                return false;
            }
            labels[i] = self.best_down(labels, i);
        }
        true
    }

    /// Both sweeps.
    fn substitute(&self, labels: &mut [LabelSlot<A>], stop: &Option<Stop>) -> bool
        requires { length labels.old ≡ self.now.roads.vertices }
        ensures stopped { result ≡ false → IsSome stop.now }
        ensures count { length labels.new ≡ self.now.roads.vertices }
        ensures labels { IsTrue result → (sources : List ℕ) →
            IsForwardTo (A.meaning self.now.algebra) (A.walks self.now.algebra) self.now.roads self.now.factor sources 0 labels.old →
            AreSubstituted (A.meaning self.now.algebra) (A.walks self.now.algebra) self.now.roads self.now.factor sources labels.new }
    {
        if !self.sweep_up(labels, stop) {
            return false;
        }
        self.sweep_down(labels, stop)
    }

    /// Labels by vertex, from labels by place; none if the stop was set before the end.
    fn by_vertex(
        &self,
        alloc: Global,
        labels: &[LabelSlot<A>],
        stop: &Option<Stop>,
    ) -> Result<Option<Labels<A::Value>>, Memory>
        requires { length labels.now ≡ self.now.roads.vertices }
        ensures stopped { IfOk result (λ found. found ≡ None → IsSome stop.now) }
        ensures count { IfOk result (λ found. IfSome found (λ found.
            length found ≡ self.now.roads.vertices)) }
        ensures labels { IfOk result (λ found. IfSome found (λ found. (v : ℕ) →
            HasVertex self.now.roads v → label_of found v ≡ at labels.now (place_of self.now.factor v))) }
    {
        self.holds();
        let mut halt = Halt::by(stop);
        let mut found = Vec::with_capacity(alloc, self.places.len())?;
        for place in &self.places {
            if halt.is_due() {
                return Ok(None);
            }
            found
                .push(label_at(labels, *place))
                .map_err(AllocError::from)?;
        }
        Ok(Some(Labels::from_vec(found)))
    }

    /// The best value of each vertex over all walks from some source of the list, and none if no
    /// walk has a value. Sources may repeat.
    pub fn solve_by(&self, alloc: Global, sources: &[Vertex]) -> Result<Labels<A::Value>, Memory>
        requires { All (HasVertex self.now.roads) sources.now }
        ensures { IfOk result (λ labels. AreBest (A.meaning self.now.algebra) self.now.roads
            sources.now labels) }
    {
        match self.solve_unless(alloc, sources, &None)? {
            Some(labels) => Ok(labels),
            None => unreachable!(),
        }
    }

    /// The same, or none if the stop is set before: it is looked at once in a thousand places.
    pub fn solve_unless(
        &self,
        alloc: Global,
        sources: &[Vertex],
        stop: &Option<Stop>,
    ) -> Result<Option<Labels<A::Value>>, Memory>
        requires { All (HasVertex self.now.roads) sources.now }
        ensures best { IfOk result (λ found. IfSome found (λ labels. AreBest
            (A.meaning self.now.algebra) self.now.roads sources.now labels)) }
        ensures stopped { IfOk result (λ found. found ≡ None → IsSome stop.now) }
    {
        self.holds();
        let mut labels = self.at_sources(alloc, sources)?;
        if !self.substitute(&mut labels, stop) {
            return Ok(None);
        }
        let Some(found) = self.by_vertex(alloc, &labels, stop)? else {
            return Ok(None);
        };
        Ok(Some(found))
    }
}
