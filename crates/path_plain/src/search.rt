//! A search from a list of sources: vertices are settled best first, each once.

ghost use Rattle.std.specs.Prelude.{◌≡◌, ◌+◌, ◌≤◌, [], All, OnOk, IfOk, IfSome, IsTrue, MatchOption, false, is_some, length, true};
ghost use Rattle.road_graph.specs.GraphData.{HasVertex};
ghost use Rattle.path_algebra.specs.Walks.{offered, offered_if};
ghost use Rattle.halting.specs.Halting.{CanHalt};
ghost use Rattle.path_plain.specs.Noting.{noted_list};
ghost use Rattle.path_plain.specs.Rounds.{Between, Runs, RunsSome, Steps};
ghost use Rattle.path_plain.specs.Searching.{IsBlank, IsOfSame, IsSameSearch, Relaxes, Advances};
ghost use Rattle.path_plain.specs.UpTo.{IsPast};

use crate::touched::{Touched, put_back};
use halting::Halt;
use path_algebra::{Labels, PathAlgebra, laws_hold};
use ranked_queue::RankedQueue;
use road_graph::{Memory, OutGraph, Vertex};
use std::alloc::Global;
use std::marker::Model;
use std::snapshot::Snapshot;

/// The label of each vertex, whether it is settled, and the queue of those that are open.
#[derive(Drop)]
pub(crate) struct Search<A: PathAlgebra> {
    algebra: A,
    graph: Snapshot<OutGraph>,
    labels: Labels<A::Value>,
    settled: Vec<bool>,
    queue: RankedQueue<A, usize>,
    /// The vertices that have had a label since the search was blank.
    touched: Touched,
}

impl<A: PathAlgebra> Model for Search<A> {
    ghost use Rattle.std.specs.Prelude.{length, is_some};
    ghost use Rattle.path_plain.specs.Searching.{SearchState, IsSearch};

    ghost Value = { SearchState A A.Value };

    ghost view = { λ s. record { algebra = s.algebra; roads = s.graph.value; labels = s.labels; settled = s.settled.items; waiting = length s.queue; notes = is_some s.touched } };

    ghost invariant = { λ s. IsSearch (λ o. o.value) (λ o. o.rank) A.order s.graph.value s.labels s.settled.items s.queue s.touched };
}

impl<A: PathAlgebra> Search<A> {
    /// A search in which no vertex has a label. It notes what it touches in `touched`, if that has
    /// a list.
    pub(crate) fn new(
        alloc: Global,
        algebra: A,
        graph: &OutGraph,
        touched: Touched,
    ) -> Result<Self, Memory>
        requires { noted_list touched ≡ [] }
        ensures algebra { IfOk result (λ s. s.algebra ≡ algebra) }
        ensures graph { IfOk result (λ s. s.roads ≡ graph.now) }
        ensures notes { IfOk result (λ s. s.notes ≡ is_some touched) }
        ensures blank { IfOk result IsBlank }
    {
        graph.holds();
        let n = graph.vertices() as usize;
        let labels: Vec<Option<A::Value>> = vec![in alloc; None; n]?;
        let settled: Vec<bool> = vec![in alloc; false; n]?;
        Ok(Search {
            algebra,
            graph: Snapshot::of(graph),
            labels: Labels::from_vec(labels),
            settled,
            queue: RankedQueue::new(alloc),
            touched,
        })
    }

    /// Puts back what was touched: no vertex has a label, none is settled, and none waits.
    pub(crate) fn clear(&mut self)
        requires { self.old.notes ≡ true }
        ensures blank { IsBlank self.new }
        ensures of_same { IsOfSame self.old self.new }
    {
        put_back(&mut self.labels, &mut self.settled, self.touched.vertices());
        self.touched.clear();
        self.queue.clear();
    }

    /// Gives each source the origin for its label. Sources may repeat.
    pub(crate) fn start(&mut self, sources: &[Vertex]) -> Result<(), Memory>
        requires blank { IsBlank self.old }
        requires sources { All (HasVertex self.old.roads) sources.now }
        ensures between { OnOk result (Between (A.meaning self.old.algebra) self.old.roads
            sources.now self.new.labels self.new.settled) }
        ensures of_same { IsOfSame self.old self.new }
    {
        let algebra = self.algebra;
        laws_hold(algebra);
        for source in sources {
            self.offer(*source, algebra.origin())?;
        }
        Ok(())
    }

    /// Gives a vertex the value z, if that is strictly better than its label, and puts it into the
    /// queue with it.
    fn offer(&mut self, v: Vertex, z: A::Value) -> Result<(), Memory>
        requires { HasVertex self.old.roads v }
        ensures labels { OnOk result (self.new.labels ≡ offered A.order self.old.labels v z) }
        ensures same { IsSameSearch self.old self.new }
        ensures few { OnOk result (self.new.waiting ≤ self.old.waiting + 1) }
    {
        let is_better = match self.labels.of(v) {
            Some(y) => !A::no_worse(y, z),
            None => true,
        };
        if is_better {
            let is_new = self.labels.of(v).is_none();
            self.touched.note_if(v, is_new)?;
            self.queue.push(z, v.0 as usize - 1)?;
            self.labels.set(v, Some(z));
        }
        Ok(())
    }

    /// Offers what an extension gave, if it was not refused.
    fn offer_if(&mut self, v: Vertex, extended: Option<A::Value>) -> Result<(), Memory>
        requires { HasVertex self.old.roads v }
        ensures labels { OnOk result (self.new.labels ≡ offered_if A.order self.old.labels v
            extended) }
        ensures same { IsSameSearch self.old self.new }
        ensures few { OnOk result (self.new.waiting ≤ self.old.waiting + 1) }
    {
        match extended {
            Some(z) => self.offer(v, z),
            None => Ok(()),
        }
    }

    /// Extends x along each arc that leaves v, and offers the result to the arc's head.
    fn relax(&mut self, graph: &OutGraph, v: Vertex, x: A::Value) -> Result<(), Memory>
        requires graph { graph.now ≡ self.old.roads }
        requires vertex { HasVertex self.old.roads v }
        ensures relaxes { OnOk result (Relaxes (A.meaning self.old.algebra) self.old.roads v x
            self.old.labels self.new.labels) }
        ensures same { IsSameSearch self.old self.new }
        ensures few { OnOk result (self.new.waiting ≤ self.old.waiting + length self.old.roads.arcs) }
    {
        let algebra = self.algebra;
        laws_hold(algebra);
        graph.holds();
        for road in graph.roads_from(v) {
            self.offer_if(road.head, algebra.extend(x, road.weight))?;
        }
        Ok(())
    }

    /// Settles the vertex of the best entry with its value, or drops the entry if its vertex is
    /// settled already. False if the queue is empty.
    fn settle_next(&mut self, graph: &OutGraph) -> Result<bool, Memory>
        requires { graph.now ≡ self.old.roads }
        ensures advances { IfOk result (λ more. Advances A.order (A.meaning self.old.algebra) more
            self.old self.new) }
        ensures of_same { IsOfSame self.old self.new }
    {
        let Some(top) = self.queue.pop() else {
            return Ok(false);
        };
        let i = top.rank;
        if !self.settled[i] {
            self.settled[i] = true;
            self.relax(graph, Vertex(i as u32 + 1), top.value)?;
        }
        Ok(true)
    }

    /// Whether the target has a label that is better than each value that waits. If so, no vertex
    /// that is open can come before it.
    fn is_past(&self, target: Vertex) -> bool
        requires { HasVertex self.now.roads target }
        ensures { IsTrue result → IsPast A.order self.now.labels self.now.settled target }
    {
        let Some(t) = self.labels.of(target) else {
            return false;
        };
        match self.queue.first() {
            Some(top) => !A::no_worse(top.value, t),
            None => false,
        }
    }

    /// Whether there is a target, and the search is past it.
    fn is_past_any(&self, target: &Option<Vertex>) -> bool
        requires { IfSome target.now (HasVertex self.now.roads) }
        ensures { IsTrue result → MatchOption target.now ⊥ (IsPast A.order self.now.labels
            self.now.settled) }
    {
        match target {
            Some(v) => self.is_past(*v),
            None => false,
        }
    }

    /// Takes an entry from the queue, unless the search is past its target. False if it is past it,
    /// or the queue is empty.
    fn step(&mut self, graph: &OutGraph, target: &Option<Vertex>) -> Result<bool, Memory>
        requires graph { graph.now ≡ self.old.roads }
        requires target { IfSome target.now (HasVertex self.old.roads) }
        ensures steps { IfOk result (λ more. Steps A.order (A.meaning self.old.algebra) target.now more
            self.old self.new) }
        ensures of_same { IsOfSame self.old self.new }
    {
        let algebra = self.algebra;
        laws_hold(algebra);
        graph.holds();
        if self.is_past_any(target) {
            return Ok(false);
        }
        self.settle_next(graph)
    }

    /// Settles vertices until the search is past its target, or if it has none until no vertex
    /// waits.
    pub(crate) fn run(&mut self, graph: &OutGraph, target: Option<Vertex>) -> Result<(), Memory>
        requires graph { graph.now ≡ self.old.roads }
        requires target { IfSome target (HasVertex self.old.roads) }
        ensures runs { OnOk result (Runs (A.meaning self.old.algebra) target self.old self.new) }
        ensures of_same { IsOfSame self.old self.new }
    {
        let algebra = self.algebra;
        laws_hold(algebra);
        graph.holds();
        while self.step(graph, &target)? {}
        Ok(())
    }

    /// Settles vertices until the search is past its target or has emptied the queue, which is
    /// true, or is to give up. Then it can go on from where it is.
    pub(crate) fn run_unless(
        &mut self,
        graph: &OutGraph,
        target: Vertex,
        halt: &mut Halt<'_>,
    ) -> Result<bool, Memory>
        requires graph { graph.now ≡ self.old.roads }
        requires target { HasVertex self.old.roads target }
        ensures runs { IfOk result (λ decided. RunsSome (A.meaning self.old.algebra) target decided
            self.old self.new) }
        ensures halts { IfOk result (λ decided. decided ≡ false → CanHalt halt.old) }
        ensures of_same { IsOfSame self.old self.new }
    {
        let algebra = self.algebra;
        laws_hold(algebra);
        graph.holds();
        let target = Some(target);
        while self.step(graph, &target)? {
            if halt.is_due() {
                return Ok(false);
            }
        }
        Ok(true)
    }

    /// The algebra.
    pub(crate) fn algebra(&self) -> A
        ensures { result ≡ self.now.algebra }
    {
        self.algebra
    }

    /// Gives it another algebra. What it found under the one before stays until it is cleared.
    pub(crate) fn set_algebra(&mut self, algebra: A)
        ensures algebra { self.new.algebra ≡ algebra }
        ensures roads { self.new.roads ≡ self.old.roads }
        ensures notes { self.new.notes ≡ self.old.notes }
    {
        self.algebra = algebra;
    }

    /// The labels.
    pub(crate) fn labels(&self) -> &Labels<A::Value>
        ensures { result.now ≡ self.now.labels }
    {
        &self.labels
    }

    /// The labels.
    pub(crate) fn into_labels(self) -> Labels<A::Value>
        ensures { result ≡ self.labels }
    {
        self.labels
    }
}
