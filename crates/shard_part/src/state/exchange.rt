//! Batches of items that go to other shards and come from them.
ghost use Rattle.std.specs.Prelude.{◌≡◌, ◌≢◌, ◌+◌, ◌++◌, ◌<◌, ◌≤◌, ℕ, [], set, get_or, drop, length, leb, IsTrue, ◌↔◌};
ghost use Rattle.circular_buffer.specs.Buffer.{buffer};
ghost use Rattle.road_graph.specs.GraphData.{HasArc};
ghost use Rattle.scholten_core.specs.Items.{item_arc};
ghost use Rattle.shard_store.specs.Setup.{network_of, place_in};
ghost use Rattle.shard_part.specs.PartState.{state_in};
ghost use Rattle.shard_store.specs.Capacities.{queue_bound, outbox_bound};
ghost use Rattle.shard_part.specs.Weights.{part_weight};
ghost use Rattle.shard_store.specs.Totals.{is};
ghost use Rattle.shard_part.specs.LocalInvariant.{names};
ghost use Rattle.shard_part.specs.Moves.{IsPlace};
ghost use Rattle.shard_part.specs.Exchange.{Fits, FitsAlone, FitsBefore, MayEngage, Awaits};

use crate::laws::state_holds;
use crate::state::PartState;
use path_algebra::PathAlgebra;
use road_graph::{ArcNo, Vertex};
use scholten_core::Item;
use shard_store::{Batch, Shard, VertexPlace, arc_of};

impl<'g, A: PathAlgebra> PartState<'g, A> {
    /// Exchanges the outbox to another shard for an empty batch of the same capacity.
    pub(crate) fn swap_outbox(&mut self, to: Shard, batch: &mut Batch<A::Value>)
        requires other { to ≢ self.old.shard }
        requires shard { to < self.old.setup.plan.shards }
        requires empty { batch.old.items ≡ [] }
        requires capacity { batch.old.capacity ≡ outbox_bound (network_of self.old.setup)
            (place_in self.old.setup) self.old.shard to }
        ensures part { self.new ≡ record self.old { outs = set self.old.outs to [] } }
        ensures batch { batch.new ≡ buffer (get_or self.old.outs to []) batch.old.capacity }
    {
        std::mem::swap(&mut self.outs[to.0 as usize], batch);
    }

    /// Appends all items of a batch to the queue, in order, and leaves the batch empty.
    pub(crate) fn receive(&mut self, batch: &mut Batch<A::Value>)
        requires room { length self.old.queue + length batch.old.items ≤ queue_bound
            (network_of self.old.setup) (place_in self.old.setup) self.old.shard }
        requires fits { Fits (A.meaning self.old.setup.diffusion.algebra) self.old batch.old.items }
        ensures part { self.new ≡ record self.old { queue = self.old.queue ++ batch.old.items } }
        ensures batch { batch.new ≡ buffer [] batch.old.capacity }
    {
        self.queue.append(batch);
    }

    /// Whether a batch may be received.
    pub(crate) fn fits(&self, batch: &Batch<A::Value>) -> bool
        ensures { IsTrue result ↔ Fits (A.meaning self.now.setup.diffusion.algebra) self.now
            batch.now.items }
    {
        state_holds(self);
        for i in 0..batch.len() {
            if let Some(item) = batch.get(i) {
                if !self.fits_before(item, batch, i + 1) {
                    return false;
                }
            }
        }
        true
    }

    /// Whether an item is alone on its arc, among those of a batch from an index on and those of
    /// this part, and may be received.
    fn fits_before(&self, item: Item<A::Value>, batch: &Batch<A::Value>, next: usize) -> bool
        requires { next ≤ length batch.now.items }
        ensures { IsTrue result ↔ FitsBefore (A.meaning self.now.setup.diffusion.algebra) self.now
            item (drop next batch.now.items) }
    {
        let arc = arc_of(item);
        if batch.carries_from(next, arc) {
            return false;
        }
        if self.carries(arc) {
            return false;
        }
        self.fits_alone(item)
    }

    /// Whether an item on an arc is in the queue or an outbox.
    fn carries(&self, arc: ArcNo) -> bool
        ensures { result ≡ leb 1 (part_weight (λ _ j. is arc (item_arc j)) self.now) }
    {
        if self.queue.carries(arc) {
            return true;
        }
        for out in &self.outs {
            if out.carries_from(0, arc) {
                return true;
            }
        }
        false
    }

    /// Whether an item may be received by itself.
    fn fits_alone(&self, item: Item<A::Value>) -> bool
        ensures { IsTrue result ↔ FitsAlone (A.meaning self.now.setup.diffusion.algebra) self.now
            item }
    {
        match item {
            Item::Message { arc, value } => {
                self.algebra.is_value(value) && self.has_arc(arc) && self.may_engage(arc)
            }
            Item::Signal { arc } => self.has_arc(arc) && self.awaits(arc),
        }
    }

    /// Whether an arc is one of the graph's.
    fn has_arc(&self, arc: ArcNo) -> bool
        ensures { IsTrue result ↔ HasArc self.now.setup.diffusion.roads arc }
    {
        1 <= arc.0 && arc.0 as usize <= self.graph.arcs()
    }

    /// Whether one vertex is of another shard and the other of this one.
    fn leads_here(&self, from: Vertex, to: Vertex) -> bool
        requires { (from ≤ self.now.setup.diffusion.roads.vertices) ×
            (to ≤ self.now.setup.diffusion.roads.vertices) }
        ensures { IsTrue result ↔ (place_in self.now.setup to ≡ self.now.shard) ×
            (place_in self.now.setup from ≢ self.now.shard) }
    {
        self.shard_of(to) == self.shard && self.shard_of(from) != self.shard
    }

    /// Whether an arc engages the vertex at a place.
    fn engages(&self, v: VertexPlace, arc: ArcNo) -> bool
        requires { IsPlace self.now v.vertex v.at }
        ensures { result ≡ names ((state_in self.now).engager v.vertex) arc }
    {
        match self.engager_at(v) {
            Some(engager) => arc == engager,
            None => false,
        }
    }

    /// Whether an arc comes from another shard into this one and is no engager here.
    fn may_engage(&self, arc: ArcNo) -> bool
        requires { HasArc self.now.setup.diffusion.roads arc }
        ensures { IsTrue result ↔ MayEngage self.now arc }
    {
        let ends = self.graph.arc(arc);
        self.leads_here(ends.tail, ends.head) && !self.engages(self.place(ends.head), arc)
    }

    /// Whether an arc leaves this shard for another and is busy.
    fn awaits(&self, arc: ArcNo) -> bool
        requires { HasArc self.now.setup.diffusion.roads arc }
        ensures { IsTrue result ↔ Awaits self.now arc }
    {
        let ends = self.graph.arc(arc);
        self.leads_here(ends.head, ends.tail)
            && self.is_busy(self.row_of(self.place(ends.tail), arc))
    }
}
