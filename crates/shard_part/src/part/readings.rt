//! What may be read of a part.
ghost use Rattle.std.specs.Prelude.{◌≡◌, ◌≢◌, ◌+◌, ◌<◌, suc, [], get_or, length, IfSome, IsTrue, ◌↔◌};
ghost use Rattle.scholten_core.specs.Deficit.{busy_out};
ghost use Rattle.shard_part.specs.PartState.{state_in};
ghost use Rattle.shard_part.specs.Exchange.{Fits};
ghost use Rattle.shard_part.specs.Readings.{IsOwn, has_ended, tally_in};
ghost use Rattle.shard_part.specs.Part.{PartInvariant, IsOutgoingTo};
ghost use Rattle.shard_store.specs.Capacities.{queue_bound, outbox_bound};
ghost use Rattle.shard_store.specs.Queue.{IsBestWaiting};
ghost use Rattle.shard_store.specs.declared.queue_order.QueueOrder.TheVariants.{BestFirst};
ghost use Rattle.shard_store.specs.Setup.{network_of, place_in};

use crate::part::Part;
use path_algebra::PathAlgebra;
use road_graph::{ArcNo, Vertex};
use scholten_core::ENTRY;
use shard_store::{ArcPlace, Batch, Setup, Shard, Tally};

impl<'g, A: PathAlgebra> Part<'g, A> {
    /// What it shares with the other parts, for contracts.
    pub fn setup(&self) -> Setup<A>
        ensures { result ≡ self.now.setup }
    {
        let state = &self.state;
        Setup::new(
            state.algebra,
            state.graph,
            state.plan,
            state.source,
            state.order,
        )
    }

    /// The algebra of its diffusion.
    pub fn algebra(&self) -> A
        ensures { result ≡ self.now.setup.diffusion.algebra }
    {
        self.state.algebra
    }

    /// Which shard it is.
    pub fn shard(&self) -> Shard
        ensures shard { result ≡ self.now.shard }
        // What holds of every part, for callers that rely on it.
        ensures holds { PartInvariant self.now }
    {
        self.state.shard()
    }

    /// Whether a shard is another than this one: the test of what `capacity` and `swap_outbox`
    /// require.
    pub fn is_other(&self, to: Shard) -> bool
        ensures { IsTrue result ↔ (to ≢ self.now.shard) × (to < self.now.setup.plan.shards) }
    {
        to != self.state.shard && to.0 < self.state.plan.shards()
    }

    /// How many items an outbox may hold: one for each arc between the two shards, in both
    /// directions.
    pub fn capacity(&self, to: Shard) -> usize
        requires other { to ≢ self.now.shard }
        requires shard { to < self.now.setup.plan.shards }
        ensures { result ≡ outbox_bound (network_of self.now.setup) (place_in self.now.setup)
            self.now.shard to }
    {
        self.state.outs[to.0 as usize].capacity()
    }

    /// How many items wait in the queue.
    pub fn queued(&self) -> usize
        ensures { result ≡ length self.now.queue }
    {
        self.state.queue.len()
    }

    /// For how many more items the queue has a place. In all it has one for each arc with an end in
    /// the shard.
    pub fn room(&self) -> usize
        ensures { result + length self.now.queue ≡ queue_bound (network_of self.now.setup)
            (place_in self.now.setup) self.now.shard }
    {
        self.state.queue.capacity() - self.state.queue.len()
    }

    /// How many items are on the way to another shard.
    pub fn outgoing(&self, to: Shard) -> usize
        requires { to < self.now.setup.plan.shards }
        ensures { result ≡ length (get_or self.now.outs to []) }
    {
        self.state.outs[to.0 as usize].len()
    }

    /// The best value that waits to be handled, best first: a hint to other shards.
    pub fn best_waiting(&self) -> Option<A::Value>
        ensures { self.now.setup.order ≡ BestFirst → IsBestWaiting A.order self.now.queue result }
    {
        self.state.queue.best()
    }

    /// The best value of the messages that wait for a shard: a hint to it.
    pub fn best_outgoing(&self, to: Shard) -> Option<A::Value>
        requires { to < self.now.setup.plan.shards }
        ensures { IfSome result (λ x. IsOutgoingTo to x self.now) }
    {
        self.state.best_outgoing(to)
    }

    /// Whether the diffusion has ended: arc 0 is idle. False except at the source's part.
    pub fn ended(&self) -> bool
        ensures { result ≡ has_ended self.now }
    {
        self.state.shard_of(Vertex(0)) == self.state.shard
            && !self.state.is_busy(ArcPlace { arc: ENTRY, at: 0 })
    }

    /// Whether v is a vertex of this shard.
    pub fn holds(&self, v: Vertex) -> bool
        ensures { IsTrue result ↔ IsOwn self.now v }
    {
        self.state.graph.has(v) && self.state.shard_of(v) == self.state.shard
    }

    /// The label of a vertex of this shard.
    pub fn label(&self, v: Vertex) -> Option<A::Value>
        requires { IsOwn self.now v }
        ensures { result ≡ (state_in self.now).label v }
    {
        self.state.label_at(self.state.place(v))
    }

    /// The arc that engages a vertex of this shard.
    pub fn engager(&self, v: Vertex) -> Option<ArcNo>
        requires { IsOwn self.now v }
        ensures { result ≡ (state_in self.now).engager v }
    {
        self.state.engager_at(self.state.place(v))
    }

    /// How many arcs out of a vertex of this shard are not idle.
    pub fn deficit(&self, v: Vertex) -> u32
        requires { IsOwn self.now v }
        ensures { result ≡ busy_out (network_of self.now.setup) v (state_in self.now)
            (suc (length self.now.setup.diffusion.roads.arcs)) }
    {
        self.state.deficit_at(self.state.place(v))
    }

    /// What has been counted, the environment's message and the acceptance of its signal at the
    /// source's part.
    pub fn tally(&self) -> Tally
        ensures { result ≡ tally_in self.now }
    {
        self.state.tally()
    }

    /// Whether a batch may be received: no arc occurs twice in it, or both in it and in the queue
    /// or an outbox, each message has a value of the algebra and comes on an arc from another shard
    /// into this one that is no engager here, and each signal comes back on an arc from this shard
    /// into another that is busy here.
    pub fn fits(&self, batch: &Batch<A::Value>) -> bool
        ensures { IsTrue result ↔ Fits (A.meaning self.now.setup.diffusion.algebra) self.now
            batch.now.items }
    {
        self.state.fits(batch)
    }
}
