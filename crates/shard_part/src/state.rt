//! One shard's part of a diffusing computation, as it is stored.
ghost use Rattle.std.specs.Prelude.{◌≡◌, leb};
ghost use Rattle.shard_store.specs.Tallies.{top};
ghost use Rattle.shard_part.specs.Readings.{tally_in};
ghost use Rattle.shard_store.specs.Setup.{network_of};
ghost use Rattle.scholten_core.specs.Network.{WellFormed};
ghost use Rattle.shard_part.specs.Moves.{IsTallied};
ghost use Rattle.shard_part.specs.Part.{PartInvariant};

mod ahead;
mod events;
mod exchange;
mod opening;
mod sending;
mod stored;
mod taking;

use path_algebra::PathAlgebra;
use road_graph::{Graph, Vertex};
use shard_store::{Batch, Plan, Queue, QueueOrder, Shard, Tables, Tally};
use std::marker::Model;

/// The tables, the queue and the outboxes of one shard, with the moves that its events are made of.
#[derive(Drop)]
pub(crate) struct PartState<'g, A: PathAlgebra> {
    pub(crate) algebra: A,
    pub(crate) graph: &'g Graph,
    pub(crate) plan: &'g Plan,
    pub(crate) source: Vertex,
    pub(crate) shard: Shard,
    pub(crate) order: QueueOrder,
    pub(crate) tables: Tables<A::Value>,
    pub(crate) queue: Queue<A>,
    pub(crate) outs: Vec<Batch<A::Value>>,
    /// No worse than what waits for other shards, since it was last noted: it spares most looks
    /// through the outboxes.
    best_sent: Option<A::Value>,
    sent: u64,
    delivered: u64,
    signalled: u64,
    accepted: u64,
}

impl<'g, A: PathAlgebra> Model for PartState<'g, A> {
    ghost use Rattle.std.specs.Prelude.{map};
    ghost use Rattle.shard_part.specs.PartState.{PartData};
    ghost use Rattle.shard_part.specs.Moves.{abstraction, RepInvariant};
    ghost use Rattle.shard_store.specs.Setup.{setup_of};
    ghost use Rattle.shard_store.specs.Rows.{rows_of};

    ghost Value = { PartData A A.Value };

    ghost view = { λ p. abstraction (setup_of p.algebra p.graph.now p.source p.plan.now p.order) p.shard (rows_of p.tables) p.queue.items (map (λ b. b.items) p.outs.items) p.sent p.delivered p.signalled p.accepted };

    ghost invariant = { λ p. RepInvariant (abstraction (setup_of p.algebra p.graph.now p.source p.plan.now p.order) p.shard (rows_of p.tables) p.queue.items (map (λ b. b.items) p.outs.items) p.sent p.delivered p.signalled p.accepted) (rows_of p.tables) p.queue.room (map (λ b. b.capacity) p.outs.items) };
}

impl<'g, A: PathAlgebra> PartState<'g, A> {
    /// The algebra of the diffusion.
    pub(crate) fn algebra(&self) -> A
        ensures algebra { result ≡ self.now.setup.diffusion.algebra }
        ensures formed { WellFormed (network_of self.now.setup) }
        ensures tallied { IsTallied self.now }
    {
        self.algebra
    }

    /// Which shard it is.
    pub(crate) fn shard(&self) -> Shard
        ensures shard { result ≡ self.now.shard }
        // What holds of every part, for callers that rely on it.
        ensures holds { PartInvariant self.now }
    {
        self.shard
    }

    /// What has been counted, the environment's message and the acceptance of its signal at the
    /// source's part.
    pub(crate) fn tally(&self) -> Tally
        ensures { result ≡ tally_in self.now }
    {
        Tally {
            sent: self.sent,
            delivered: self.delivered,
            signalled: self.signalled,
            accepted: self.accepted,
            full: is_at_top(self.sent)
                || is_at_top(self.delivered)
                || is_at_top(self.signalled)
                || is_at_top(self.accepted),
        }
    }
}

/// Whether the counter is at its top, where it stops.
fn is_at_top(counter: u64) -> bool
    ensures { result ≡ leb top counter }
{
    counter == u64::MAX
}
