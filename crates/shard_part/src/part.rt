//! One shard's part of a diffusion: opened, run item by item, and closed.
ghost use Rattle.std.specs.Prelude.{◌≡◌, ◌≢◌, ◌⊎◌, ◌+◌, ◌<◌, ◌≤◌, [], ◌++◌, length, get_or, set, IfOk, IsTrue};
ghost use Rattle.circular_buffer.specs.Buffer.{buffer};
ghost use Rattle.road_graph.specs.GraphData.{HasVertex};
ghost use Rattle.scholten_core.specs.Network.{network};
ghost use Rattle.scholten_core.specs.Diffusion.{state_after};
ghost use Rattle.shard_store.specs.Setup.{network_of, place_in, setup_of};
ghost use Rattle.shard_store.specs.Capacities.{queue_bound, outbox_bound};
ghost use Rattle.shard_part.specs.Represents.{HoldsShare};
ghost use Rattle.shard_part.specs.Opening.{opened_part};
ghost use Rattle.shard_part.specs.Exchange.{Fits};
ghost use Rattle.shard_store.specs.declared.queue_order.QueueOrder.TheVariants.{BestFirst};
ghost use Rattle.shard_part.specs.Part.{HandledMany, HandledWithin, IsHeldBack, RunsAhead, RunsOn};
ghost use Rattle.shard_part.specs.Repaying.{HandledRun};

mod readings;

use crate::closed::ClosedPart;
use crate::laws::plan_holds;
use crate::state::PartState;
use path_algebra::{PathAlgebra, laws_hold};
use road_graph::{Graph, Memory, Vertex};
use scholten_core::roads_hold;
use shard_store::{Batch, CountedPlan, QueueOrder, Shard, ShardLayout};
use std::alloc::Global;
use std::marker::Model;

/// One shard's part of a diffusing computation: labels and engagers of its vertices, a queue of
/// items to be handled, and an outbox for each other shard.
#[derive(Drop)]
pub struct Part<'g, A: PathAlgebra> {
    state: PartState<'g, A>,
}

impl<'g, A: PathAlgebra> Model for Part<'g, A> {
    ghost use Rattle.shard_part.specs.PartState.{PartData};
    ghost use Rattle.shard_part.specs.Part.{OwnIdleIsTold};

    ghost Value = { PartData A A.Value };

    ghost view = { λ p. p.state };

    ghost invariant = { λ p. OwnIdleIsTold p.state };
}

impl<'g, A: PathAlgebra> Part<'g, A> {
    /// The part of one shard before any event. At the source's part the message of the environment
    /// waits, with the origin as its value. Its items will be taken in this order. Its queue has a
    /// place for each arc with an end in the shard, each outbox one for each arc between the two
    /// shards: no later call takes memory.
    pub fn open(
        alloc: Global,
        algebra: A,
        graph: &'g Graph,
        counted: &'g CountedPlan,
        shard: Shard,
        source: Vertex,
        order: QueueOrder,
    ) -> Result<Part<'g, A>, Memory>
        requires source { HasVertex graph.now source }
        requires graph { counted.now.roads ≡ graph.now }
        requires shard { shard < counted.now.plan.shards }
        ensures part { IfOk result (λ p. p ≡ opened_part (A.meaning algebra)
            (setup_of algebra graph.now source counted.now.plan order) shard) }
        ensures share { IfOk result (λ p. HoldsShare A.meaning (state_after (A.meaning algebra)
            (network graph.now source) []) p) }
    {
        roads_hold(graph);
        let plan = counted.plan();
        plan_holds(plan);
        let layout = ShardLayout {
            graph,
            plan,
            source,
            shard,
        };
        let state = PartState::open(alloc, algebra, layout, counted, order)?;
        Ok(Part { state })
    }

    /// Takes the item whose turn it is off the queue and handles it, if there is one, with others
    /// that go at once. Says how many, at most `left`.
    fn take_next(&mut self, left: u32) -> u32
        requires { 0 < left }
        ensures taken { 0 < result → HandledRun A.meaning self.old result self.new }
        ensures none { result ≡ 0 → (self.old.queue ≡ []) × (self.new ≡ self.old) }
        ensures left { result ≤ left }
    {
        self.state.handle_next(left)
    }

    /// As `handle_within` without a limit: it goes on until the budget is used up or the queue is
    /// empty.
    pub fn handle(&mut self, budget: u32) -> u32
        ensures budget { result ≤ budget }
        ensures all { (result ≡ budget) ⊎ (self.new.queue ≡ []) }
        ensures taken { HandledMany A.meaning self.old result self.new }
        ensures setup { self.new.setup ≡ self.old.setup }
        ensures shard { self.new.shard ≡ self.old.shard }
        ensures events { RunsOn A.meaning self.old result self.new }
    {
        self.handle_within(budget, None, None)
    }

    /// Takes items off the queue in its order and handles them, one after the other, until the
    /// budget is used up, the queue is empty or, best first, all that waits is held back, and says
    /// how many. Held back are messages worse than the limit, and those worse than a message for
    /// another shard will be after one more arc of the weight `ahead`. So best first no message
    /// that improves a label is worse than the limit.
    ///
    /// What an item makes goes to the back of the queue if it belongs to this shard, else to the
    /// back of the outbox to its shard. Whatever the other parts hold: if this part held its share
    /// of a state that some events lead to, the items are that many further events, each enabled in
    /// its turn, and the part holds its share of the state that they lead to. Its counters have
    /// grown by what these events sent, delivered, signalled and accepted, up to 2^64 - 1.
    pub fn handle_within(&mut self, budget: u32, limit: Option<A::Value>, ahead: Option<u32>) -> u32
        ensures budget { result ≤ budget }
        ensures all { (result ≡ budget) ⊎ ((self.new.queue ≡ []) ⊎
            (IsHeldBack A.order limit self.new ⊎ RunsAhead (A.meaning self.old.setup.diffusion.algebra) ahead self.new)) }
        ensures within { HandledWithin A.meaning limit self.old result self.new }
        ensures taken { HandledMany A.meaning self.old result self.new }
        ensures setup { self.new.setup ≡ self.old.setup }
        ensures shard { self.new.shard ≡ self.old.shard }
        ensures events { RunsOn A.meaning self.old result self.new }
    {
        laws_hold(self.state.algebra());
        self.state.note_outgoing();
        let mut taken = 0;
        while taken < budget {
            if self.is_held(limit) {
                return taken;
            }
            if self.runs_ahead(ahead) {
                return taken;
            }
            let more = self.take_next(budget - taken);
            if more == 0 {
                return taken;
            }
            taken += more;
        }
        taken
    }

    /// Whether all that waits is messages worse than the limit, if there is one.
    fn is_held(&self, limit: Option<A::Value>) -> bool
        ensures held { IsTrue result → IsHeldBack A.order limit self.now }
        ensures all { self.now.setup.order ≡ BestFirst → IsHeldBack A.order limit self.now →
            IsTrue result }
    {
        match limit {
            Some(limit) => self.state.queue.is_held(limit),
            None => false,
        }
    }

    /// Whether the part is ahead of what it has sent by more than this weight, if there is one.
    fn runs_ahead(&self, ahead: Option<u32>) -> bool
        ensures { IsTrue result → RunsAhead (A.meaning self.now.setup.diffusion.algebra) ahead
            self.now }
    {
        let Some(ahead) = ahead else {
            return false;
        };
        self.state.is_ahead_of_sent(ahead)
    }
}

impl<'g, A: PathAlgebra> Part<'g, A> {
    /// Exchanges the outbox to another shard for an empty batch of the same capacity.
    pub fn swap_outbox(&mut self, to: Shard, batch: &mut Batch<A::Value>)
        requires other { to ≢ self.old.shard }
        requires shard { to < self.old.setup.plan.shards }
        requires empty { batch.old.items ≡ [] }
        requires capacity { batch.old.capacity ≡ outbox_bound (network_of self.old.setup)
            (place_in self.old.setup) self.old.shard to }
        ensures part { self.new ≡ record self.old { outs = set self.old.outs to [] } }
        ensures batch { batch.new ≡ buffer (get_or self.old.outs to []) batch.old.capacity }
    {
        self.state.swap_outbox(to, batch)
    }

    /// Appends all items of a batch to the queue, in order, and leaves the batch empty.
    pub fn receive(&mut self, batch: &mut Batch<A::Value>)
        requires room { length self.old.queue + length batch.old.items ≤ queue_bound
            (network_of self.old.setup) (place_in self.old.setup) self.old.shard }
        requires fits { Fits (A.meaning self.old.setup.diffusion.algebra) self.old batch.old.items }
        ensures part { self.new ≡ record self.old { queue = self.old.queue ++ batch.old.items } }
        ensures batch { batch.new ≡ buffer [] batch.old.capacity }
    {
        self.state.receive(batch)
    }

    /// Frees the tables of arcs, the queue and the outboxes, and keeps the labels of the vertices
    /// and the counts.
    pub fn close(self) -> ClosedPart<'g, A>
        ensures { result ≡ self.entry }
    {
        let Part { state } = self;
        ClosedPart::of(state)
    }
}
