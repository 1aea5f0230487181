//! How a part handles an item: the event, and the moves that it is made of.
ghost use Rattle.std.specs.Prelude.{◌≡◌, ◌≢◌, ◌+◌, ◌*◌, ◌<◌, ◌≤◌, []};
ghost use Rattle.scholten_core.specs.Diffusion.{improves as improves_on};
ghost use Rattle.scholten_core.specs.Items.{item_arc};
ghost use Rattle.shard_store.specs.Tallies.{counted_on};
ghost use Rattle.shard_store.specs.Setup.{network_of, place_in};
ghost use Rattle.shard_part.specs.PartState.{state_in, vertex_of, IsArc};
ghost use Rattle.shard_part.specs.LocalInvariant.{IsClear};
ghost use Rattle.shard_part.specs.Part.{OwnIdleIsTold};
ghost use Rattle.shard_part.specs.Repaying.{HandledRun, RestsRepaid, TakenRepaid, repaid};
ghost use Rattle.shard_store.specs.declared.queue_order.QueueOrder.TheVariants.{BestFirst};
ghost use Rattle.shard_part.specs.Moves.{IsPlace, engaged_or_answered, labelled, rested, valued, with_free};

use crate::state::PartState;
use path_algebra::{PathAlgebra, laws_hold};
use road_graph::ArcNo;
use scholten_core::{Item, improves};
use shard_store::{ArcPlace, QueueOrder, VertexPlace};

impl<'g, A: PathAlgebra> PartState<'g, A> {
    /// Handles the item whose turn it is, if there is one, and with it messages that it makes and
    /// that change nothing: each with its signal, so these are two items. Says how many items, at
    /// most `left`.
    pub(crate) fn handle_next(&mut self, left: u32) -> u32
        requires { 0 < left }
        ensures taken { 0 < result → OwnIdleIsTold self.old → HandledRun A.meaning self.old result
            self.new }
        ensures told { OwnIdleIsTold self.old → OwnIdleIsTold self.new }
        ensures none { result ≡ 0 → (self.old.queue ≡ []) × (self.new ≡ self.old) }
        ensures left { result ≤ left }
    {
        laws_hold(self.algebra);
        let most = self.repayable(left);
        match self.pop() {
            Some(item) => 1 + 2 * self.handle_item(item, most),
            None => 0,
        }
    }

    /// How many messages may be repaid with an item, if so many items are left: best first alone,
    /// where they go at once.
    fn repayable(&self, left: u32) -> u32
        requires { 0 < left }
        ensures left { 1 + 2 * result ≤ left }
        ensures order { 0 < result → self.now.setup.order ≡ BestFirst }
    {
        match self.order {
            QueueOrder::Arrival => 0,
            QueueOrder::BestFirst => (left - 1) / 2,
        }
    }

    /// Handles an item that was taken from the queue. Says how many messages, at most `most`, were
    /// repaid.
    fn handle_item(&mut self, item: Item<A::Value>, most: u32) -> u32
        requires arc { IsArc (network_of self.old.setup) (item_arc item) }
        requires here { place_in self.old.setup (vertex_of (network_of self.old.setup) item) ≡
            self.old.shard }
        requires clear { IsClear self.old (item_arc item) }
        ensures taken { TakenRepaid (A.meaning self.old.setup.diffusion.algebra) item result
            self.old self.new }
        ensures most { result ≤ most }
    {
        match item {
            Item::Message { arc, value } => {
                self.count_delivered();
                self.handle_message(arc, value, most)
            }
            Item::Signal { arc } => {
                self.count_accepted();
                self.handle_signal(arc);
                0
            }
        }
    }

    /// Counts a message that was handled.
    fn count_delivered(&mut self)
        ensures { self.new ≡ record self.old { delivered = counted_on 1 self.old.delivered } }
    {
        self.delivered = self.delivered.saturating_add(1);
    }

    /// Counts a signal that was handled.
    fn count_accepted(&mut self)
        ensures { self.new ≡ record self.old { accepted = counted_on 1 self.old.accepted } }
    {
        self.accepted = self.accepted.saturating_add(1);
    }

    /// Counts messages that were repaid as they were made.
    fn count_repaid(&mut self, n: u32)
        ensures { self.new ≡ repaid n self.old }
    {
        let n = u64::from(n);
        self.sent = self.sent.saturating_add(n);
        self.delivered = self.delivered.saturating_add(n);
        self.signalled = self.signalled.saturating_add(n);
        self.accepted = self.accepted.saturating_add(n);
    }

    /// A message is handled at its head. Says how many messages, at most `most`, were repaid.
    fn handle_message(&mut self, a: ArcNo, value: A::Value, most: u32) -> u32
        requires arc { IsArc (network_of self.old.setup) a }
        requires here { place_in self.old.setup ((network_of self.old.setup).head a) ≡
            self.old.shard }
        requires clear { IsClear self.old a }
        ensures rests { RestsRepaid (A.meaning self.old.setup.diffusion.algebra)
            ((network_of self.old.setup).head a) result
            (valued (A.meaning self.old.setup.diffusion.algebra) a value
            ((network_of self.old.setup).head a) self.old) self.new }
        ensures most { result ≤ most }
    {
        let v = self.place(self.head(a));
        let improved = self.improve(v, value);
        self.engage_or_answer(a, v);
        let repaid = self.pump_if(v, improved, most);
        self.count_repaid(repaid);
        self.rest(v);
        repaid
    }

    /// A signal is handled at its tail.
    fn handle_signal(&mut self, a: ArcNo)
        requires arc { IsArc (network_of self.old.setup) a }
        requires here { place_in self.old.setup ((network_of self.old.setup).tail a) ≡
            self.old.shard }
        requires clear { IsClear self.old a }
        ensures { self.new ≡ with_free (A.meaning self.old.setup.diffusion.algebra) a
            ((network_of self.old.setup).tail a) self.old }
    {
        let v = self.place(self.tail(a));
        let k = self.rank_of(a);
        let b = ArcPlace {
            arc: a,
            at: self.row(v, k),
        };
        self.free(v, b);
        if a.0 > 0 {
            self.offer_again(v, k, b);
            self.rest(v);
        }
    }

    /// Sets the label of the vertex at a place to the value, if that is better. Says whether it
    /// was.
    fn improve(&mut self, v: VertexPlace, value: A::Value) -> bool
        requires { IsPlace self.old v.vertex v.at }
        ensures improved { result ≡ improves_on (A.meaning self.old.setup.diffusion.algebra) value
            ((state_in self.old).label v.vertex) }
        ensures moved { self.new ≡ labelled (A.meaning self.old.setup.diffusion.algebra) value
            v.vertex self.old }
    {
        let improved = improves(self.algebra, value, self.label_at(v));
        if improved {
            self.set_label(v, value);
        }
        improved
    }

    /// A message on arc a finds the vertex at a place: a neutral one is engaged, any other answers.
    fn engage_or_answer(&mut self, a: ArcNo, v: VertexPlace)
        requires place { IsPlace self.old v.vertex v.at }
        requires vertex { v.vertex ≢ 0 }
        requires arc { IsArc (network_of self.old.setup) a }
        requires head { (network_of self.old.setup).head a ≡ v.vertex }
        requires clear { IsClear self.old a }
        ensures { self.new ≡ engaged_or_answered a v.vertex ((state_in self.old).engager v.vertex)
            self.old }
    {
        match self.engager_at(v) {
            None => self.engage(v, a),
            Some(_) => self.signal(a),
        }
    }

    /// The vertex at a place becomes neutral, and a signal goes back on its engager, if it is
    /// engaged and no arc out of it is busy.
    fn rest(&mut self, v: VertexPlace)
        requires place { IsPlace self.old v.vertex v.at }
        requires vertex { v.vertex ≢ 0 }
        ensures { self.new ≡ rested (A.meaning self.old.setup.diffusion.algebra) v.vertex self.old }
    {
        if let Some(e) = self.engager_at(v) {
            if self.deficit_at(v) == 0 {
                self.release(v);
                self.signal(e);
            }
        }
    }
}
