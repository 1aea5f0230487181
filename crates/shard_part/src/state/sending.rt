//! What a part sends along its arcs, and where it goes.
ghost use Rattle.std.specs.Prelude.{◌≡◌, ◌≢◌, ◌<◌, ◌≤◌, IsTrue, length, get_or, Option, Some, true, false, cond, not, ◌&&◌};
ghost use Rattle.road_graph.specs.GraphData.{arc_of, road_of};
ghost use Rattle.scholten_core.specs.declared.item.Item.TheVariants.{Signal as SignalOn};
ghost use Rattle.scholten_core.specs.Diffusion.{is_due as due};
ghost use Rattle.shard_store.specs.Setup.{network_of, place_in};
ghost use Rattle.shard_part.specs.PartState.{state_in, IsArc};
ghost use Rattle.shard_store.specs.Outgoing.{outgoing};
ghost use Rattle.shard_part.specs.LocalInvariant.{IsClear};
ghost use Rattle.shard_part.specs.Repaying.{AnswersAtOnce, IsVoidOffer, OfferedOrNoted, OwesMany};
ghost use Rattle.shard_part.specs.Moves.{IsPlace, IsArcRow, IsArcOut, MaySend, put_item, counted_made, with_item, with_message, offered, offered_all};

use crate::state::PartState;
use path_algebra::{PathAlgebra, better_label};
use road_graph::{ArcNo, OutRoad};
use scholten_core::{Item, extended, improves, is_same};
use shard_store::{ArcPlace, Shard, VertexPlace};

impl<'g, A: PathAlgebra> PartState<'g, A> {
    /// Offers its label to each due arc out of the vertex at a place, if the label improved.
    /// Otherwise none is due: each idle arc was offered it before. Says how many messages, at most
    /// `most`, it has only noted, since they change nothing.
    pub(super) fn pump_if(&mut self, v: VertexPlace, improved: bool, most: u32) -> u32
        requires place { IsPlace self.old v.vertex v.at }
        requires vertex { v.vertex ≢ 0 }
        ensures owes { OwesMany (A.meaning self.old.setup.diffusion.algebra) v.vertex result
            (cond improved (offered_all (A.meaning self.old.setup.diffusion.algebra) v.vertex
            (outgoing (network_of self.old.setup) v.vertex) self.old) self.old) self.new }
        ensures most { result ≤ most }
    {
        let _ = &self.algebra;
        if improved { self.pump(v, most) } else { 0 }
    }

    /// Offers its label to each due arc out of the vertex at a place. Says how many messages it has
    /// only noted.
    fn pump(&mut self, v: VertexPlace, most: u32) -> u32
        requires place { IsPlace self.old v.vertex v.at }
        requires vertex { v.vertex ≢ 0 }
        ensures owes { OwesMany (A.meaning self.old.setup.diffusion.algebra) v.vertex result
            (offered_all (A.meaning self.old.setup.diffusion.algebra) v.vertex
            (outgoing (network_of self.old.setup) v.vertex) self.old) self.new }
        ensures most { result ≤ most }
    {
        let graph = self.graph;
        let outgoing = graph.out(v.vertex);
        let mut noted = 0;
        for (k, b) in outgoing.iter().enumerate() {
            let i = self.row(v, k);
            let road = self.road_at(v, k);
            if self.offer(v, ArcPlace { arc: *b, at: i }, road, noted < most) {
                noted += 1;
            }
        }
        noted
    }

    /// Offers the label of the vertex at a place to the arc b out of it, if that is due. If the
    /// message changes nothing, it may only be noted; says whether it was.
    fn offer(&mut self, v: VertexPlace, b: ArcPlace, road: OutRoad, may_note: bool) -> bool
        requires place { IsPlace self.old v.vertex v.at }
        requires vertex { v.vertex ≢ 0 }
        requires out { IsArcOut self.old v.vertex b.arc b.at }
        requires graph { b.arc ≢ 0 }
        requires road { road ≡ road_of (arc_of self.old.setup.diffusion.roads b.arc) }
        ensures made { OfferedOrNoted (A.meaning self.old.setup.diffusion.algebra) v.vertex b.arc
            result self.old self.new }
        ensures may { IsTrue result → IsTrue may_note }
    {
        if !self.is_due(v, b) {
            return false;
        }
        if !may_note {
            self.make_offer(v, b, road);
            return false;
        }
        if self.is_void(v, b, &road) {
            let label = self.label_at(v);
            self.set_last_offer(b, label);
            return true;
        }
        self.make_offer(v, b, road);
        false
    }

    /// Whether a message along the arc b out of the vertex at a place would change nothing at its
    /// head, another vertex of this shard.
    fn is_void(&self, v: VertexPlace, b: ArcPlace, road: &OutRoad) -> bool
        requires place { IsPlace self.now v.vertex v.at }
        requires vertex { v.vertex ≢ 0 }
        requires out { IsArcOut self.now v.vertex b.arc b.at }
        requires graph { b.arc ≢ 0 }
        requires road { road.now ≡ road_of (arc_of self.now.setup.diffusion.roads b.arc) }
        ensures { IsTrue result → IsVoidOffer (A.meaning self.now.setup.diffusion.algebra)
            self.now v.vertex b.arc }
    {
        let Some(value) = extended(self.algebra, self.label_at(v), road.weight) else {
            return false;
        };
        let to = self.shard_of(road.head);
        if to != self.shard || road.head == v.vertex {
            return false;
        }
        let head = self.place(road.head);
        if improves(self.algebra, value, self.label_at(head)) {
            return false;
        }
        self.answers_at_once(head)
    }

    /// Whether the vertex at a place is neutral and no arc out of it is busy, or engaged and one is.
    fn answers_at_once(&self, v: VertexPlace) -> bool
        requires place { IsPlace self.now v.vertex v.at }
        ensures { IsTrue result → AnswersAtOnce (network_of self.now.setup) (state_in self.now)
            v.vertex }
    {
        self.engager_at(v).is_some() == (self.deficit_at(v) > 0)
    }

    /// The same for the k-th arc out of the vertex. Its head and weight are looked up only if it is
    /// due, as most are not.
    pub(super) fn offer_again(&mut self, v: VertexPlace, k: usize, b: ArcPlace)
        requires place { IsPlace self.old v.vertex v.at }
        requires vertex { v.vertex ≢ 0 }
        requires inside { k < length (outgoing (network_of self.old.setup) v.vertex) }
        requires turn { get_or (outgoing (network_of self.old.setup) v.vertex) k 0 ≡ b.arc }
        requires out { IsArcOut self.old v.vertex b.arc b.at }
        requires graph { b.arc ≢ 0 }
        ensures { self.new ≡ offered (A.meaning self.old.setup.diffusion.algebra) v.vertex b.arc
            self.old }
    {
        if self.is_due(v, b) {
            let road = self.road_at(v, k);
            self.make_offer(v, b, road);
        }
    }

    /// Whether the arc b out of the vertex at a place has to be offered its label.
    fn is_due(&self, v: VertexPlace, b: ArcPlace) -> bool
        requires place { IsPlace self.now v.vertex v.at }
        requires row { IsArcRow self.now b.arc b.at }
        requires tail { (network_of self.now.setup).tail b.arc ≡ v.vertex }
        ensures { result ≡ due (A.meaning self.now.setup.diffusion.algebra)
            (network_of self.now.setup) v.vertex (state_in self.now) b.arc }
    {
        neither(
            self.is_busy(b),
            is_same(self.algebra, self.last_offer(b), self.label_at(v)),
        )
    }

    /// Offers the label of the vertex at a place to the due arc b out of it.
    fn make_offer(&mut self, v: VertexPlace, b: ArcPlace, road: OutRoad)
        requires place { IsPlace self.old v.vertex v.at }
        requires vertex { v.vertex ≢ 0 }
        requires out { IsArcOut self.old v.vertex b.arc b.at }
        requires graph { b.arc ≢ 0 }
        requires road { road ≡ road_of (arc_of self.old.setup.diffusion.roads b.arc) }
        requires due { due (A.meaning self.old.setup.diffusion.algebra) (network_of self.old.setup)
            v.vertex (state_in self.old) b.arc ≡ true }
        ensures { self.new ≡ offered (A.meaning self.old.setup.diffusion.algebra) v.vertex b.arc
            self.old }
    {
        let label = self.label_at(v);
        let value = extended(self.algebra, label, road.weight);
        let to = self.plan.shard_of(road.head);
        self.set_last_offer(b, label);
        self.message(v, b, value, to);
    }

    /// Sends a message along the idle arc b, if there is a value.
    fn message(&mut self, v: VertexPlace, b: ArcPlace, value: Option<A::Value>, to: Shard)
        requires place { IsPlace self.old v.vertex v.at }
        requires vertex { v.vertex ≢ 0 }
        requires out { IsArcOut self.old v.vertex b.arc b.at }
        requires made { place_in self.old.setup ((network_of self.old.setup).tail b.arc) ≡
            self.old.shard }
        requires shard { to ≡ place_in self.old.setup ((network_of self.old.setup).head b.arc) }
        requires idle { get_or self.old.busy b.arc false ≡ false }
        ensures { self.new ≡ with_message b.arc value self.old }
    {
        if let Some(value) = value {
            self.occupy(v, b);
            self.put(Item::Message { arc: b.arc, value }, to);
        }
    }

    /// Makes the signal of an arc.
    pub(super) fn signal(&mut self, a: ArcNo)
        requires arc { IsArc (network_of self.old.setup) a }
        requires made { place_in self.old.setup ((network_of self.old.setup).head a) ≡
            self.old.shard }
        requires clear { IsClear self.old a }
        ensures { self.new ≡ with_item (SignalOn a) self.old }
    {
        let to = self.shard_of(self.tail(a));
        self.put(Item::Signal { arc: a }, to);
    }

    /// Makes an item: sends it and counts it.
    fn put(&mut self, item: Item<A::Value>, to: Shard)
        requires { MaySend self.old item to }
        ensures { self.new ≡ with_item item self.old }
    {
        self.note_sent(item, to);
        self.send(item, to);
        self.count_made(item);
    }

    /// Notes the value of a message to another shard, if it is better than what was noted.
    fn note_sent(&mut self, item: Item<A::Value>, to: Shard)
        ensures { self.new ≡ self.old }
    {
        if let Item::Message { value, .. } = item {
            if to != self.shard {
                self.best_sent = better_label::<A>(self.best_sent, Some(value));
            }
        }
    }

    /// Puts an item into the queue or the outbox where it belongs.
    fn send(&mut self, item: Item<A::Value>, to: Shard)
        requires { MaySend self.old item to }
        ensures { self.new ≡ put_item item self.old }
    {
        if to == self.shard {
            self.queue.push(item);
        } else {
            self.outs[to.0 as usize].push(item);
        }
    }

    /// Counts an item that was made.
    fn count_made(&mut self, item: Item<A::Value>)
        ensures { self.new ≡ counted_made item self.old }
    {
        match item {
            Item::Message { .. } => self.sent = self.sent.saturating_add(1),
            Item::Signal { .. } => self.signalled = self.signalled.saturating_add(1),
        }
    }
}

/// Whether neither holds.
fn neither(one: bool, other: bool) -> bool
    ensures { result ≡ (not one && not other) }
{
    !one && !other
}
