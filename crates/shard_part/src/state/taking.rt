//! Which item of its queue a part takes.
ghost use Rattle.std.specs.Prelude.{◌≡◌, ◌≤◌, [], None, IfSome, IfNone, length, Contains};
ghost use Rattle.std.specs.List.Sorted.{IsStrictlyIncreasing};
ghost use Rattle.road_graph.specs.GraphData.{HasVertex};
ghost use Rattle.scholten_core.specs.Network.{network};
ghost use Rattle.scholten_core.specs.Items.{item_arc};
ghost use Rattle.shard_store.specs.Queue.{ranked_item};
ghost use Rattle.shard_store.specs.declared.queue_order.QueueOrder.TheVariants.{Arrival, BestFirst};
ghost use Rattle.shard_part.specs.PartState.{vertex_of};
ghost use Rattle.shard_part.specs.Moves.{IsPopped, IsSettledIn};

use crate::state::PartState;
use path_algebra::{PathAlgebra, laws_hold};
use road_graph::{Graph, Vertex};
use scholten_core::{Item, head_of, improves};
use shard_store::{QueueOrder, RankedMessage, Tables};

impl<'g, A: PathAlgebra> PartState<'g, A> {
    /// Takes the item whose turn it is off the queue.
    pub(super) fn pop(&mut self) -> Option<Item<A::Value>>
        ensures none { result ≡ None → (self.old.queue ≡ []) × (self.new ≡ self.old) }
        ensures some { IfSome result (λ i. IsPopped (A.meaning self.old.setup.diffusion.algebra)
            self.old self.new i) }
    {
        match self.order {
            QueueOrder::Arrival => self.pop_first(),
            QueueOrder::BestFirst => self.pop_best(),
        }
    }

    /// Takes the item that came first.
    fn pop_first(&mut self) -> Option<Item<A::Value>>
        requires { self.old.setup.order ≡ Arrival }
        ensures none { result ≡ None → (self.old.queue ≡ []) × (self.new ≡ self.old) }
        ensures some { IfSome result (λ i. IsPopped (A.meaning self.old.setup.diffusion.algebra)
            self.old self.new i) }
    {
        self.queue.pop_first()
    }

    /// Takes a signal or a message that improves nothing, if one came since the others were ranked,
    /// else the best message.
    fn pop_best(&mut self) -> Option<Item<A::Value>>
        requires { self.old.setup.order ≡ BestFirst }
        ensures none { result ≡ None → (self.old.queue ≡ []) × (self.new ≡ self.old) }
        ensures some { IfSome result (λ i. IsPopped (A.meaning self.old.setup.diffusion.algebra)
            self.old self.new i) }
    {
        laws_hold(self.algebra);
        while let Some(item) = self.queue.newest() {
            match improving(self.algebra, self.graph, self.source, &self.tables, item) {
                Some(message) => self.queue.rank_newest(message),
                None => return self.queue.pop_newest(),
            }
        }
        self.queue.pop_best()
    }
}

/// The message, if it would improve the label of its head. A signal improves none.
fn improving<A: PathAlgebra>(
    algebra: A,
    graph: &Graph,
    source: Vertex,
    tables: &Tables<A::Value>,
    item: Item<A::Value>,
) -> Option<RankedMessage<A>>
    requires source { HasVertex graph.now source }
    requires arc { item_arc item ≤ length graph.now.arcs }
    requires rows { length tables.now.vertices.labels ≡ length tables.now.own }
    requires increasing { IsStrictlyIncreasing tables.now.own }
    requires contained { Contains tables.now.own (vertex_of (network graph.now source) item) }
    ensures message { IfSome result (λ m. ranked_item m ≡ item) }
    ensures none { IfNone result (IsSettledIn (A.meaning algebra) (network graph.now source)
        tables.now.own tables.now.vertices.labels item) }
{
    match item {
        Item::Message { arc, value } => {
            let at = tables.own.find(head_of(graph, source, arc));
            let improved = improves(algebra, value, tables.vertices.label(at));
            improved.then_some(RankedMessage { value, rank: arc })
        }
        Item::Signal { .. } => None,
    }
}
