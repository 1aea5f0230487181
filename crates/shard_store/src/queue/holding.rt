//! Whether what waits in a queue is held back.
ghost use Rattle.std.specs.Prelude.{◌≡◌, ◌++◌, [], ◌∷◌, List, IsTrue, map};
ghost use Rattle.std.specs.BinaryHeap.{heap_items, IsHeap};
ghost use Rattle.ranked_queue.specs.Order.{ranked_cmp};
ghost use Rattle.shard_store.specs.Queue.{ranked_item, IsWorseMessage, IsHeldBy, IsBestWaiting};
ghost use Rattle.scholten_core.specs.declared.item.Item.{Item};
ghost use Rattle.shard_store.specs.declared.queue_order.QueueOrder.TheVariants.{BestFirst};

use crate::queue::{Queue, RankedMessage};
use crate::queue_order::QueueOrder;
use path_algebra::{PathAlgebra, better_label};
use scholten_core::Item;
use std::collections::BinaryHeap;

impl<A: PathAlgebra> Queue<A> {
    /// Whether all that waits is held back by a limit: messages with worse values, and nothing
    /// else. First come, first served nothing is.
    pub fn is_held(&self, limit: A::Value) -> bool
        ensures held { IsTrue result → IsHeldBy A.order limit self.now.items }
        ensures all { self.now.room.order ≡ BestFirst → IsHeldBy A.order limit self.now.items →
            IsTrue result }
    {
        match self.order {
            QueueOrder::Arrival => false,
            QueueOrder::BestFirst => {
                is_top_worse(&self.ranked, limit) && are_worse::<A>(&self.back, limit)
            }
        }
    }

    /// The best value that waits; first come, first served none.
    pub fn best(&self) -> Option<A::Value>
        ensures { self.now.room.order ≡ BestFirst → IsBestWaiting A.order self.now.items result }
    {
        best_with::<A>(top_value(&self.ranked), &self.back)
    }
}

/// The best value of the ranked messages.
fn top_value<A: PathAlgebra>(ranked: &BinaryHeap<RankedMessage<A>>) -> Option<A::Value>
    requires { IsHeap (ranked_cmp (λ m. m.value) (λ m. m.rank) A.order) (heap_items ranked.now) }
    ensures { IsBestWaiting A.order (map ranked_item (heap_items ranked.now)) result }
{
    match ranked.peek() {
        Some(top) => Some(top.value),
        None => None,
    }
}

/// The best value, once more items wait.
fn best_with<A: PathAlgebra>(best: Option<A::Value>, items: &[Item<A::Value>]) -> Option<A::Value>
    ensures { (waiting : List (Item A.Value)) → IsBestWaiting A.order waiting best →
        IsBestWaiting A.order (waiting ++ items.now) result }
{
    let mut best = best;
    for i in 0..items.len() {
        best = better::<A>(best, items[i]);
    }
    best
}

/// The best value, once one more item waits.
fn better<A: PathAlgebra>(best: Option<A::Value>, item: Item<A::Value>) -> Option<A::Value>
    ensures { (waiting : List (Item A.Value)) → IsBestWaiting A.order waiting best →
        IsBestWaiting A.order (waiting ++ item ∷ []) result }
{
    match item {
        Item::Message { value, .. } => better_label::<A>(best, Some(value)),
        Item::Signal { .. } => best,
    }
}

/// Whether all ranked messages are worse than a limit.
fn is_top_worse<A: PathAlgebra>(ranked: &BinaryHeap<RankedMessage<A>>, limit: A::Value) -> bool
    requires { IsHeap (ranked_cmp (λ m. m.value) (λ m. m.rank) A.order) (heap_items ranked.now) }
    ensures held { IsTrue result → IsHeldBy A.order limit
        (map ranked_item (heap_items ranked.now)) }
    ensures all { IsHeldBy A.order limit (map ranked_item (heap_items ranked.now)) →
        IsTrue result }
{
    match ranked.peek() {
        Some(top) => !A::no_worse(top.value, limit),
        None => true,
    }
}

/// Whether an item is a message worse than a limit.
fn is_worse<A: PathAlgebra>(item: Item<A::Value>, limit: A::Value) -> bool
    ensures worse { IsTrue result → IsWorseMessage A.order limit item }
    ensures all { IsWorseMessage A.order limit item → IsTrue result }
{
    match item {
        Item::Message { value, .. } => !A::no_worse(value, limit),
        Item::Signal { .. } => false,
    }
}

/// Whether all items of a list are messages worse than a limit.
fn are_worse<A: PathAlgebra>(items: &[Item<A::Value>], limit: A::Value) -> bool
    ensures held { IsTrue result → IsHeldBy A.order limit items.now }
    ensures all { IsHeldBy A.order limit items.now → IsTrue result }
{
    for i in 0..items.len() {
        if !is_worse::<A>(items[i], limit) {
            return false;
        }
    }
    true
}
