//! The queue of a part.
ghost use Rattle.std.specs.Prelude.{◌≡◌, ◌+◌, ◌<◌, ◌≤◌, ◌++◌, [], ◌∷◌, length, drop, map, leb, IfOk, IfSome, IfNone, vec_capacity};
ghost use Rattle.std.specs.List.Sorted.{IsPermutation};
ghost use Rattle.std.specs.BinaryHeap.{heap_items, heap_capacity};
ghost use Rattle.circular_buffer.specs.Buffer.{buffer};
ghost use Rattle.shard_store.specs.Totals.{counted};
ghost use Rattle.shard_store.specs.Queue.{line, room, ranked_item, IsNewest, IsBestMessage};
ghost use Rattle.shard_store.specs.declared.queue_order.QueueOrder.TheVariants.{Arrival, BestFirst};

mod holding;

use crate::batch::{Batch, carried_in};
use crate::queue_order::QueueOrder;
use path_algebra::PathAlgebra;
use ranked_queue::Ranked;
use road_graph::{ArcNo, Memory};
use scholten_core::Item;
use std::alloc::Global;
use std::collections::BinaryHeap;
use std::marker::Model;

/// A message that waits for its turn by value; its rank is its arc.
pub type RankedMessage<A> = Ranked<A, ArcNo>;

/// The items that wait at a part: a queue of a fixed capacity.
///
/// First come, first served: items enter at the back of one list and leave from the front of
/// another; when that is used up, the two are swapped. So each list touches memory for as many
/// items as ever waited at once, not for the whole capacity. Best first: they enter at the back of
/// one list, and leave from there at once or are ranked in a heap, the best on top.
#[derive(Drop)]
pub struct Queue<A: PathAlgebra> {
    order: QueueOrder,
    ranked: BinaryHeap<RankedMessage<A>>,
    front: Vec<Item<A::Value>>,
    /// How many of `front` were taken.
    taken: usize,
    back: Vec<Item<A::Value>>,
    capacity: usize,
}

impl<A: PathAlgebra> Model for Queue<A> {
    ghost use Rattle.std.specs.Prelude.{◌++◌, drop, map, length};
    ghost use Rattle.std.specs.BinaryHeap.{heap_items, heap_capacity};
    ghost use Rattle.scholten_core.specs.declared.item.Item.{Item};
    ghost use Rattle.ranked_queue.specs.Order.{ranked_cmp};
    ghost use Rattle.shard_store.specs.Queue.{Line, line, room, ranked_item, IsItemQueue};

    ghost Value = { Line (Item A.Value) };

    ghost view = { λ q. line (map ranked_item (heap_items q.ranked) ++ (drop q.taken q.front.items ++ q.back.items)) (length (heap_items q.ranked)) (room q.capacity q.order) };

    ghost invariant = { λ q. IsItemQueue (ranked_cmp (λ m. m.value) (λ m. m.rank) A.order) q.order (heap_items q.ranked) (heap_capacity q.ranked) q.front q.taken q.back q.capacity };
}

impl<A: PathAlgebra> Queue<A> {
    /// An empty queue.
    pub fn empty(alloc: Global, order: QueueOrder, capacity: usize) -> Result<Queue<A>, Memory>
        ensures { IfOk result (λ q. q ≡ line [] 0 (room capacity order)) }
    {
        let ranked = BinaryHeap::with_capacity(alloc, ranked_room(order, capacity))?;
        let front = Vec::with_capacity(alloc, front_room(order, capacity))?;
        let back = Vec::with_capacity(alloc, capacity)?;
        Ok(Queue {
            order,
            ranked,
            front,
            taken: 0,
            back,
            capacity,
        })
    }

    /// How many items it holds.
    pub fn len(&self) -> usize
        ensures { result ≡ length self.now.items }
    {
        self.ranked.len() + (self.front.len() - self.taken) + self.back.len()
    }

    /// How many items it may hold.
    pub fn capacity(&self) -> usize
        ensures { result ≡ self.now.room.capacity }
    {
        self.capacity
    }

    /// Whether an item on an arc is in it.
    pub fn carries(&self, arc: ArcNo) -> bool
        ensures { result ≡ leb 1 (counted arc self.now.items) }
    {
        is_ranked(self.ranked.as_slice(), arc)
            || carried_in(&self.front, self.taken, arc)
            || carried_in(&self.back, 0, arc)
    }

    /// Puts an item at the back.
    pub fn push(&mut self, item: Item<A::Value>)
        requires { length self.old.items < self.old.room.capacity }
        ensures { self.new ≡ record self.old { items = self.old.items ++ item ∷ [] } }
    {
        self.back.push_reserved(item);
    }

    /// Moves all items of a batch to the back, in order.
    pub fn append(&mut self, other: &mut Batch<A::Value>)
        requires { length self.old.items + length other.old.items ≤ self.old.room.capacity }
        ensures own { self.new ≡ record self.old { items = self.old.items ++ other.old.items } }
        ensures other { other.new ≡ buffer [] other.old.capacity }
    {
        while let Some(item) = other.pop() {
            self.push(item);
        }
    }

    /// Takes the item that came first.
    pub fn pop_first(&mut self) -> Option<Item<A::Value>>
        requires { self.old.room.order ≡ Arrival }
        ensures first { IfSome result (λ i. self.old.items ≡ i ∷ self.new.items) }
        ensures none { IfNone result ((self.old.items ≡ []) × (self.new.items ≡ [])) }
        ensures room { self.new.room ≡ self.old.room }
    {
        if self.taken >= self.front.len() {
            refill(&mut self.front, &mut self.back);
            self.taken = 0;
        }
        match self.front.get(self.taken) {
            Some(item) => {
                let item = *item;
                self.taken += 1;
                Some(item)
            }
            None => None,
        }
    }
}

/// Best first: what came is looked at from the newest on, and is taken at once or ranked by its
/// value.
impl<A: PathAlgebra> Queue<A> {
    /// The item that came last, if not all items are ranked.
    pub fn newest(&self) -> Option<Item<A::Value>>
        requires { self.now.room.order ≡ BestFirst }
        ensures newest { IfSome result (λ i. IsNewest self.now i) }
        ensures none { IfNone result (self.now.ranked ≡ length self.now.items) }
    {
        self.back.last().copied()
    }

    /// Takes the item that came last, if not all items are ranked.
    pub fn pop_newest(&mut self) -> Option<Item<A::Value>>
        requires { self.old.room.order ≡ BestFirst }
        ensures newest { IfSome result (λ i. self.old.items ≡ self.new.items ++ i ∷ []) }
        ensures none { IfNone result (self.old.ranked ≡ length self.old.items) }
        ensures room { self.new.room ≡ self.old.room }
    {
        self.back.pop()
    }

    /// Ranks the item that came last, this message, by its value.
    pub fn rank_newest(&mut self, message: RankedMessage<A>)
        requires order { self.old.room.order ≡ BestFirst }
        requires newest { IsNewest self.old (ranked_item message) }
        ensures items { IsPermutation self.old.items self.new.items }
        ensures ranked { self.new.ranked ≡ self.old.ranked + 1 }
        ensures room { self.new.room ≡ self.old.room }
    {
        self.back.pop();
        let _ = self.ranked.push(message);
    }

    /// Takes the message with the best value, and of equal values that on the least arc.
    pub fn pop_best(&mut self) -> Option<Item<A::Value>>
        requires order { self.old.room.order ≡ BestFirst }
        requires ranked { self.old.ranked ≡ length self.old.items }
        ensures left { IfSome result (λ i. IsPermutation self.old.items (i ∷ self.new.items)) }
        ensures best { IfSome result (λ i. IsBestMessage A.order i self.new.items) }
        ensures none { IfNone result ((self.old.items ≡ []) × (self.new.items ≡ [])) }
        ensures room { self.new.room ≡ self.old.room }
    {
        let best = self.ranked.pop()?;
        Some(Item::Message {
            arc: best.rank,
            value: best.value,
        })
    }
}

/// Whether a message on an arc is ranked.
fn is_ranked<A: PathAlgebra>(ranked: &[RankedMessage<A>], arc: ArcNo) -> bool
    ensures { result ≡ leb 1 (counted arc (map ranked_item ranked.now)) }
{
    for i in 0..ranked.len() {
        if ranked[i].rank == arc {
            return true;
        }
    }
    false
}

/// How many messages may be ranked.
fn ranked_room(order: QueueOrder, capacity: usize) -> usize
    ensures none { order ≡ Arrival → result ≡ 0 }
    ensures all { order ≡ BestFirst → result ≡ capacity }
{
    match order {
        QueueOrder::Arrival => 0,
        QueueOrder::BestFirst => capacity,
    }
}

/// How many items the front list holds.
fn front_room(order: QueueOrder, capacity: usize) -> usize
    ensures all { order ≡ Arrival → result ≡ capacity }
    ensures none { order ≡ BestFirst → result ≡ 0 }
{
    match order {
        QueueOrder::Arrival => capacity,
        QueueOrder::BestFirst => 0,
    }
}

/// Makes the back list the front one, and the front one, cleared, the back one.
#[cold]
#[inline(never)]
fn refill<V: Copy>(front: &mut Vec<Item<V>>, back: &mut Vec<Item<V>>)
    ensures front { front.new ≡ back.old }
    ensures back { back.new.items ≡ [] }
    ensures room { vec_capacity back.new ≡ vec_capacity front.old }
{
    front.clear();
    std::mem::swap(front, back);
}
