//! A ring of items that go from one shard to another.
ghost use Rattle.std.specs.Prelude.{◌≡◌, ◌+◌, ◌<◌, ◌≤◌, ◌++◌, [], ◌∷◌, length, drop, slice_get, leb, map, replicate, IfOk};
ghost use Rattle.circular_buffer.specs.Buffer.{buffer};
ghost use Rattle.scholten_core.specs.Items.{item_arc};
ghost use Rattle.shard_store.specs.Totals.{counted};

use circular_buffer::HeapCircularBuffer;
use road_graph::{ArcNo, Memory};
use scholten_core::Item;
use std::alloc::Global;
use std::marker::Model;

/// A ring of items of a fixed capacity.
#[derive(Drop)]
pub struct Batch<V> {
    items: HeapCircularBuffer<Item<V>>,
}

impl<V> Model for Batch<V> {
    ghost use Rattle.circular_buffer.specs.Buffer.{Buffer};
    ghost use Rattle.scholten_core.specs.declared.item.Item.{Item};

    ghost Value = { Buffer (Item V) };

    ghost view = { λ b. b.items };
}

impl<V: Copy> Batch<V> {
    /// An empty batch.
    pub fn empty(alloc: Global, capacity: usize) -> Result<Batch<V>, Memory>
        ensures { IfOk result (λ b. b ≡ buffer [] capacity) }
    {
        let items = HeapCircularBuffer::with_capacity(alloc, capacity)?;
        Ok(Batch { items })
    }

    /// How many items it holds.
    pub fn len(&self) -> usize
        ensures { result ≡ length self.now.items }
    {
        self.items.len()
    }

    /// How many items it may hold.
    pub fn capacity(&self) -> usize
        ensures { result ≡ self.now.capacity }
    {
        self.items.capacity()
    }

    /// The item at an index, counted from the front.
    pub fn get(&self, index: usize) -> Option<Item<V>>
        ensures { result ≡ slice_get self.now.items index }
    {
        match self.items.get(index) {
            Some(item) => Some(*item),
            None => None,
        }
    }

    /// Whether an item on an arc is at an index or after it.
    pub fn carries_from(&self, from: usize, arc: ArcNo) -> bool
        ensures { result ≡ leb 1 (counted arc (drop from self.now.items)) }
    {
        let (one, other) = self.items.as_slices();
        carried_in(one, from, arc) || carried_in(other, from.saturating_sub(one.len()), arc)
    }

    /// Puts an item at the back.
    pub fn push(&mut self, item: Item<V>)
        requires { length self.old.items < self.old.capacity }
        ensures { self.new ≡ buffer (self.old.items ++ item ∷ []) self.old.capacity }
    {
        self.items.push_back(item);
    }

    /// Takes the item at the front.
    pub fn pop(&mut self) -> Option<Item<V>>
        ensures value { result ≡ slice_get self.old.items 0 }
        ensures items { self.new ≡ buffer (drop 1 self.old.items) self.old.capacity }
    {
        self.items.pop_front()
    }
}

/// Whether an item on an arc is in a list, at an index or after it.
pub fn carried_in<V: Copy>(items: &[Item<V>], from: usize, arc: ArcNo) -> bool
    ensures { result ≡ leb 1 (counted arc (drop from items.now)) }
{
    for i in from..items.len() {
        if arc_of(items[i]) == arc {
            return true;
        }
    }
    false
}

/// The arc that an item is on.
pub fn arc_of<V: Copy>(item: Item<V>) -> ArcNo
    ensures { result ≡ item_arc item }
{
    match item {
        Item::Message { arc, value: _ } => arc,
        Item::Signal { arc } => arc,
    }
}

/// Empty batches of these capacities.
pub fn empty_batches<V: Copy>(alloc: Global, capacities: &[usize]) -> Result<Vec<Batch<V>>, Memory>
    ensures items { IfOk result (λ all. map (λ b. b.items) all.items ≡ replicate
        (length capacities.now) []) }
    ensures capacities { IfOk result (λ all. map (λ b. b.capacity) all.items ≡ capacities.now) }
{
    let mut all = Vec::with_capacity(alloc, capacities.len())?;
    for capacity in capacities {
        let batch = Batch::empty(alloc, *capacity)?;
        if all.push(batch).is_err() {
            return Err(Memory);
        }
    }
    Ok(all)
}
