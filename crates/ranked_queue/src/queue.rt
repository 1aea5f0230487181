//! A queue of entries with ranks.

ghost use Rattle.std.specs.Prelude.{◌≡◌, ◌+◌, ◌∷◌, [], length, Contains, OnOk, OnErr, IfSome, IfNone};
ghost use Rattle.std.specs.BinaryHeap.{heap_items, IsHeap, IsUpperBound};
ghost use Rattle.std.specs.List.Sorted.{IsPermutation};
ghost use Rattle.ranked_queue.specs.Order.{ranked_order};

use crate::rank::Rank;
use crate::ranked::Ranked;
use path_algebra::PathAlgebra;
use road_graph::Memory;
use std::alloc::{AllocError, Global};
use std::collections::BinaryHeap;
use std::marker::Model;

/// Entries with ranks, of which the best leaves first.
#[derive(Drop)]
pub struct RankedQueue<A: PathAlgebra, K: Rank> {
    heap: BinaryHeap<Ranked<A, K>>,
}

impl<A: PathAlgebra, K: Rank> Model for RankedQueue<A, K> {
    ghost use Rattle.std.specs.Prelude.{List};
    ghost use Rattle.std.specs.BinaryHeap.{heap_items, IsHeap};
    ghost use Rattle.ranked_queue.specs.Order.{ranked_order};
    ghost use Rattle.ranked_queue.specs.declared.ranked.Ranked.{Ranked};

    ghost Value = { List (Ranked A K A.Value) };

    ghost view = { λ q. heap_items q.heap };

    ghost invariant = { λ q. IsHeap (ranked_order K.number A.order) (heap_items q.heap) };
}

impl<A: PathAlgebra, K: Rank> RankedQueue<A, K> {
    /// An empty queue.
    pub fn new(alloc: Global) -> Self
        ensures { result ≡ [] }
    {
        RankedQueue {
            heap: BinaryHeap::new(alloc),
        }
    }

    /// Takes all entries out of the queue.
    pub fn clear(&mut self)
        ensures { self.new ≡ [] }
    {
        self.heap.clear();
    }

    /// Puts an entry into the queue.
    pub fn push(&mut self, value: A::Value, rank: K) -> Result<(), Memory>
        ensures items { OnOk result
            (IsPermutation (record { value = value; rank = rank } ∷ self.old) self.new) }
        ensures len { OnOk result (length self.new ≡ length self.old + 1) }
        ensures kept { OnErr result (self.new ≡ self.old) }
    {
        self.heap
            .push(Ranked { value, rank })
            .map_err(AllocError::from)?;
        Ok(())
    }

    /// Takes the first entry of the queue, if there is any: of the best value, and of the least
    /// rank among equals.
    pub fn pop(&mut self) -> Option<Ranked<A, K>>
        ensures items { IfSome result (λ x. IsPermutation self.old (x ∷ self.new)) }
        ensures len { IfSome result (λ x. length self.new + 1 ≡ length self.old) }
        ensures none { IfNone result (self.old ≡ []) }
        ensures empty { IfNone result (self.new ≡ []) }
        ensures best { IfSome result (λ x. IsUpperBound (ranked_order K.number A.order) x
            self.old) }
    {
        self.heap.pop()
    }

    /// The first entry of the queue, which stays.
    pub fn first(&self) -> Option<&Ranked<A, K>>
        ensures there { IfSome result (λ x. Contains self.now x.now) }
        ensures none { IfNone result (self.now ≡ []) }
        ensures best { IfSome result (λ x. IsUpperBound (ranked_order K.number A.order) x.now
            self.now) }
    {
        self.heap.peek()
    }
}
