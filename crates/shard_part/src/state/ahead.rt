//! Whether a part has run ahead of what it has sent.
ghost use Rattle.std.specs.Prelude.{◌≡◌, ℕ, ◌<◌, length, IsTrue, IfSome, Contains};
ghost use Rattle.scholten_core.specs.declared.item.Item.TheVariants.{Message as MessageOn};
ghost use Rattle.shard_part.specs.Part.{IsOutgoing, IsOutgoingTo, IsAheadOfSent};

use crate::state::PartState;
use path_algebra::{PathAlgebra, better_label};
use scholten_core::Item;
use shard_store::{Batch, Shard};

impl<'g, A: PathAlgebra> PartState<'g, A> {
    /// Notes the best value that waits for another shard.
    pub(crate) fn note_outgoing(&mut self)
        ensures { self.new ≡ self.old }
    {
        self.best_sent = self.best_for_others();
    }

    /// Whether all that waits to be handled is messages worse than one for another shard will be
    /// after one more arc of this weight.
    pub(crate) fn is_ahead_of_sent(&self, ahead: u32) -> bool
        ensures { IsTrue result → IsAheadOfSent (A.meaning self.now.setup.diffusion.algebra)
            ahead self.now }
    {
        if !self.is_held_after(self.best_sent, ahead) {
            return false;
        }
        self.is_held_after(self.best_for_others(), ahead)
    }

    /// Whether all that waits to be handled is messages worse than this value, if there is one,
    /// after one more arc of this weight.
    fn is_held_after(&self, sent: Option<A::Value>, ahead: u32) -> bool
        ensures { IsTrue result → IfSome sent (λ x. IsOutgoing x self.now) →
            IsAheadOfSent (A.meaning self.now.setup.diffusion.algebra) ahead self.now }
    {
        let Some(sent) = sent else {
            return false;
        };
        match self.algebra.extend(sent, ahead) {
            Some(limit) => self.queue.is_held(limit),
            None => false,
        }
    }

    /// The best value of the messages that wait for other shards.
    fn best_for_others(&self) -> Option<A::Value>
        ensures { IfSome result (λ x. IsOutgoing x self.now) }
    {
        let mut best = None;
        for to in 0..self.plan.shards() {
            if Shard(to) != self.shard {
                best = better_label::<A>(best, self.best_outgoing(Shard(to)));
            }
        }
        best
    }

    /// The best value of the messages that wait for a shard.
    pub(crate) fn best_outgoing(&self, to: Shard) -> Option<A::Value>
        requires { to < self.now.setup.plan.shards }
        ensures { IfSome result (λ x. IsOutgoingTo to x self.now) }
    {
        best_in::<A>(&self.outs[to.0 as usize])
    }
}

/// The best value of the messages of a batch.
fn best_in<A: PathAlgebra>(batch: &Batch<A::Value>) -> Option<A::Value>
    ensures { IfSome result (λ x. (a : ℕ) × Contains batch.now.items (MessageOn a x)) }
{
    let mut best = None;
    for index in 0..batch.len() {
        best = better_label::<A>(best, value_at::<A>(batch, index));
    }
    best
}

/// The value of the message at an index of a batch, if there is one.
fn value_at<A: PathAlgebra>(batch: &Batch<A::Value>, index: usize) -> Option<A::Value>
    ensures { IfSome result (λ x. (a : ℕ) × Contains batch.now.items (MessageOn a x)) }
{
    match batch.get(index) {
        Some(Item::Message { value, .. }) => Some(value),
        _ => None,
    }
}
