//! What a seat knows, for contracts alone.
use path_algebra::PathAlgebra;
use shard_part::Part;
use std::collections::LinkedList;

/// A step on a word, for contracts alone.
pub struct WordStep {
    /// The word.
    pub word: u64,
    /// The number that the step found in the word, or stored there.
    pub number: u64,
}

/// What a seat knows, for contracts alone: no value of it is made, so its numbers have no range.
pub struct View<A: PathAlgebra> {
    /// Its part, as of the seat's last step.
    pub parts: LinkedList<Part<'static, A>>,
    /// The mailboxes that it is filling.
    pub fills: LinkedList<u64>,
    /// The mailboxes that it is reading.
    pub reads: LinkedList<u64>,
    /// For each shard, which of the four slots to it is filled next.
    pub next_fill: LinkedList<u64>,
    /// For each shard, which of the four slots from it is read next.
    pub next_read: LinkedList<u64>,
    /// Its steps on words, in order.
    pub steps: LinkedList<WordStep>,
    /// It has seen the done word at 1.
    pub seen: bool,
    /// How many messages its part sent, exactly.
    pub sent: u64,
    /// How many messages its part handled, exactly.
    pub delivered: u64,
    /// How many signals its part made, exactly.
    pub signalled: u64,
    /// How many signals its part handled, exactly.
    pub accepted: u64,
}
