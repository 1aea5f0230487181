//! What is under way on an arc, as an entry of a queue.

use road_graph::ArcNo;

/// What is under way on an arc, as an entry of a queue: a message or a signal.
#[derive(Clone, Copy, Debug, PartialEq, Eq)]
pub enum Item<V> {
    /// A value for the head of the arc.
    Message {
        /// The arc that it goes along.
        arc: ArcNo,
        /// The value.
        value: V,
    },
    /// The answer for the tail of the arc.
    Signal {
        /// The arc that it goes back along.
        arc: ArcNo,
    },
}
