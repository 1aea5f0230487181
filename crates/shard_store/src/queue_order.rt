//! In which order a part takes the items of its queue.

/// In which order a part takes the items of its queue.
#[derive(Clone, Copy)]
pub enum QueueOrder {
    /// First come, first served.
    Arrival,
    /// Signals and messages that improve nothing at once, then the message with the best value.
    BestFirst,
}
