//! What is on an arc.

/// What is on an arc.
#[derive(Clone, Copy, Debug, PartialEq, Eq)]
pub enum Token<V> {
    /// Nothing.
    Idle,
    /// A value on its way to the arc's head.
    Message(V),
    /// The head was engaged by this arc, and still is.
    Held,
    /// The answer to a message, on its way to the arc's tail.
    Signal,
}
