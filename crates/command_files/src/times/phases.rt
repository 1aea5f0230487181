//! What a command does from moment to moment.

/// What a command does at a moment.
#[derive(Clone, Copy, Debug, PartialEq, Eq)]
pub enum Phase {
    /// It reads its inputs, and makes ready to answer.
    Reading,
    /// It solves questions.
    Solving,
    /// It writes an answer.
    Writing,
}
