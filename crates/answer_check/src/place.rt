//! Where an answer is wrong, and why.

use crate::verdict::Reason;

/// The vertex, or 0 for the answer as a whole, and the reason.
#[derive(Clone, Copy)]
pub struct Place {
    pub vertex: u32,
    pub reason: Reason,
}
