//! Entries that wait in a heap: the best value on top, and if values tie the least rank.
//!
//! The searches settle vertices in this order, and a shard takes its messages in it.
#![tactic(auto)]

mod queue;
mod rank;
mod ranked;

pub use queue::RankedQueue;
pub use rank::Rank;
pub use ranked::Ranked;
