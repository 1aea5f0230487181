//! One shard's part of a diffusing computation: how it is opened, handles items one by one,
//! exchanges batches, and is closed.
#![tactic(auto)]

mod closed;
pub mod laws;
mod part;
mod state;

pub use closed::ClosedPart;
pub use part::Part;
pub use scholten_core::Item;
pub use shard_store::{Batch, CountedPlan, Plan, PlanFault, QueueOrder, Setup, Shard, Tally};
