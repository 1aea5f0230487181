//! What one shard's part of a diffusing computation is stored in: its vertices and their tables,
//! its queue, and the batches for other shards.
#![tactic(auto)]

mod batch;
mod counted_plan;
mod idle;
mod layout;
mod local_vertices;
mod place;
mod plan;
mod queue;
mod queue_order;
mod setup;
mod shard;
mod tables;
mod tally;

pub use batch::{Batch, arc_of, empty_batches};
pub use counted_plan::CountedPlan;
pub use idle::idle_tables;
pub use layout::{ShardLayout, sum_of};
pub use local_vertices::LocalVertices;
pub use place::{ArcPlace, VertexPlace};
pub use plan::{Plan, PlanFault};
pub use queue::{Queue, RankedMessage};
pub use queue_order::QueueOrder;
pub use setup::Setup;
pub use shard::Shard;
pub use tables::{ArcTable, Tables, VertexTable};
pub use tally::Tally;
