//! Stations: one diffusion over the threads of its caller.
#![tactic(auto)]

mod finished;
mod gathering;
mod laws;
mod one_shard;
mod open;
mod station;
mod turn;

pub use finished::Finished;
pub use gathering::{GatherFault, Gathered, Ungathered, gather};
pub use laws::{
    best_first_counts_each_arc_once, quiet_rounds_are_still, reach_counts_each_arc_once,
};
pub use one_shard::one_shard_goes_on;
pub use open::open_diffusion;
pub use station::Station;
pub use turn::Report;
