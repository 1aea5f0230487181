//! Jobs that are dealt to workers on threads of their own, and what comes back.
#![tactic(auto)]

mod call_off;
mod dealing;
mod driving;
mod fleet;
mod gate;
mod group;
mod one_shard;
mod settings;

pub use batch_settings::Dealing;
pub use call_off::CallOff;
pub use driving::{Driven, Outcome, drive};
pub use gate::{Gate, OpenGate};
pub use group::{GroupFault, run_group};
pub use one_shard::one_shard_never_stalls;
pub use settings::{GroupSettings, TurnSettings};
