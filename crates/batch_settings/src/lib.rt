//! How a batch is run.
#![tactic(auto)]

mod dealing;
mod settings;

pub use dealing::Dealing;
pub use settings::{Settings, SolverKind};
