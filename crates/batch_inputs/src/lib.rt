//! Reads the inputs of a batch, and says what stops one.
#![tactic(auto)]

mod faults;
mod inputs;
mod orders;

pub use faults::{File, RunFault, SETTINGS, WRITE, fault_in, fault_of_run};
pub use inputs::{BatchInput, BatchRead, BundleInput, PairInput};
pub use orders::OrderedInput;
