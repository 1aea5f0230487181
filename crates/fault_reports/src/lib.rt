//! How a command ends: the line that reports a fault, the exit status, and what is known of each
//! fault by its number.
#![tactic(auto)]

mod reports;
mod rows;
mod table;

pub use reports::{USAGE, end_with, report_fault, report_usage, write_and_flush};
pub use rows::{FaultRow, explain};
pub use table::all_faults;
