//! Runs a batch of questions from bytes to bytes.
#![tactic(auto)]

mod answering;
mod batch;
mod begin;
mod cause;
mod entries;
mod flush;
mod laws;
mod run;
mod solve;
mod watcher;
mod write;

pub use answering::answer_all;
pub use batch::{Batch, Run};
pub use batch_inputs::{
    BatchInput, BatchRead, BundleInput, File, OrderedInput, PairInput, RunFault, SETTINGS, WRITE,
    fault_in, fault_of_run,
};
pub use batch_settings::{Dealing, Settings, SolverKind};
pub use cause::Cause;
pub use entries::{run_bundle, run_pair};
pub use laws::{answers_exist, best_first_accounts_count_each_arc_once, usual_turns_are_enough};
pub use question_solvers::{Counts, FactorSolver, Factoring, NoFactors, PlainSolver, Solved, Task};
pub use run::{read_batch, run_batch};
pub use solve::{Solver, WorkerSolver};
pub use watcher::{Progress, Unwatched, Watcher};
pub use worker_fleet::{Gate, OpenGate};
