//! The program's commands, over files, an output and an error output: each as its arguments ask,
//! and as the words of a command line do.
#![tactic(auto)]

mod answering;
mod command_line;
mod commands;
mod judging;
mod method;
mod ordering;
mod streams;
mod watch;

pub use command_args::{
    BundleArgs, CheckArgs, OrderArgs, RunOptions, ServeArgs, SolveArgs, Subcommand, WatchOptions,
    parse_args,
};
pub use command_files::{
    FileSystem, Host, HostFiles, OpenedInput, Phase, Refusal, Stopwatch, Streams, Times, choose,
};
pub use command_line::{run, run_command_line};
pub use commands::{bundle, check, order, serve, solve};
pub use fault_reports::{FaultRow, all_faults, explain, report_fault};
pub use judging::{judge, write_verdict};
pub use method::Method;
