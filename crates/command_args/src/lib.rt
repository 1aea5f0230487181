//! The command line: its arguments, what help says of them, and what the words of one ask for.
#![tactic(auto)]

mod arguments;
mod clap_command;
mod help;
mod options;
mod parsed;

pub use parsed::{
    BundleArgs, CheckArgs, OrderArgs, RunOptions, ServeArgs, SolveArgs, Subcommand, WatchOptions,
    parse_args,
};
