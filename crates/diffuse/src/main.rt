//! `diffuse`: answers questions over road graphs, and judges answers.
#![tactic(auto)]

use program::run;
use std::process::ExitCode;

fn main(rt: HostRuntime) -> ExitCode {
    ExitCode::from(run(&rt, rt.stderr()))
}
