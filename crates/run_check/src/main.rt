//! The program again, for a stored run: wrong answers are judged, with the questions from standard
//! input.
#![tactic(auto)]

use program::run;
use std::process::ExitCode;

fn main(rt: HostRuntime) -> ExitCode {
    ExitCode::from(run(&rt, rt.stderr()))
}
