//! The command line: does what its words ask for.
ghost use Rattle.std.specs.Prelude.{IfErr, map, string_bytes};
ghost use Rattle.clap.specs.Values.{kind_of};
ghost use Rattle.program.specs.CommandLine.{AreNoWords, DoesCommandLine, IsSaid, RunsWords};
ghost use Rattle.command_files.specs.Moments.{moment};

use crate::commands::{bundle, check, order, serve, solve};
use crate::streams::take_closed_streams;
use batch_run::fault_of_run;
use clap::Error;
use clap::error::ErrorKind;
use command_args::{Subcommand, parse_args};
use command_files::{Host, HostFiles, Refusal, Stopwatch, Streams, TimedWriter, refuse};
use fault_reports::{all_faults, end_with, explain, report_fault, report_usage, write_and_flush};
use std::alloc::Global;
use std::io::Write;
use std::rt::{Env, Files};
use std::sync::Wait;
use std::thread::Threads;
use std::time::Clock;
use std::{env, io};
use text_lines::{Buffered, MEMORY, Plain};

/// Writes what the command line's parser says: help on the output, a usage fault on the error
/// output.
fn say<S: Streams>(alloc: Global, host: &mut Host<S>, error: &Error) -> u8
    ensures { IsSaid (kind_of error.now) (moment S.Out.seen S.Errors.seen host.old) (moment
        S.Out.seen S.Errors.seen host.new) result }
{
    if error.kind() == ErrorKind::OutOfMemory {
        return report_fault(&mut host.errors, fault_of_run(MEMORY));
    }
    let Ok(text) = format!(in alloc; "{error}") else {
        return report_fault(&mut host.errors, fault_of_run(MEMORY));
    };
    let text = text.as_str().as_bytes();
    if error.use_stderr() {
        return report_usage(&mut host.errors, text);
    }
    let outcome = write_and_flush(&mut host.out, text);
    end_with(&mut host.errors, outcome)
}

/// Does what the words of a command line ask for, the program's own first, and gives the exit
/// status.
pub fn run_command_line<R: AllocGlobal + Threads + Wait + Sync, S: Streams>(
    rt: &R,
    host: &mut Host<S>,
    words: &[String],
) -> u8
    ensures { DoesCommandLine S.Files.FileSystem (map (λ word. string_bytes word) words.now) (moment
        S.Out.seen S.Errors.seen host.old) (moment S.Out.seen S.Errors.seen host.new) result }
{
    match parse_args(rt.alloc(), words) {
        Ok(Subcommand::Solve(args)) => solve(rt, host, &args),
        Ok(Subcommand::Bundle(args)) => bundle(rt, host, &args),
        Ok(Subcommand::Serve(args)) => serve(rt, host, &args),
        Ok(Subcommand::Check(args)) => check(rt, host, &args),
        Ok(Subcommand::Order(args)) => order(rt, host, &args),
        Ok(Subcommand::Faults { numbers }) => {
            let numbers = numbers.as_slice();
            explain(
                rt.alloc(),
                all_faults(),
                numbers,
                &mut host.out,
                &mut host.errors,
            )
        }
        Err(error) => say(rt.alloc(), host, &error),
    }
}

/// The words of the command line, unless one of them is no text.
fn words_of<R: Env + AllocGlobal>(rt: &R) -> Result<Vec<String>, Refusal>
    ensures { IfErr result AreNoWords }
{
    let collected = match env::args(rt) {
        Ok(words) => words.collect(rt.alloc()),
        Err(error) if error.kind() == io::ErrorKind::OutOfMemory => {
            return Err(Refusal::Fault(fault_of_run(MEMORY)));
        }
        Err(_) => return Err(Refusal::NoText),
    };
    match collected {
        Ok(words) => Ok(words),
        Err(_) => Err(Refusal::Fault(fault_of_run(MEMORY))),
    }
}

/// Does what the words that the system gives ask for, and gives the exit status.
fn run_words<R: Env + AllocGlobal + Threads + Wait + Sync, S: Streams>(
    rt: &R,
    host: &mut Host<S>,
) -> u8
    ensures { RunsWords S.Files.FileSystem (moment S.Out.seen S.Errors.seen host.old) (moment
        S.Out.seen S.Errors.seen host.new) result }
{
    match words_of(rt) {
        Ok(words) => run_command_line(rt, host, words.as_slice()),
        Err(refusal) => refuse(&mut host.errors, refusal),
    }
}

/// Runs the program over the system's files and streams, with this error output, and gives the exit
/// status.
pub fn run<R, E: Write + Drop>(rt: &R, errors: E) -> u8
where
    R: Env + Files + Input + Print + Clock + AllocGlobal + Threads + Wait + Sync,
{
    let _taken = take_closed_streams(rt);
    let stopwatch = Stopwatch::new(rt);
    let mut errors = Plain::new(errors);
    let Ok(out) = Buffered::new(rt.alloc(), Plain::new(io::writer(rt))) else {
        return report_fault(&mut errors, fault_of_run(MEMORY));
    };
    let files = HostFiles {
        rt,
        stopwatch: &stopwatch,
    };
    let out = TimedWriter::new(out, &stopwatch);
    let mut host: Host<(_, _, _)> = Host { files, out, errors };
    run_words(rt, &mut host)
}
