//! The command line of the program: its subcommands, with their files, their options, and what help
//! says of them.
ghost use Rattle.std.specs.Prelude.{◌≡◌, [], IfOk};
ghost use Rattle.clap.specs.Words.{app_of};
ghost use Rattle.command_args.specs.CommandLine.{bundle, check, diffuse, faults, order, serve, settings, solve, watching, with_rules};

use crate::arguments::{
    algebra, deal, fault_numbers, file, flag, limit, number, option, usual_number,
};
use crate::help::{
    ACCOUNTS, ADVICE, AHEAD, ANSWERS, BEST_FIRST, BUDGET, BUNDLE, EXPLAINED, FACTORS, GRAPH,
    JUDGED, LIMIT, LIMIT_OF_ANSWERS, NAMES, ORDER, PLACES, PLAIN, PROGRESS, PURPOSE, QUESTIONS,
    REPLIES, SERVE, SERVED_GRAPH, SHARDS, STATUSES, TIMES, TURNS, VERDICT, VERDICTS, VERSION,
    WIDTH, WORKERS,
};
use clap::Command;
use std::alloc::{AllocError, Global};

/// Adds the options that say how questions are answered.
fn with_settings<'a>(
    alloc: Global,
    command: Command<'a>,
    algebras: &'a [&'a str],
    dealings: &'a [&'a str],
) -> Result<Command<'a>, AllocError>
    ensures { IfOk result (λ r. app_of r ≡ with_rules (app_of command.entry) (settings
        algebras.entry dealings.entry)) }
{
    command
        .arg(flag(alloc, "plain", PLAIN))?
        .arg(flag(alloc, "factors", FACTORS))?
        .arg(option(alloc, "order", "FILE", ORDER))?
        .arg(algebra(alloc, algebras))?
        .arg(limit(alloc, LIMIT))?
        .arg(usual_number(alloc, "width", (1, 64), "1", WIDTH))?
        .arg(usual_number(alloc, "workers", (1, 64), "4", WORKERS))?
        .arg(usual_number(alloc, "shards", (1, 64), "4", SHARDS))?
        .arg(deal(alloc, dealings))?
        .arg(number(alloc, "budget", "N", (1, 65_536), BUDGET))?
        .arg(usual_number(
            alloc,
            "turns",
            (0, 1_000_000_000_000),
            "1000000000000",
            TURNS,
        ))?
        .arg(flag(alloc, "best-first", BEST_FIRST))?
        .arg(number(alloc, "ahead", "W", (0, 4_294_967_295), AHEAD))
}

/// Adds the options that say what is written beside the answers.
fn with_watching<'a>(alloc: Global, command: Command<'a>) -> Result<Command<'a>, AllocError>
    ensures { IfOk result (λ r. app_of r ≡ with_rules (app_of command.entry) watching) }
{
    command
        .arg(option(alloc, "accounts", "FILE", ACCOUNTS))?
        .arg(flag(alloc, "progress", PROGRESS))?
        .arg(flag(alloc, "times", TIMES))
}

fn solve<'a>(
    alloc: Global,
    algebras: &'a [&'a str],
    dealings: &'a [&'a str],
) -> Result<Command<'a>, AllocError>
    ensures { IfOk result (λ r. app_of r ≡ record {
      top = solve algebras.entry dealings.entry;
      subs = [];
    }) }
{
    let command = Command::new(alloc, "solve")
        .before_long_help(ADVICE)
        .about("Answers the questions of a file over the graph of another")
        .after_help(NAMES)
        .after_long_help(ANSWERS)
        .arg(file(
            alloc,
            "GRAPH",
            "A road graph, a .gr file; `-` is standard input",
            GRAPH,
        ))?
        .arg(file(alloc, "QUESTIONS", "A .ss, .p2p or .ms file", QUESTIONS))?;
    with_watching(alloc, with_settings(alloc, command, algebras, dealings)?)
}

fn bundle<'a>(
    alloc: Global,
    algebras: &'a [&'a str],
    dealings: &'a [&'a str],
) -> Result<Command<'a>, AllocError>
    ensures { IfOk result (λ r. app_of r ≡ record {
      top = bundle algebras.entry dealings.entry;
      subs = [];
    }) }
{
    let command = Command::new(alloc, "bundle")
        .before_long_help(ADVICE)
        .about("Answers a graph and its questions from standard input")
        .long_about(BUNDLE)
        .after_help(NAMES)
        .after_long_help(ANSWERS);
    with_watching(alloc, with_settings(alloc, command, algebras, dealings)?)
}

fn serve<'a>(
    alloc: Global,
    algebras: &'a [&'a str],
    dealings: &'a [&'a str],
) -> Result<Command<'a>, AllocError>
    ensures { IfOk result (λ r. app_of r ≡ record {
      top = serve algebras.entry dealings.entry;
      subs = [];
    }) }
{
    let command = Command::new(alloc, "serve")
        .before_long_help(ADVICE)
        .about("Replies to requests over a graph, each as soon as it is complete")
        .long_about(SERVE)
        .after_help(NAMES)
        .after_long_help(REPLIES)
        .arg(file(alloc, "GRAPH", "A road graph, a .gr file", SERVED_GRAPH))?;
    with_settings(alloc, command, algebras, dealings)
}

fn check<'a>(alloc: Global) -> Result<Command<'a>, AllocError>
    ensures { IfOk result (λ r. app_of r ≡ record { top = check; subs = [] }) }
{
    Command::new(alloc, "check")
        .about("Judges answers, whichever program wrote them")
        .after_help(VERDICT)
        .after_long_help(VERDICTS)
        .arg(file(
            alloc,
            "GRAPH",
            "A road graph, a .gr file; `-` is standard input",
            GRAPH,
        ))?
        .arg(file(alloc, "QUESTIONS", "A .ss, .p2p or .ms file", QUESTIONS))?
        .arg(file(alloc, "ANSWERS", "The answers to judge", JUDGED))?
        .arg(limit(alloc, LIMIT_OF_ANSWERS))
}

fn order<'a>(alloc: Global) -> Result<Command<'a>, AllocError>
    ensures { IfOk result (λ r. app_of r ≡ record { top = order; subs = [] }) }
{
    Command::new(alloc, "order")
        .about("Writes an order of elimination of a graph, for `--order`")
        .after_help(PLACES)
        .arg(file(
            alloc,
            "GRAPH",
            "A road graph, a .gr file; `-` is standard input",
            GRAPH,
        ))
}

fn faults<'a>(alloc: Global) -> Result<Command<'a>, AllocError>
    ensures { IfOk result (λ r. app_of r ≡ record { top = faults; subs = [] }) }
{
    Command::new(alloc, "faults")
        .about("Explains faults: what each means, an example, and the usual cause")
        .after_help(EXPLAINED)
        .arg(fault_numbers(alloc))
}

/// The command line of the program, with algebras and rules of dealing of these names.
pub(crate) fn command<'a>(
    alloc: Global,
    algebras: &'a [&'a str],
    dealings: &'a [&'a str],
) -> Result<Command<'a>, AllocError>
    ensures { IfOk result (λ r. app_of r ≡ diffuse algebras.entry dealings.entry) }
{
    Command::new(alloc, "diffuse")
        .version(VERSION)
        .about(PURPOSE)
        .after_help(STATUSES)
        .subcommand_required(true)
        .subcommand(solve(alloc, algebras, dealings)?)?
        .subcommand(bundle(alloc, algebras, dealings)?)?
        .subcommand(serve(alloc, algebras, dealings)?)?
        .subcommand(check(alloc)?)?
        .subcommand(order(alloc)?)?
        .subcommand(faults(alloc)?)
}
