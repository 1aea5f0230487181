//! What the words of a command line ask for.
ghost use Rattle.std.specs.Prelude.{◌≡◌, List, map, IfOk, IfErr, IsTrue, ◌↔◌, ◌⊎◌, [], Some, None, unwrap_or, string_bytes};
ghost use Rattle.std.specs.List.{AllZip};
ghost use Rattle.clap.specs.Values.{kind_of};
ghost use Rattle.clap.specs.Words.{found_of};
ghost use Rattle.clap.specs.Simple.{subcommand_rows_of};
ghost use Rattle.clap.specs.Walk.{all_of, rows_of};
ghost use Rattle.command_args.specs.Asked.{AskForNone, AskFor, AskForTable, AreRefused, IsFaultNumber, IsNamed, IsParsedAs};

use crate::clap_command::command;
use crate::options::{number_of, options_of, text_of, watching_of};
use batch_settings::Settings;
use clap::error::ErrorKind;
use clap::{ArgMatches, Error};
use std::alloc::{AllocError, Global};

/// The names of the algebras that the program has.
const ALGEBRAS: &[&str] = &["shortest", "widest", "reach", "hops", "reliable", "within"];

/// The names of the rules by which shards are dealt to workers.
const DEALINGS: &[&str] = &["shards", "questions"];

/// What is best, and how it is found, as the command line has it.
#[derive(Clone, Copy, Debug)]
pub struct RunOptions<'a> {
    /// The name of an algebra.
    pub algebra: &'a str,
    /// The limit of `within`, if one is given.
    pub limit: Option<u64>,
    /// The name of the file of an order of elimination, if one is given.
    pub order: Option<&'a str>,
    /// How the questions are run.
    pub settings: Settings,
}

/// What is written of a run beside its answers.
#[derive(Clone, Copy, Debug)]
pub struct WatchOptions<'a> {
    /// The name of the file for accounts, if they are wanted.
    pub accounts: Option<&'a str>,
    /// Whether progress is shown.
    pub progress: bool,
    /// Whether it is shown how long reading, solving and writing took.
    pub times: bool,
}

/// The arguments of `solve`: the names of its inputs, and its options.
#[derive(Clone, Copy, Debug)]
pub struct SolveArgs<'a> {
    pub graph: &'a str,
    pub questions: &'a str,
    pub options: RunOptions<'a>,
    pub watching: WatchOptions<'a>,
}

/// The arguments of `bundle`: its options.
#[derive(Clone, Copy, Debug)]
pub struct BundleArgs<'a> {
    pub options: RunOptions<'a>,
    pub watching: WatchOptions<'a>,
}

/// The arguments of `serve`: the name of its graph, and its options.
#[derive(Clone, Copy, Debug)]
pub struct ServeArgs<'a> {
    pub graph: &'a str,
    pub options: RunOptions<'a>,
}

/// The arguments of `check`: the names of its inputs, and the limit of `within`, if one is given.
#[derive(Clone, Copy, Debug)]
pub struct CheckArgs<'a> {
    pub graph: &'a str,
    pub questions: &'a str,
    pub answers: &'a str,
    pub limit: Option<u64>,
}

/// The arguments of `order`: the name of its graph.
#[derive(Clone, Copy, Debug)]
pub struct OrderArgs<'a> {
    pub graph: &'a str,
}

/// What a command line asks for.
#[derive(Drop)]
pub enum Subcommand<'a> {
    /// Answer the questions of one input over the graph of another, by their names.
    Solve(SolveArgs<'a>),
    /// Answer the bundle on standard input.
    Bundle(BundleArgs<'a>),
    /// Reply to the requests of standard input over the graph of a file.
    Serve(ServeArgs<'a>),
    /// Judge the answers of one input to the questions of another over the graph of a third, by
    /// their names.
    Check(CheckArgs<'a>),
    /// Write an order of elimination of the graph of an input.
    Order(OrderArgs<'a>),
    /// Explain the faults of these numbers, and without a number all.
    Faults { numbers: Vec<u64> },
}

/// The number of a fault that a text spells. clap has tried that it spells one.
fn fault_number(text: &str) -> u64
    ensures { IsFaultNumber text.now result }
{
    text.parse::<u64>().unwrap_or(0)
}

/// The numbers that these texts spell.
fn fault_numbers(alloc: Global, texts: &[&str]) -> Result<Vec<u64>, AllocError>
    ensures { IfOk result (λ numbers. AllZip (λ text n. IsFaultNumber text.now n) texts.now
        numbers.items) }
{
    let mut numbers = Vec::new(alloc);
    for text in texts {
        numbers.push(fault_number(text))?;
    }
    Ok(numbers)
}

/// The numbers of faults that were given.
fn numbers_of(alloc: Global, matches: &ArgMatches<'_>, name: &str) -> Result<Vec<u64>, AllocError>
    ensures { IfOk result (λ numbers. AllZip IsFaultNumber
        (unwrap_or (all_of name.now (rows_of (found_of matches.now))) []) numbers.items) }
{
    match matches.get_raw(name) {
        Some(texts) => fault_numbers(alloc, texts),
        None => Ok(Vec::new(alloc)),
    }
}

/// The subcommand of a name, with its matches, if it is one of the program's.
fn subcommand_named<'a>(
    alloc: Global,
    name: &str,
    found: &ArgMatches<'a>,
) -> Result<Option<Subcommand<'a>>, AllocError>
    ensures { IfOk result (IsNamed (Some (name.now, rows_of (found_of found.now)))) }
{
    match name {
        "solve" => Ok(Some(Subcommand::Solve(SolveArgs {
            graph: text_of(found, "GRAPH"),
            questions: text_of(found, "QUESTIONS"),
            options: options_of(found),
            watching: watching_of(found),
        }))),
        "bundle" => Ok(Some(Subcommand::Bundle(BundleArgs {
            options: options_of(found),
            watching: watching_of(found),
        }))),
        "serve" => Ok(Some(Subcommand::Serve(ServeArgs {
            graph: text_of(found, "GRAPH"),
            options: options_of(found),
        }))),
        "check" => Ok(Some(Subcommand::Check(CheckArgs {
            graph: text_of(found, "GRAPH"),
            questions: text_of(found, "QUESTIONS"),
            answers: text_of(found, "ANSWERS"),
            limit: number_of(found, "limit"),
        }))),
        "order" => Ok(Some(Subcommand::Order(OrderArgs {
            graph: text_of(found, "GRAPH"),
        }))),
        "faults" => {
            let numbers = numbers_of(alloc, found, "N")?;
            Ok(Some(Subcommand::Faults { numbers }))
        }
        _ => Ok(None),
    }
}

/// The subcommand that clap found, if it is one of the program's.
fn subcommand_of<'a>(
    alloc: Global,
    matches: &ArgMatches<'a>,
) -> Result<Option<Subcommand<'a>>, AllocError>
    ensures { IfOk result (IsNamed (subcommand_rows_of matches.now)) }
{
    match matches.subcommand() {
        Some((name, found)) => subcommand_named(alloc, name, found),
        None => Ok(None),
    }
}

/// Whether the words are `help faults`, which asks for the table itself.
fn ask_for_table(words: &[String]) -> bool
    ensures { IsTrue result ↔ AskForTable (map (λ word. string_bytes word) words.now) }
{
    match words {
        [_, help, faults] => help.as_str() == "help" && faults.as_str() == "faults",
        _ => false,
    }
}

/// What clap makes of the words of a command line.
fn parse_by_clap<'a>(alloc: Global, words: &'a [String]) -> Result<Subcommand<'a>, Error>
    ensures asked { IfOk result (IsParsedAs (map (λ word. string_bytes word) words.entry.now)) }
    ensures refused { IfErr result (λ e. (kind_of e ≡ ErrorKind.OutOfMemory)
        ⊎ AreRefused (map (λ word. string_bytes word) words.entry.now) (kind_of e)) }
{
    let mut command = command(alloc, ALGEBRAS, DEALINGS)?;
    let matches = match command.try_get_matches_from_mut(words) {
        Ok(matches) => matches,
        Err(error) => return Err(error),
    };
    match subcommand_of(alloc, &matches)? {
        Some(asked) => Ok(asked),
        None => Err(command.error(ErrorKind::MissingSubcommand, "no such subcommand")?),
    }
}

/// Reads the words of a command line, the program's own first. Errors are usage faults, help, or
/// want of memory.
pub fn parse_args<'a>(alloc: Global, words: &'a [String]) -> Result<Subcommand<'a>, Error>
    ensures asked { IfOk result (AskFor (map (λ word. string_bytes word) words.entry.now)) }
    ensures none { IfErr result (λ e.
        AskForNone (map (λ word. string_bytes word) words.entry.now) (kind_of e)) }
{
    if ask_for_table(words) {
        let numbers = Vec::new(alloc);
        return Ok(Subcommand::Faults { numbers });
    }
    parse_by_clap(alloc, words)
}
