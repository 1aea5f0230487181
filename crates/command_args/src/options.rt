//! The options of a command line, as the words give them.
ghost use Rattle.std.specs.Prelude.{◌≡◌, codes};
ghost use Rattle.clap.specs.Words.{found_of};
ghost use Rattle.clap.specs.Walk.{one_of, rows_of};
ghost use Rattle.command_args.specs.Asked.{AreOptions, AreSettings, AreWatched, IsDealing, IsSet, Reads, ReadsOr, text_of, usual_budget};

use crate::parsed::{RunOptions, WatchOptions};
use batch_settings::{Dealing, Settings};
use clap::ArgMatches;

/// The text of an argument.
pub(crate) fn text_of<'a>(matches: &ArgMatches<'a>, name: &str) -> &'a str
    ensures { result.now ≡ text_of name.now (rows_of (found_of matches.now)) }
{
    matches.get_str(name).unwrap_or("")
}

/// The number of an option, if it was given.
pub(crate) fn number_of(matches: &ArgMatches<'_>, name: &str) -> Option<u64>
    ensures { Reads 64 (one_of name.now (rows_of (found_of matches.now))) result }
{
    matches.get_one(name)
}

/// The number of an option, or its usual one.
fn number_or(matches: &ArgMatches<'_>, name: &str, usual: u64) -> u64
    ensures { ReadsOr usual (one_of name.now (rows_of (found_of matches.now))) result }
{
    number_of(matches, name).unwrap_or(usual)
}

/// The weight of an option, if it was given.
fn weight_of(matches: &ArgMatches<'_>, name: &str) -> Option<u32>
    ensures { Reads 32 (one_of name.now (rows_of (found_of matches.now))) result }
{
    matches.get_one(name)
}

/// Whether a flag was given.
fn flag_of(matches: &ArgMatches<'_>, name: &str) -> bool
    ensures { IsSet (one_of name.now (rows_of (found_of matches.now))) result }
{
    matches.get_flag(name)
}

/// The rule by which shards are dealt to workers.
fn dealing_of(matches: &ArgMatches<'_>) -> Dealing
    ensures { IsDealing (text_of (codes "deal") (rows_of (found_of matches.now))) result }
{
    match text_of(matches, "deal") {
        "questions" => Dealing::Questions,
        _ => Dealing::Shards,
    }
}

/// The budget of a turn, if none is given: the greatest where whole questions go best first.
fn usual_budget(best_first: bool, dealing: Dealing) -> u64
    ensures { result ≡ usual_budget best_first dealing }
{
    match dealing {
        Dealing::Questions if best_first => 65_536,
        _ => Settings::default().budget,
    }
}

fn settings_of(matches: &ArgMatches<'_>) -> Settings
    ensures { AreSettings (rows_of (found_of matches.now)) result }
{
    let usual = Settings::default();
    let best_first = flag_of(matches, "best-first");
    let dealing = dealing_of(matches);
    Settings {
        workers: number_or(matches, "workers", usual.workers),
        shards: number_or(matches, "shards", usual.shards),
        width: number_or(matches, "width", usual.width),
        budget: number_or(matches, "budget", usual_budget(best_first, dealing)),
        turns: number_or(matches, "turns", usual.turns),
        plain: flag_of(matches, "plain"),
        factors: flag_of(matches, "factors"),
        best_first,
        ahead: weight_of(matches, "ahead"),
        dealing,
    }
}

pub(crate) fn options_of<'a>(matches: &ArgMatches<'a>) -> RunOptions<'a>
    ensures { AreOptions (rows_of (found_of matches.now)) result }
{
    RunOptions {
        algebra: text_of(matches, "algebra"),
        limit: number_of(matches, "limit"),
        order: matches.get_str("order"),
        settings: settings_of(matches),
    }
}

pub(crate) fn watching_of<'a>(matches: &ArgMatches<'a>) -> WatchOptions<'a>
    ensures { AreWatched (rows_of (found_of matches.now)) result }
{
    WatchOptions {
        accounts: matches.get_str("accounts"),
        progress: flag_of(matches, "progress"),
        times: flag_of(matches, "times"),
    }
}
