//! The kinds of arguments that a command line has.
ghost use Rattle.std.specs.Prelude.{◌≡◌, false};
ghost use Rattle.clap.specs.Words.{rule_of};
ghost use Rattle.command_args.specs.CommandLine.{algebra, deal, fault_numbers, file, flag, limit, number, option, usual_name, usual_number};

use crate::help::{ALGEBRA, DEAL, NUMBERS};
use clap::builder::ValueParser;
use clap::{Arg, ArgAction};
use std::alloc::Global;

/// The greatest limit of `within`.
const MAX_LIMIT: u64 = 9_223_372_036_854_775_808;

/// A flag.
pub(crate) fn flag<'a>(alloc: Global, name: &'a str, help: &'a str) -> Arg<'a>
    ensures global { result.global ≡ false }
    ensures rule { rule_of result ≡ flag name.now }
{
    Arg::new(alloc, name)
        .long(name)
        .action(ArgAction::SetTrue)
        .next_line_help(true)
        .help(help)
}

/// An option, with what its value is called.
pub(crate) fn option<'a>(alloc: Global, name: &'a str, value: &'a str, help: &'a str) -> Arg<'a>
    ensures global { result.global ≡ false }
    ensures rule { rule_of result ≡ option name.now }
{
    Arg::new(alloc, name)
        .long(name)
        .value_name(value)
        .action(ArgAction::Set)
        .next_line_help(true)
        .help(help)
}

/// A whole number in a range, with what it is called.
pub(crate) fn number<'a>(
    alloc: Global,
    name: &'a str,
    value: &'a str,
    range: (u64, u64),
    help: &'a str,
) -> Arg<'a>
    ensures global { result.global ≡ false }
    ensures rule { rule_of result ≡ number name.now range.0 range.1 }
{
    let (least, greatest) = range;
    option(alloc, name, value, help).value_parser(ValueParser::unsigned(least, greatest))
}

/// A whole number in a range, with the one that it is if it is left out.
pub(crate) fn usual_number<'a>(
    alloc: Global,
    name: &'a str,
    range: (u64, u64),
    usual: &'a str,
    help: &'a str,
) -> Arg<'a>
    ensures global { result.global ≡ false }
    ensures rule { rule_of result ≡ usual_number name.now range.0 range.1 usual.now }
{
    number(alloc, name, "N", range, help).default_value(usual)
}

/// The limit of `within`.
pub(crate) fn limit<'a>(alloc: Global, long_help: &'a str) -> Arg<'a>
    ensures global { result.global ≡ false }
    ensures rule { rule_of result ≡ limit }
{
    let help = "The greatest sum of weights, for `within` alone";
    number(alloc, "limit", "L", (0, MAX_LIMIT), help).long_help(long_help)
}

/// One of these names, with the one that it is if it is left out.
fn usual_name<'a>(
    alloc: Global,
    name: &'a str,
    names: &'a [&'a str],
    usual: &'a str,
    help: &'a str,
) -> Arg<'a>
    ensures global { result.global ≡ false }
    ensures rule { rule_of result ≡ usual_name name.now names.entry usual.now }
{
    option(alloc, name, "NAME", help)
        .value_parser(names)
        .default_value(usual)
        .hide_possible_values(true)
}

/// What is best, by one of these names.
pub(crate) fn algebra<'a>(alloc: Global, names: &'a [&'a str]) -> Arg<'a>
    ensures global { result.global ≡ false }
    ensures rule { rule_of result ≡ algebra names.entry }
{
    let help = "What is best; the names are below";
    usual_name(alloc, "algebra", names, "shortest", help).long_help(ALGEBRA)
}

/// How shards are dealt to workers, by one of these names.
pub(crate) fn deal<'a>(alloc: Global, names: &'a [&'a str]) -> Arg<'a>
    ensures global { result.global ≡ false }
    ensures rule { rule_of result ≡ deal names.entry }
{
    usual_name(alloc, "deal", names, "shards", DEAL)
}

/// A file that has to be named.
pub(crate) fn file<'a>(alloc: Global, name: &'a str, help: &'a str, long_help: &'a str) -> Arg<'a>
    ensures global { result.global ≡ false }
    ensures rule { rule_of result ≡ file name.now }
{
    Arg::new(alloc, name)
        .required(true)
        .action(ArgAction::Set)
        .next_line_help(true)
        .help(help)
        .long_help(long_help)
}

/// Numbers of faults, as many as are given.
pub(crate) fn fault_numbers<'a>(alloc: Global) -> Arg<'a>
    ensures global { result.global ≡ false }
    ensures rule { rule_of result ≡ fault_numbers }
{
    Arg::new(alloc, "N")
        .num_args(0..)
        .action(ArgAction::Append)
        .value_parser(ValueParser::unsigned(0, u64::MAX))
        .next_line_help(true)
        .help(NUMBERS)
}
