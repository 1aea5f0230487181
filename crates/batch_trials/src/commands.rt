//! How the words of a command line say that questions are run; what commands do, and what other
//! words ask for, the built program shows (`system_tests/commands`).

use batch_run::{Dealing, Settings};
use program::{Subcommand, parse_args};
use std::process::Abort;

/// How questions are run if no option says it.
const USUAL: Settings = Settings {
    workers: 4,
    shards: 4,
    width: 1,
    budget: 1024,
    turns: 1_000_000_000_000,
    plain: false,
    factors: false,
    best_first: false,
    ahead: None,
    dealing: Dealing::Shards,
};

/// The words of a command line.
fn words_of(rt: &(impl Abort + AllocGlobal), line: &str) -> Vec<String> {
    let mut words = Vec::new(rt.alloc());
    for word in line.split(' ') {
        let owned = String::from_str(rt.alloc(), word).expect(rt, "memory");
        words.push(owned).expect(rt, "memory");
    }
    words
}

/// How a command line says that questions are run; none if it is wrong.
fn settings_of(rt: &(impl Abort + AllocGlobal), line: &[&str]) -> Option<Settings> {
    let line = line.concat(rt.alloc()).expect(rt, "memory");
    match parse_args(rt.alloc(), words_of(rt, line.as_str()).as_slice()) {
        Ok(Subcommand::Solve(args)) => Some(args.options.settings),
        Ok(Subcommand::Bundle(args)) => Some(args.options.settings),
        Ok(Subcommand::Serve(args)) => Some(args.options.settings),
        _ => None,
    }
}

/// Asserts how each command that answers runs questions under these options.
fn assert_settings(rt: &(impl Abort + AllocGlobal), options: &[(&str, Option<Settings>)]) {
    for command in ["diffuse bundle ", "diffuse solve g q ", "diffuse serve g "] {
        for (option, wanted) in options {
            assert_eq!(rt; settings_of(rt, &[command, option]), *wanted, "{option}");
        }
    }
}

#[test]
fn numbers_of_a_command_line(rt: HostRuntime) {
    assert_settings(
        &rt,
        &[
            ("--workers 4", Some(USUAL)),
            (
                "--workers 64 --shards 1",
                Some(Settings {
                    workers: 64,
                    shards: 1,
                    ..USUAL
                }),
            ),
            (
                "--shards=64 --width 64",
                Some(Settings {
                    shards: 64,
                    width: 64,
                    ..USUAL
                }),
            ),
            (
                "--budget 1 --turns 0",
                Some(Settings {
                    budget: 1,
                    turns: 0,
                    ..USUAL
                }),
            ),
            (
                "--budget 65536",
                Some(Settings {
                    budget: 65536,
                    ..USUAL
                }),
            ),
            ("--workers 65", None),
        ],
    );
}

#[test]
fn flags_of_a_command_line(rt: HostRuntime) {
    assert_settings(
        &rt,
        &[
            (
                "--workers 1 --plain",
                Some(Settings {
                    workers: 1,
                    plain: true,
                    ..USUAL
                }),
            ),
            (
                "--factors",
                Some(Settings {
                    factors: true,
                    ..USUAL
                }),
            ),
            (
                "--factors --plain",
                Some(Settings {
                    plain: true,
                    factors: true,
                    ..USUAL
                }),
            ),
            (
                "--best-first",
                Some(Settings {
                    best_first: true,
                    ..USUAL
                }),
            ),
            (
                "--best-first --ahead 0",
                Some(Settings {
                    best_first: true,
                    ahead: Some(0),
                    ..USUAL
                }),
            ),
            (
                "--ahead 4294967295",
                Some(Settings {
                    ahead: Some(4294967295),
                    ..USUAL
                }),
            ),
            ("--deal shards", Some(USUAL)),
            (
                "--deal questions",
                Some(Settings {
                    dealing: Dealing::Questions,
                    ..USUAL
                }),
            ),
            (
                "--deal questions --best-first",
                Some(Settings {
                    budget: 65536,
                    best_first: true,
                    dealing: Dealing::Questions,
                    ..USUAL
                }),
            ),
            (
                "--deal questions --best-first --budget 1024",
                Some(Settings {
                    best_first: true,
                    dealing: Dealing::Questions,
                    ..USUAL
                }),
            ),
        ],
    );
}
