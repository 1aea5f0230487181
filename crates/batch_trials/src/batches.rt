//! What a batch does beside what the built program shows (`system_tests`): gates, which count turns,
//! and an algebra of a caller's own.
use crate::gates::{Closed, Counted, Counting, Meeting};
use crate::texts::{
    ALL_OF_THREE, FIVE, FROM_ONE, HEADER, NEAREST, NONE_OF_THREE, ONE_OF_THREE, PAIRS, ROUTES,
    SEVERAL, SHORTEST, THRICE,
};
use crate::tolls::Tolls;
use batch_run::{Dealing, Gate, OpenGate, Run, Settings, Unwatched, run_bundle};
use crossbeam_utils::CachePadded;
use path_algebra::{PathAlgebra, Shortest};
use std::process::Abort;
use std::sync::Wait;
use std::sync::atomic::{AtomicU64, Ordering};
use std::thread::Threads;
use text_lines::Plain;

/// One worker, one shard, one item a turn.
pub const SLOW: Settings = Settings {
    workers: 1,
    shards: 1,
    width: 1,
    budget: 1,
    turns: 1_000_000,
    plain: false,
    factors: false,
    best_first: false,
    ahead: None,
    dealing: Dealing::Shards,
};

/// Asserts with which fault a bundle ends at a gate, 0 for none, and what it has written.
pub fn assert_ends<A: PathAlgebra, T: Gate>(
    rt: &(impl Abort + AllocGlobal + Threads + Wait + Sync),
    algebra: A,
    text: &[&str],
    settings: &Settings,
    gate: &T,
    (number, written): (u8, &str),
) {
    let alloc = rt.alloc();
    let text = text.concat(alloc).expect(rt, "memory");
    let mut input = Plain::new(text.as_bytes());
    let mut out = Plain::new(Vec::new(alloc));
    let run = Run {
        rt,
        alloc,
        settings,
        gate,
    };
    let ended = run_bundle(&run, algebra, &mut input, &mut out, &mut Unwatched);
    assert_eq!(rt; ended.map_or_else(|fault| fault.number, |()| 0), number);
    assert_eq!(rt; out.into_inner().as_slice(), written.as_bytes());
}

#[test]
fn own_algebra_tolls(rt: HostRuntime) {
    let wanted = "p ans ss 1 own\ns 1\nd 1 0 0 0\nd 2 6 2 3\nd 3 2 1 1\nd 4 16 3 2\nu 5\n";
    let settings = Settings::default();
    assert_ends(
        &rt,
        Tolls,
        &[FIVE, FROM_ONE],
        &settings,
        &OpenGate,
        (0, wanted),
    );
}

/// Asserts how questions over `FIVE` end if the gate is closed so; gives what it has counted.
fn counted(
    rt: &(impl Abort + AllocGlobal + Threads + Wait + Sync),
    questions: &str,
    settings: Settings,
    closed: Closed,
    wanted: (u8, &str),
) -> Counted {
    let gate = Counting::new(closed);
    assert_ends(rt, Shortest, &[FIVE, questions], &settings, &gate, wanted);
    gate.counted()
}

#[test]
fn a_gate_that_closes(rt: HostRuntime) {
    for shards in [1, 3] {
        let settings = Settings { shards, ..SLOW };
        for turn in 1..=18 {
            counted(&rt, FROM_ONE, settings, Closed::AtTurn(turn), (41, HEADER));
        }
    }
    counted(&rt, FROM_ONE, SLOW, Closed::AtTurn(19), (0, SHORTEST));
    for workers in [1, 2, 64] {
        let settings = Settings {
            workers,
            ..Settings::default()
        };
        counted(&rt, THRICE, settings, Closed::Always, (41, NONE_OF_THREE));
    }
}

/// Three questions of 18 turns each: the one in whose turn the gate answers `false` is not
/// answered, and the gate is not asked again.
#[test]
fn a_gate_that_answers_false_once(rt: HostRuntime) {
    for &(after, number, written, asked) in &[
        (0, 41, NONE_OF_THREE, 1),
        (17, 41, NONE_OF_THREE, 18),
        (18, 41, ONE_OF_THREE, 19),
        (35, 41, ONE_OF_THREE, 36),
        (54, 0, ALL_OF_THREE, 54),
    ] {
        let seen = counted(&rt, THRICE, SLOW, Closed::After(after), (number, written));
        assert_eq!(rt; seen.asked, asked);
    }
}

#[test]
fn the_least_worker_that_stopped(rt: HostRuntime) {
    let settings = Settings {
        workers: 2,
        shards: 2,
        turns: 1,
        ..Settings::default()
    };
    for &(worker, number) in &[(0, 41), (1, 40)] {
        counted(
            &rt,
            FROM_ONE,
            settings,
            Closed::ToWorker(worker),
            (number, HEADER),
        );
    }
}

/// Asserts for questions over `FIVE`, one item a turn, how often the gate is asked in groups of this
/// width, and its greatest turn. Those of a group of diffusions are made by one worker in one go.
pub fn assert_asked(
    rt: &(impl Abort + AllocGlobal + Threads + Wait + Sync),
    rows: &[(&str, &str, u64, u64, u64)],
) {
    for &(questions, answers, width, asked, turn) in rows {
        let settings = Settings { width, ..SLOW };
        let seen = counted(rt, questions, settings, Closed::Never, (0, answers));
        assert_eq!(rt; (seen.asked, seen.turn), (asked, turn));
    }
}

/// A question takes as many turns as messages and signals: 18 from 1, 20 from 5, 6 from 2 and 4 from
/// 4.
#[test]
fn gates_are_asked_once_a_turn(rt: HostRuntime) {
    assert_asked(
        &rt,
        &[
            (PAIRS, ROUTES, 1, 56, 20),
            (PAIRS, ROUTES, 2, 56, 36),
            (PAIRS, ROUTES, 3, 56, 56),
            (SEVERAL, NEAREST, 1, 50, 20),
            (SEVERAL, NEAREST, 2, 50, 26),
            (SEVERAL, NEAREST, 4, 50, 50),
        ],
    );
}

#[test]
fn budgets_are_kept(rt: HostRuntime) {
    for &(budget, turns) in &[(1, 18), (2, 9), (5, 4), (1024, 1)] {
        let settings = Settings { budget, ..SLOW };
        let seen = counted(&rt, FROM_ONE, settings, Closed::Never, (0, SHORTEST));
        assert_eq!(rt; seen.asked, turns);
    }
}

/// The greatest worker that makes a turn: one shard of three questions is one worker's by shards, and
/// three workers' by questions. The plain solver asks no gate.
#[test]
fn workers_that_ask(rt: HostRuntime) {
    let wide = Settings {
        workers: 5,
        width: 3,
        ..SLOW
    };
    for &(questions, answers, settings, worker) in &[
        (FROM_ONE, SHORTEST, Settings { shards: 5, ..wide }, 4),
        (THRICE, ALL_OF_THREE, wide, 0),
        (
            THRICE,
            ALL_OF_THREE,
            Settings {
                dealing: Dealing::Questions,
                ..wide
            },
            2,
        ),
    ] {
        let seen = counted(&rt, questions, settings, Closed::Never, (0, answers));
        assert_eq!(rt; seen.worker, worker);
    }
    let plain = Settings {
        plain: true,
        turns: 0,
        ..SLOW
    };
    counted(&rt, FROM_ONE, plain, Closed::Always, (0, SHORTEST));
}

/// Asserts that each of two workers has made its mark.
fn assert_marked(rt: &impl Abort, marks: &[CachePadded<AtomicU64>; 2]) {
    for mark in marks {
        assert_eq!(rt; mark.load(Ordering::SeqCst), 1);
    }
}

#[test]
fn two_workers_meet(rt: HostRuntime) {
    let gate = Meeting::new(1_000_000_000);
    let settings = Settings {
        workers: 2,
        shards: 2,
        turns: 1_000_000_000,
        ..Settings::default()
    };
    assert_ends(
        &rt,
        Shortest,
        &[FIVE, FROM_ONE],
        &settings,
        &gate,
        (0, SHORTEST),
    );
    assert_marked(&rt, &gate.marks);
    assert_marked(&rt, &gate.seconds);
    assert_eq!(rt; gate.refused.load(Ordering::SeqCst), 0);
}
