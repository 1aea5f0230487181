//! The loop of one worker.
ghost use Rattle.std.specs.Prelude.{◌≡◌, ◌<◌, ◌≤◌, length, IfSome, IfNone};
ghost use Rattle.std.specs.List.{All, AllWithin, HoldsAt};
ghost use Rattle.worker_fleet.specs.Turns.{NextOn, IsOnItsFloor, StationHasEnded, StationIsOpen, IsNextOpen};
ghost use Rattle.worker_fleet.specs.Drives.{Drives, LetsTurn, WasCalledOff};

use crate::gate::{Gate, OpenGate};
use crate::settings::TurnSettings;
use path_algebra::PathAlgebra;
use post_floor::Floor;
use station::{Report, Station};
use std::thread;

/// Why a worker stopped.
#[derive(Clone, Copy, PartialEq, Eq, Debug)]
pub enum Outcome {
    /// All have ended.
    Ended,
    /// The limit of turns was reached, and not all have ended.
    Stalled,
    /// The gate answered `false`.
    Gated,
}

/// What a worker returns.
#[derive(Drop)]
pub struct Driven<'g, A: PathAlgebra> {
    /// Why it stopped.
    pub outcome: Outcome,
    /// How many turns it made.
    pub turns: u64,
    /// The stations that it was given, in the same order.
    pub stations: Vec<(usize, Station<'g, A>)>,
}

/// The place of the first station from `from` up to `to` that has not ended.
fn first_open<A: PathAlgebra>(
    stations: &[(usize, Station<'_, A>)],
    from: usize,
    to: usize,
) -> Option<usize>
    requires { (from ≤ to) × (to ≤ length stations.now) }
    ensures none { IfNone result (AllWithin StationHasEnded stations.now from to) }
    ensures within { IfSome result (λ k. (from ≤ k) × (k < to)) }
    ensures here { IfSome result (HoldsAt StationIsOpen stations.now) }
    ensures first { IfSome result (AllWithin StationHasEnded stations.now from) }
{
    for k in from..to {
        let (_, station) = &stations[k];
        if !station.ended() {
            return Some(k);
        }
    }
    None
}

/// The place of the next station that has not ended, from `at` on and then from the first.
fn next_open<A: PathAlgebra>(stations: &[(usize, Station<'_, A>)], at: usize) -> Option<usize>
    requires { at ≤ length stations.now }
    ensures none { IfNone result (All StationHasEnded stations.now) }
    ensures some { IfSome result (IsNextOpen stations.now at) }
{
    match first_open(stations, at, stations.len()) {
        Some(k) => Some(k),
        None => first_open(stations, 0, at),
    }
}

/// Whether a turn handled, took or published anything.
fn is_busy(report: Report) -> bool {
    report.handled > 0 || report.taken > 0 || report.published > 0
}

/// Makes one turn of one station on its floor, and says whether it did anything.
fn turn_one<A: PathAlgebra>(
    floors: &[Floor<A>],
    placed: &mut (usize, Station<'_, A>),
    budget: u32,
) -> bool
    requires { IsOnItsFloor floors.now placed.old }
    ensures { NextOn A.meaning floors.now budget placed.old placed.new }
{
    let (place, station) = placed;
    is_busy(station.turn(&floors[*place], budget))
}

/// Turns stations as `drive` does, and says why it stopped and how many turns that were; none if a
/// second gate, which is asked before each turn too, called the worker off.
fn turn_until<'g, A: PathAlgebra, G: Gate, C: Gate>(
    floors: &[Floor<A>],
    stations: &mut Vec<(usize, Station<'g, A>)>,
    worker: u64,
    settings: &TurnSettings<'_, G>,
    call_off: &C,
) -> Option<(Outcome, u64)>
    requires { All (IsOnItsFloor floors.now) stations.old.items }
    ensures drives { IfSome result (λ r. Drives A.meaning floors.now settings.now.budget
        settings.now.limit (G.may_answer settings.now.gate.now) worker stations.old.items
        (record { outcome = r.0; turns = r.1; stations = stations.new })) }
    ensures looked { IfSome result (λ r. LetsTurn (C.may_answer call_off.now) worker r.1) }
    ensures called_off { IfNone result (WasCalledOff (C.may_answer call_off.now) worker
        settings.now.limit) }
{
    let (mut at, mut busy) = (0, true);
    for done in 0..settings.limit {
        let Some(k) = next_open(stations, at) else {
            return Some((Outcome::Ended, done));
        };
        if !call_off.before(worker, done + 1) {
            return None;
        }
        if k < at {
            yield_unless(busy);
            busy = false;
        }
        if !settings.gate.before(worker, done + 1) {
            return Some((Outcome::Gated, done));
        }
        busy |= turn_one(floors, &mut stations[k], settings.budget);
        at = k + 1;
    }
    match next_open(stations, at) {
        Some(_) => Some((Outcome::Stalled, settings.limit)),
        None => Some((Outcome::Ended, settings.limit)),
    }
}

/// As `drive`, or none if the worker was called off before it stopped.
pub(crate) fn drive_unless<'g, A: PathAlgebra, G: Gate, C: Gate>(
    floors: &[Floor<A>],
    stations: Vec<(usize, Station<'g, A>)>,
    worker: u64,
    settings: &TurnSettings<'_, G>,
    call_off: &C,
) -> Option<Driven<'g, A>>
    requires { All (IsOnItsFloor floors.now) stations.items }
    ensures drives { IfSome result (Drives A.meaning floors.now settings.now.budget
        settings.now.limit (G.may_answer settings.now.gate.now) worker stations.entry.items) }
    ensures looked { IfSome result (λ d. LetsTurn (C.may_answer call_off.now) worker d.turns) }
    ensures called_off { IfNone result (WasCalledOff (C.may_answer call_off.now) worker
        settings.now.limit) }
{
    let mut stations = stations;
    let stopped = turn_until(floors, &mut stations, worker, settings, call_off);
    let (outcome, turns) = stopped?;
    Some(Driven {
        outcome,
        turns,
        stations,
    })
}

/// Turns stations in rotation, in the order of the list, and passes over those that have ended.
///
/// It stops when all have ended, before a turn above the limit, or if the gate answers `false`.
/// After a whole round in which no station did anything it lets other threads run.
pub fn drive<'g, A: PathAlgebra, G: Gate>(
    floors: &[Floor<A>],
    stations: Vec<(usize, Station<'g, A>)>,
    worker: u64,
    settings: &TurnSettings<'_, G>,
) -> Driven<'g, A>
    requires { All (IsOnItsFloor floors.now) stations.items }
    ensures { Drives A.meaning floors.now settings.now.budget settings.now.limit
        (G.may_answer settings.now.gate.now) worker stations.entry.items result }
{
    match drive_unless(floors, stations, worker, settings, &OpenGate) {
        Some(driven) => driven,
        None => unreachable!(),
    }
}

/// Lets other threads run, unless there was something to do.
fn yield_unless(busy: bool) {
    if !busy {
        thread::yield_now();
    }
}
