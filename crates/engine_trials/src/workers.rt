//! A worker that turns a station to its end, and one that is called off.
ghost use Rattle.std.specs.Prelude.{◌∷◌, []};
ghost use Rattle.std.specs.List.{All};
ghost use Rattle.station.specs.Station.{BelongsTo};
ghost use Rattle.worker_fleet.specs.Turns.{IsOnItsFloor};

use crate::graphs::{FIVE, Ground, SHORTEST, ground_of};
use crate::stations::opened;
use path_algebra::{PathAlgebra, Shortest};
use post_floor::Floor;
use road_graph::Vertex;
use shard_part::QueueOrder;
use station::Station;
use std::process::Abort;
use worker_fleet::{CallOff, Gate, OpenGate, Outcome, TurnSettings, drive};

/// Stations with the place of their floor, the only one.
fn placed<'g, A: PathAlgebra>(
    rt: &(impl Abort + AllocGlobal),
    floor: &Floor<A>,
    stations: Vec<Station<'g, A>>,
) -> Vec<(usize, Station<'g, A>)>
    requires { All (BelongsTo floor.now) stations.items }
    ensures { All (IsOnItsFloor (floor.now ∷ [])) result.items }
{
    let mut placed = Vec::new(rt.alloc());
    for station in stations {
        placed.push((0, station)).expect(rt, "memory");
    }
    placed
}

/// Stations that a worker drove to their end by turns of one item, so many of them in a call, and in
/// how many turns.
fn driven<'g, A: PathAlgebra>(
    rt: &impl Abort,
    floors: &[Floor<A>],
    stations: Vec<(usize, Station<'g, A>)>,
    limit: u64,
) -> (Vec<(usize, Station<'g, A>)>, u64)
    requires { All (IsOnItsFloor floors.now) stations.items }
{
    let (mut stations, mut turns) = (stations, 0u64);
    let settings = TurnSettings {
        budget: 1,
        limit,
        gate: &OpenGate,
    };
    for _ in 0..200 {
        let back = drive(floors, stations, 0, &settings);
        stations = back.stations;
        turns = turns.saturating_add(back.turns);
        if back.outcome == Outcome::Ended {
            return (stations, turns);
        }
        assert!(rt; (back.outcome, back.turns) == (Outcome::Stalled, limit));
    }
    panic!(rt; "not ended")
}

/// Asserts the labels that a station shows of its vertices.
fn assert_shown<A: PathAlgebra<Value = u64>>(
    rt: &impl Abort,
    station: &Station<'_, A>,
    wanted: &[Option<u64>; 5],
) {
    for v in 0..5 {
        if station.holds(Vertex(v as u32 + 1)) {
            assert!(rt; station.peek(Vertex(v as u32 + 1)) == wanted[v]);
        }
    }
}

/// Asserts the labels that a worker finds from vertex 1 if it goes on after each limit, and in how
/// many turns, if that is known.
fn assert_driven<A: PathAlgebra<Value = u64>>(
    rt: &(impl Abort + AllocGlobal),
    algebra: A,
    ground: &Ground,
    limit: u64,
    wanted: (&[Option<u64>; 5], Option<u64>),
) {
    let (floor, stations) = opened(rt, algebra, ground, 1, QueueOrder::Arrival);
    let stations = placed(rt, &floor, stations);
    let (stations, turns) = driven(rt, &[floor], stations, limit);
    assert!(rt; wanted.1.is_none() || wanted.1 == Some(turns));
    for (_, station) in &stations {
        assert_shown(rt, station, wanted.0);
    }
}

#[test]
fn drives_on_after_each_limit(rt: HostRuntime) {
    // In one shard nine messages and nine signals.
    for &(shards, limit, turns) in &[(1, 1000, Some(18)), (1, 3, Some(18)), (3, 3, None)] {
        let ground = ground_of(&rt, 5, &FIVE, shards);
        assert_driven(&rt, Shortest, &ground, limit, (&SHORTEST, turns));
    }
}

#[test]
fn makes_no_turn_once_it_is_called_off(rt: HostRuntime) {
    let gate = CallOff::new();
    assert!(rt; gate.before(0, 1));
    gate.call_off();
    assert!(rt; !gate.before(0, 2));
}
