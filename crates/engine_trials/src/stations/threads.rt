//! Stations that are moved to threads of their own, and come back.
ghost use Rattle.std.specs.Prelude.{◌≡◌, IfSome};
ghost use Rattle.std.specs.List.{All};
ghost use Rattle.station.specs.Station.{BelongsTo};

use super::gathering::{assert_labels, finished, gathered};
use super::opened;
use crate::graphs::{FIVE, Ground, SHORTEST, ground_of};
use path_algebra::{PathAlgebra, Shortest};
use post_floor::Floor;
use shard_part::QueueOrder;
use station::Station;
use std::process::Abort;
use std::sync::Wait;
use std::thread;
use std::thread::{Promise, PromisedHandle, Scope, Threads};

/// What a thread is started with: the floor that its station is of.
#[derive(Drop)]
struct Errand<'a, A: PathAlgebra> {
    floor: &'a Floor<A>,
}

impl<'a, 'g, A: PathAlgebra> Promise<Station<'g, A>> for Errand<'a, A> {
    ghost kept_by = { λ p s. BelongsTo p.floor.now s };
}

/// A station that made turns until it reported the end.
fn turned_to_end<'g, A: PathAlgebra>(
    floor: &Floor<A>,
    station: Station<'g, A>,
    budget: u32,
) -> Station<'g, A>
    requires { BelongsTo floor.now station }
    ensures { BelongsTo floor.now result }
{
    let mut station = station;
    for _ in 0..1_000_000_000 {
        if station.turn(floor, budget).ended {
            break;
        }
        thread::yield_now();
    }
    station
}

/// Moves a station to a thread of its own, which turns it until it reports the end.
fn start<'s, 'g: 's, E, A: PathAlgebra>(
    scope: &Scope<'s, E>,
    floor: &'s Floor<A>,
    station: Station<'g, A>,
    budget: u32,
) -> Option<PromisedHandle<Station<'g, A>, Errand<'s, A>>>
    requires { BelongsTo floor.now station }
    ensures { IfSome result (λ h. h.promise.floor.now ≡ floor.entry.now) }
{
    let errand = Errand { floor };
    let started = scope.spawn_with(
        errand,
        move || -> Station<'_, A>
            requires { BelongsTo floor.now station }
            ensures { BelongsTo floor.entry.now result }
        { turned_to_end(floor, station, budget) },
    );
    started.ok()
}

/// Three stations, each turned on a thread of its own.
fn on_three_threads<'g, A: PathAlgebra, R: Threads + Wait + Abort>(
    rt: &R,
    floor: &Floor<A>,
    first: Station<'g, A>,
    second: Station<'g, A>,
    third: Station<'g, A>,
    budget: u32,
) -> (Station<'g, A>, Station<'g, A>, Station<'g, A>)
    requires first { BelongsTo floor.now first }
    requires second { BelongsTo floor.now second }
    requires third { BelongsTo floor.now third }
    ensures { BelongsTo floor.now result.0 × BelongsTo floor.now result.1 × BelongsTo floor.now
        result.2 }
{
    thread::scope(
        thread::scope_env(),
        rt,
        move |scope| -> (Station<'_, A>, Station<'_, A>, Station<'_, A>)
            requires { BelongsTo floor.now first × BelongsTo floor.now second × BelongsTo floor.now
                third }
            ensures { BelongsTo floor.entry.now result.0 × BelongsTo floor.entry.now result.1 ×
                BelongsTo floor.entry.now result.2 }
        {
            let first = start(scope, floor, first, budget).expect(rt, "no thread");
            let second = start(scope, floor, second, budget).expect(rt, "no thread");
            let third = start(scope, floor, third, budget).expect(rt, "no thread");
            (first.join(rt), second.join(rt), third.join(rt))
        },
    )
}

/// The last station of a list.
fn last_of<'g, A: PathAlgebra>(
    rt: &impl Abort,
    floor: &Floor<A>,
    stations: &mut Vec<Station<'g, A>>,
) -> Station<'g, A>
    requires { All (BelongsTo floor.now) stations.old.items }
    ensures rest { All (BelongsTo floor.now) stations.new.items }
    ensures last { BelongsTo floor.now result }
{
    match stations.pop() {
        Some(station) => station,
        None => panic!(rt; "no station is left"),
    }
}

/// Adds a station to a list.
fn add<'g, A: PathAlgebra>(
    rt: &impl Abort,
    floor: &Floor<A>,
    stations: &mut Vec<Station<'g, A>>,
    station: Station<'g, A>,
)
    requires all { All (BelongsTo floor.now) stations.old.items }
    requires own { BelongsTo floor.now station }
    ensures { All (BelongsTo floor.now) stations.new.items }
{
    stations.push(station).expect(rt, "memory");
}

/// What comes back of the three stations of a list, each of which was turned on a thread of its own.
fn turned_by_threads<'g, A: PathAlgebra, R: Threads + Wait + Abort>(
    rt: &R,
    floor: &Floor<A>,
    stations: Vec<Station<'g, A>>,
    budget: u32,
) -> Vec<Station<'g, A>>
    requires { All (BelongsTo floor.now) stations.items }
    ensures { All (BelongsTo floor.now) result.items }
{
    let mut stations = stations;
    let third = last_of(rt, floor, &mut stations);
    let second = last_of(rt, floor, &mut stations);
    let first = last_of(rt, floor, &mut stations);
    assert!(rt; stations.is_empty());
    let back = on_three_threads(rt, floor, first, second, third, budget);
    add(rt, floor, &mut stations, back.0);
    add(rt, floor, &mut stations, back.1);
    add(rt, floor, &mut stations, back.2);
    stations
}

/// Asserts the labels from vertex 1 that three stations find, each on a thread of its own.
fn assert_by_threads<A: PathAlgebra, R: Threads + Wait + Abort + AllocGlobal>(
    rt: &R,
    algebra: A,
    ground: &Ground,
    budget: u32,
    wanted: &[Option<u64>],
) {
    let (floor, stations) = opened(rt, algebra, ground, 1, QueueOrder::Arrival);
    let stations = turned_by_threads(rt, &floor, stations, budget);
    let done = finished(rt, &floor, stations);
    let gathered = gathered(rt, floor, done);
    assert_labels(rt, algebra, &gathered, wanted);
}

#[test]
fn stations_on_three_threads(rt: HostRuntime) {
    let ground = ground_of(&rt, 5, &FIVE, 3);
    for budget in [1, 1024] {
        assert_by_threads(&rt, Shortest, &ground, budget, &SHORTEST);
    }
}
