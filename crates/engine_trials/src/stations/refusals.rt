//! Calls that are refused, and what comes back.
ghost use Rattle.std.specs.Prelude.{◌≡◌};
ghost use Rattle.std.specs.List.{All};
ghost use Rattle.station.specs.Station.{BelongsTo};

use super::gathering::{assert_labels, finished, gathered};
use super::{opened, turn_all};
use crate::graphs::{FIVE, Ground, SHORTEST, ground_of};
use crate::parts::assert_table_comes_back;
use path_algebra::{PathAlgebra, Shortest};
use post_floor::Floor;
use shard_part::{QueueOrder, Shard};
use station::{Finished, GatherFault, Gathered, Ungathered, gather};
use std::process::Abort;

/// Takes the last but one of a list.
fn last_but_one<'g, A: PathAlgebra>(
    rt: &(impl Abort + AllocGlobal),
    floor: &Floor<A>,
    done: &mut Vec<Finished<'g, A>>,
) -> Finished<'g, A>
    requires { All (BelongsTo floor.now) done.old.items }
    ensures others { All (BelongsTo floor.now) done.new.items }
    ensures taken { BelongsTo floor.now result }
{
    let last = done.pop().expect(rt, "a station");
    let taken = done.pop().expect(rt, "another station");
    done.push(last).expect(rt, "memory");
    taken
}

/// Floor and stations, which come back if the station of shard 1 is missing.
fn refused<'g, A: PathAlgebra>(
    rt: &(impl Abort + AllocGlobal),
    floor: Floor<A>,
    done: Vec<Finished<'g, A>>,
) -> (Floor<A>, Vec<Finished<'g, A>>)
    requires { All (BelongsTo floor) done.items }
    ensures floor { result.0 ≡ floor }
    ensures stations { result.1.items ≡ done.entry.items }
{
    let Err(back) = gather(rt.alloc(), floor, done) else {
        panic!(rt; "gathered")
    };
    let Ungathered {
        fault,
        floor,
        stations,
    } = back;
    assert!(rt; fault == GatherFault::Missing(Shard(1)));
    assert!(rt; stations.len() == 2);
    (floor, stations)
}

/// The answer of three stations, after it was asked for in vain without that of shard 1.
fn gathered_at_last<A: PathAlgebra>(
    rt: &(impl Abort + AllocGlobal),
    floor: Floor<A>,
    done: Vec<Finished<'_, A>>,
) -> Gathered<A::Value>
    requires { All (BelongsTo floor) done.items }
{
    let mut done = done;
    let taken = last_but_one(rt, &floor, &mut done);
    let back = refused(rt, floor, done);
    let (floor, mut done) = back;
    done.push(taken).expect(rt, "memory");
    gathered(rt, floor, done)
}

/// Asserts that three stations are gathered after a refusal, and their labels.
fn assert_gathered_at_last<A: PathAlgebra>(
    rt: &(impl Abort + AllocGlobal),
    algebra: A,
    ground: &Ground,
    wanted: &[Option<u64>],
) {
    let (floor, mut stations) = opened(rt, algebra, ground, 1, QueueOrder::Arrival);
    turn_all(rt, &floor, &mut stations, 1, &[]);
    let done = finished(rt, &floor, stations);
    let gathered = gathered_at_last(rt, floor, done);
    assert_labels(rt, algebra, &gathered, wanted);
}

/// Asserts that the last of three stations, which made no turn, is not finished, and comes back.
fn assert_unfinished<A: PathAlgebra>(rt: &(impl Abort + AllocGlobal), algebra: A, ground: &Ground) {
    let (_floor, mut stations) = opened(rt, algebra, ground, 1, QueueOrder::Arrival);
    let station = stations.pop().expect(rt, "a station");
    let station = station.finish().err().expect(rt, "an unfinished station");
    assert!(rt; !station.ended() && station.shard() == Shard(2));
}

#[test]
fn refusals_hand_back(rt: HostRuntime) {
    assert_table_comes_back(&rt);
    let ground = ground_of(&rt, 5, &FIVE, 3);
    assert_unfinished(&rt, Shortest, &ground);
    assert_gathered_at_last(&rt, Shortest, &ground, &SHORTEST);
}
