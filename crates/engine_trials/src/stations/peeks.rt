//! Labels that are read while a diffusion goes on.
ghost use Rattle.std.specs.List.{All};
ghost use Rattle.station.specs.Station.{BelongsTo};

use super::{opened, turn_one};
use crate::graphs::{FIVE, Ground, ground_of};
use path_algebra::{PathAlgebra, Shortest};
use post_floor::Floor;
use road_graph::Vertex;
use shard_part::QueueOrder;
use station::Station;
use std::process::Abort;

/// The label of a vertex of a station's shard.
fn peeked<A: PathAlgebra>(
    rt: &impl Abort,
    station: &Station<'_, A>,
    v: Vertex,
) -> Option<A::Value> {
    assert!(rt; station.holds(v));
    station.peek(v)
}

/// Whether a label that was there is still there, and no greater.
fn is_no_greater(now: Option<u64>, before: Option<u64>) -> bool {
    match (now, before) {
        (_, None) => true,
        (Some(now), Some(before)) => now <= before,
        (None, Some(_)) => false,
    }
}

/// Turns three stations in rotation, and asserts after each turn that the label of a vertex of the
/// second has not grown, and in the end what it is.
fn assert_never_grows<A: PathAlgebra<Value = u64>>(
    rt: &impl Abort,
    floor: &Floor<A>,
    stations: &mut Vec<Station<'_, A>>,
    v: Vertex,
    wanted: Option<u64>,
)
    requires { All (BelongsTo floor.now) stations.old.items }
    ensures { All (BelongsTo floor.now) stations.new.items }
{
    let mut last = None;
    for k in 0..200 {
        turn_one(rt, floor, stations, k % 3, 1);
        assert!(rt; stations.len() == 3);
        let label = peeked(rt, &stations[1], v);
        assert!(rt; is_no_greater(label, last));
        last = label;
    }
    assert!(rt; last == wanted);
}

/// Asserts what the label of vertex 4 of the five comes to from vertex 1, over three shards.
fn assert_peeked<A: PathAlgebra<Value = u64>>(
    rt: &(impl Abort + AllocGlobal),
    algebra: A,
    ground: &Ground,
    wanted: u64,
) {
    let (floor, mut stations) = opened(rt, algebra, ground, 1, QueueOrder::Arrival);
    assert_never_grows(rt, &floor, &mut stations, Vertex(4), Some(wanted));
}

#[test]
fn peek_never_grows(rt: HostRuntime) {
    assert_peeked(&rt, Shortest, &ground_of(&rt, 5, &FIVE, 3), 8);
}
