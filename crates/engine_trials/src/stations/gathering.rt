//! What stations that have ended come to.
ghost use Rattle.std.specs.Prelude.{◌≡◌, []};
ghost use Rattle.std.specs.List.{All};
ghost use Rattle.station.specs.Station.{BelongsTo};

use path_algebra::PathAlgebra;
use post_floor::Floor;
use road_graph::Vertex;
use station::{Finished, GatherFault, Gathered, Station, Ungathered, gather};
use std::process::Abort;

/// What `gather` takes of stations, all of which have ended.
pub(super) fn finished<'g, A: PathAlgebra>(
    rt: &(impl Abort + AllocGlobal),
    floor: &Floor<A>,
    stations: Vec<Station<'g, A>>,
) -> Vec<Finished<'g, A>>
    requires { All (BelongsTo floor.now) stations.items }
    ensures { All (BelongsTo floor.now) result.items }
{
    let mut stations = stations;
    let mut done = empty(rt, stations.len());
    while let Some(station) = stations.pop() {
        match station.finish() {
            Ok(station) => done.push(station).expect(rt, "memory"),
            Err(_) => panic!(rt; "not ended"),
        }
    }
    done
}

/// An empty list with room for `count`.
fn empty<'g, A: PathAlgebra>(rt: &(impl Abort + AllocGlobal), count: usize) -> Vec<Finished<'g, A>>
    ensures { result.items ≡ [] }
{
    match Vec::with_capacity(rt.alloc(), count) {
        Ok(list) => list,
        Err(_) => Vec::with_capacity(rt.alloc(), count).expect(rt, "memory"),
    }
}

/// The answer from what came back if memory was refused.
fn gathered_again<A: PathAlgebra>(
    rt: &(impl Abort + AllocGlobal),
    back: Ungathered<'_, A>,
) -> Gathered<A::Value>
    requires { All (BelongsTo back.floor) back.stations.items }
{
    let Ungathered {
        fault,
        floor,
        stations,
    } = back;
    assert!(rt; fault == GatherFault::Memory);
    match gather(rt.alloc(), floor, stations) {
        Ok(gathered) => gathered,
        Err(_) => panic!(rt; "not gathered"),
    }
}

/// The answer from what `finished` gives.
pub(super) fn gathered<A: PathAlgebra>(
    rt: &(impl Abort + AllocGlobal),
    floor: Floor<A>,
    done: Vec<Finished<'_, A>>,
) -> Gathered<A::Value>
    requires { All (BelongsTo floor) done.items }
{
    match gather(rt.alloc(), floor, done) {
        Ok(gathered) => gathered,
        Err(back) => gathered_again(rt, back),
    }
}

/// Asserts the label of each vertex, from vertex 1 on, by the code of its value.
pub(super) fn assert_labels<A: PathAlgebra>(
    rt: &impl Abort,
    algebra: A,
    gathered: &Gathered<A::Value>,
    wanted: &[Option<u64>],
) {
    assert!(rt; gathered.labels.vertices() == wanted.len());
    let mut v = Vertex(0);
    for label in wanted {
        v = Vertex(v.0.saturating_add(1));
        assert!(rt; v.0 as usize <= gathered.labels.vertices());
        assert!(rt; gathered.labels.of(v).map(|value| algebra.code(value)) == *label);
    }
}
