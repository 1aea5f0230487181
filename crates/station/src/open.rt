//! Opening a diffusion.
ghost use Rattle.std.specs.Prelude.{◌≡◌, ◌<◌, [], ◌∷◌, ◌++◌, length, IfOk, OnOk, None, map};
ghost use Rattle.road_graph.specs.GraphData.{HasVertex};
ghost use Rattle.shard_part.specs.Weights.{All};
ghost use Rattle.post_floor.specs.Data.{seat_of, first_parts};
ghost use Rattle.post_floor.specs.Plays.{HoldsReachedShare};
ghost use Rattle.station.specs.Opened.{AreOpened, IsFreshPart, station_of};
ghost use Rattle.shard_store.specs.Setup.{setup_of};

use crate::station::Station;
use path_algebra::PathAlgebra;
use post_floor::{Floor, Seat};
use road_graph::{Graph, Memory, Vertex};
use shard_part::laws::plan_holds;
use shard_part::{CountedPlan, Part, Plan, QueueOrder, Shard};
use std::alloc::{AllocError, Global};

/// Appends an item.
pub(crate) fn push<T: Drop>(list: &mut Vec<T>, item: T) -> Result<(), AllocError>
    ensures { OnOk result (list.new.items ≡ list.old.items ++ (item ∷ [])) }
{
    list.push(item)?;
    Ok(())
}

/// The part of each shard, in order.
fn open_parts<'g, A: PathAlgebra>(
    alloc: Global,
    algebra: A,
    graph: &'g Graph,
    counted: &'g CountedPlan,
    source: Vertex,
    order: QueueOrder,
) -> Result<Vec<Part<'g, A>>, Memory>
    requires source { HasVertex graph.now source }
    requires graph { counted.now.roads ≡ graph.now }
    ensures parts { IfOk result
        (λ v. v.items ≡ first_parts A.meaning (setup_of algebra graph.now source
        counted.now.plan order) counted.now.plan.shards) }
    ensures known { IfOk result (λ v. All (HoldsReachedShare A.meaning) v.items) }
{
    let plan = counted.plan();
    let mut parts = Vec::new(alloc);
    for shard in 0..plan.shards() {
        let part = Part::open(alloc, algebra, graph, counted, Shard(shard), source, order)?;
        push(&mut parts, part)?;
    }
    Ok(parts)
}

/// A station of each part with its seat, in order.
fn pair<'g, A: PathAlgebra>(
    alloc: Global,
    floor: &Floor<A>,
    plan: &'g Plan,
    order: QueueOrder,
    mut parts: Vec<Part<'g, A>>,
    mut seats: Vec<Seat<A>>,
) -> Result<Vec<Station<'g, A>>, AllocError>
    requires plan { plan.now ≡ floor.now.setup.plan }
    requires order { order ≡ floor.now.setup.order }
    requires parts { All (IsFreshPart A.meaning floor.now) parts.items }
    requires seats { seats.items ≡ map (seat_of floor.now.id floor.now.setup.plan.shards)
        parts.items }
    ensures { IfOk result
        (λ v. v.items ≡ map (station_of floor.now.id floor.now.setup.plan.shards)
        parts.entry.items) }
{
    let mut stations = Vec::new(alloc);
    while let Some(part) = parts.pop() {
        let Some(seat) = seats.pop() else {
            unreachable!()
        };
        push(&mut stations, Station::new(floor, plan, order, part, seat))?;
    }
    stations.reverse();
    Ok(stations)
}

/// A floor with empty mailboxes, and one station for each shard of the plan, in order. Their parts
/// take items in the order of their queues.
pub fn open_diffusion<'g, A: PathAlgebra>(
    alloc: Global,
    algebra: A,
    graph: &'g Graph,
    counted: &'g CountedPlan,
    source: Vertex,
    order: QueueOrder,
) -> Result<(Floor<A>, Vec<Station<'g, A>>), Memory>
    requires source { HasVertex graph.now source }
    requires graph { counted.now.roads ≡ graph.now }
    ensures { IfOk result
        (λ r. AreOpened A.meaning (setup_of algebra graph.now source counted.now.plan order) None
        r.0 r.1.items) }
{
    let plan = counted.plan();
    plan_holds(plan);
    let parts = open_parts(alloc, algebra, graph, counted, source, order)?;
    let (floor, seats) = Floor::open(alloc, plan, source, &parts)?;
    let stations = pair(alloc, &floor, plan, order, parts, seats)?;
    Ok((floor, stations))
}
