//! Gathering the answer from stations that have ended.
ghost use Rattle.std.specs.Prelude.{◌≡◌, ◌+◌, ◌<◌, ◌≤◌, [], length, IfOk, IfErr, MatchResult, MatchOption, vec_len, vec_capacity};
ghost use Rattle.std.specs.List.{All};
ghost use Rattle.shard_store.specs.Plans.{HasPlanned};
ghost use Rattle.shard_store.specs.Setup.{IsPlanned};
ghost use Rattle.shard_store.specs.Tallies.{tally_of};
ghost use Rattle.station.specs.Gather.{AllThere, AreOf, ArePlaces, IsAtPlace, IsFirstMissing, IsGathered, IsMissing, IsGatherFault, counts_in};
ghost use Rattle.station.specs.Handing.{AreHanded};
ghost use Rattle.station.specs.Station.{AreBestFor, BelongsTo, IsBestFor};

use crate::finished::Finished;
use crate::open::push;
use path_algebra::{Labels, PathAlgebra};
use post_floor::{Floor, Seat};
use road_graph::Vertex;
use shard_part::laws::plan_holds;
use shard_part::{Plan, Shard, Tally};
use std::alloc::{AllocError, Global};

/// The answer of a diffusion: for each vertex the best value, or none if no walk has one, and what
/// was counted.
#[derive(Drop)]
pub struct Gathered<V: Copy> {
    pub labels: Labels<V>,
    pub tally: Tally,
}

/// Why an answer was not gathered.
#[derive(Clone, Copy, Debug, PartialEq, Eq)]
pub enum GatherFault {
    /// The station of this shard is missing, and no earlier shard's is.
    Missing(Shard),
    /// Memory for the labels was refused.
    Memory,
}

/// What comes back if the answer was not gathered: floor and stations as they were.
#[derive(Drop)]
pub struct Ungathered<'g, A: PathAlgebra> {
    pub fault: GatherFault,
    pub floor: Floor<A>,
    pub stations: Vec<Finished<'g, A>>,
}

/// The place of the station of a shard.
fn place_of<A: PathAlgebra>(stations: &[Finished<'_, A>], shard: Shard) -> Option<usize>
    ensures { MatchOption result (IsMissing stations.now shard) (IsAtPlace stations.now shard) }
{
    for k in 0..stations.len() {
        if stations[k].is_of(shard) {
            return Some(k);
        }
    }
    None
}

/// The place of each shard's station, or the first shard whose station is missing.
fn places_of<A: PathAlgebra>(
    plan: &Plan,
    stations: &[Finished<'_, A>],
) -> Result<[usize; 64], Shard>
    ensures { MatchResult result (ArePlaces plan.now.shards stations.now)
        (IsFirstMissing plan.now.shards stations.now) }
{
    let mut places = [0; 64];
    for s in 0..plan.shards() {
        let Some(k) = place_of(stations, Shard(s)) else {
            return Err(Shard(s));
        };
        places[s as usize] = k;
    }
    Ok(places)
}

/// The best value of a vertex.
fn label_at<A: PathAlgebra>(
    floor: &Floor<A>,
    plan: &Plan,
    stations: &[Finished<'_, A>],
    places: &[usize; 64],
    v: Vertex,
) -> Option<A::Value>
    requires plan { plan.now ≡ floor.now.setup.plan }
    requires places { ArePlaces plan.now.shards stations.now places.now }
    requires own { AreOf floor.now.setup stations.now }
    requires vertex { HasPlanned plan.now v }
    ensures { IsBestFor A.meaning floor.now.setup v result }
{
    plan_holds(plan);
    let k = places[plan.shard_of(v).0 as usize];
    stations[k].label(v)
}

/// The best value of each vertex, in order.
fn label_list<A: PathAlgebra>(
    alloc: Global,
    floor: &Floor<A>,
    plan: &Plan,
    stations: &[Finished<'_, A>],
    places: &[usize; 64],
) -> Result<Vec<Option<A::Value>>, AllocError>
    requires plan { plan.now ≡ floor.now.setup.plan }
    requires places { ArePlaces plan.now.shards stations.now places.now }
    requires own { AreOf floor.now.setup stations.now }
    requires covers { length plan.now.list ≡ floor.now.setup.diffusion.roads.vertices }
    ensures { IfOk result (λ v. AreBestFor A.meaning floor.now.setup v.items) }
{
    let mut list = Vec::with_capacity(alloc, plan.vertices() as usize)?;
    for v in 0..plan.vertices() {
        push(
            &mut list,
            label_at(floor, plan, stations, places, Vertex(v + 1)),
        )?;
    }
    Ok(list)
}

/// Takes the stations apart: their seats, and what their parts counted together.
fn hand_over<'g, A: PathAlgebra>(
    floor: &Floor<A>,
    mut stations: Vec<Finished<'g, A>>,
    mut seats: Vec<Seat<A>>,
) -> (Vec<Seat<A>>, Tally)
    requires own { All (BelongsTo floor.now) stations.items }
    requires seats { seats.items ≡ [] }
    requires room { vec_len seats + vec_len stations ≤ vec_capacity seats }
    ensures { AreHanded floor.now.id stations.entry.items [] result.0.items result.1 }
{
    let mut tally = Tally::new();
    while let Some(station) = stations.pop() {
        let Finished {
            part,
            seat,
            plan: _,
        } = station;
        tally.add(&part.tally());
        let Ok(()) = seats.push(seat) else {
            unreachable!()
        };
    }
    (seats, tally)
}

/// The plan of a diffusion, as its stations have it.
fn plan_of<'g, A: PathAlgebra>(floor: &Floor<A>, stations: &[Finished<'g, A>]) -> &'g Plan
    requires own { All (BelongsTo floor.now) stations.now }
    requires some { 0 < length stations.now }
    ensures { result.now ≡ floor.now.setup.plan }
{
    stations[0].plan()
}

/// The labels of all vertices, and room for the seats, if each shard's station is there.
fn collect<A: PathAlgebra>(
    alloc: Global,
    floor: &Floor<A>,
    stations: &[Finished<'_, A>],
) -> Result<(Vec<Option<A::Value>>, Vec<Seat<A>>), GatherFault>
    requires own { All (BelongsTo floor.now) stations.now }
    requires planned { IsPlanned floor.now.setup 0 }
    ensures planned { IsPlanned floor.now.setup 0 }
    ensures there { IfOk result (λ _. AllThere floor.now.setup.plan.shards stations.now) }
    ensures labels { IfOk result (λ r. AreBestFor A.meaning floor.now.setup r.0.items) }
    ensures seats { IfOk result (λ r. (r.1.items ≡ []) ×
        (vec_len r.1 + length stations.now ≤ vec_capacity r.1)) }
    ensures refused { IfErr result (IsGatherFault floor.now.setup.plan.shards stations.now) }
{
    if stations.is_empty() {
        return Err(GatherFault::Missing(Shard(0)));
    }
    let plan = plan_of(floor, stations);
    let places = match places_of(plan, stations) {
        Ok(places) => places,
        Err(shard) => return Err(GatherFault::Missing(shard)),
    };
    let Ok(labels) = label_list(alloc, floor, plan, stations, &places) else {
        return Err(GatherFault::Memory);
    };
    let Ok(seats) = Vec::with_capacity(alloc, stations.len()) else {
        return Err(GatherFault::Memory);
    };
    Ok((labels, seats))
}

/// The answer of a diffusion from the stations of all its shards, each of which has ended. If a
/// shard's station is missing, or memory is refused, floor and stations come back.
pub fn gather<'g, A: PathAlgebra>(
    alloc: Global,
    floor: Floor<A>,
    stations: Vec<Finished<'g, A>>,
) -> Result<Gathered<A::Value>, Ungathered<'g, A>>
    requires { All (BelongsTo floor) stations.items }
    ensures gathered { IfOk result (λ g. AllThere floor.setup.plan.shards stations.entry.items ×
        IsGathered A.meaning floor.setup g) }
    ensures counted { IfOk result (λ g. g.tally ≡ tally_of (counts_in stations.entry.items)) }
    ensures refused { IfErr result (λ u. (u.floor ≡ floor) ×
        (u.stations.items ≡ stations.entry.items) × IsGatherFault floor.setup.plan.shards stations.entry.items u.fault) }
{
    match collect(alloc, &floor, &stations) {
        Ok((labels, seats)) => {
            let (seats, tally) = hand_over(&floor, stations, seats);
            let Ok(_) = floor.close(seats) else {
                unreachable!()
            };
            let labels = Labels::from_vec(labels);
            Ok(Gathered { labels, tally })
        }
        Err(fault) => Err(Ungathered {
            fault,
            floor,
            stations,
        }),
    }
}
