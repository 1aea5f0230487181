//! Two parts that send each other batches through a floor.
ghost use Rattle.std.specs.Prelude.{◌≡◌, ◌≢◌, ◌<◌, IsTrue, map};
ghost use Rattle.shard_part.specs.Weights.{All};
ghost use Rattle.post_floor.specs.Data.{IsAt, seat_of};

mod turns;

use crate::graphs::Ground;
use crate::parts::parts_of;
use path_algebra::PathAlgebra;
use post_floor::{Floor, Seat};
use road_graph::Vertex;
use shard_part::{Part, QueueOrder, Shard};
use std::process::Abort;

/// A seat at a floor, and the part that it is for.
type Place<'g, A> = (Seat<A>, Part<'g, A>);

/// The last of some seats, with the last of their parts.
fn last_place<'g, A: PathAlgebra>(
    rt: &impl Abort,
    floor: &Floor<A>,
    seats: &mut Vec<Seat<A>>,
    parts: &mut Vec<Part<'g, A>>,
) -> Place<'g, A>
    requires seats { seats.old.items ≡ map (seat_of floor.now.id floor.now.setup.plan.shards)
        parts.old.items }
    requires at { All (λ p. IsAt A.meaning floor.now
        (seat_of floor.now.id floor.now.setup.plan.shards p) p) parts.old.items }
    ensures seats { seats.new.items ≡ map (seat_of floor.now.id floor.now.setup.plan.shards)
        parts.new.items }
    ensures at { All (λ p. IsAt A.meaning floor.now
        (seat_of floor.now.id floor.now.setup.plan.shards p) p) parts.new.items }
    ensures place { IsAt A.meaning floor.now result.0 result.1 }
{
    let seat = seats.pop().expect(rt, "a seat");
    let part = parts.pop().expect(rt, "a part");
    (seat, part)
}

/// A floor of two shards, and the place of each.
fn opened<'g, A: PathAlgebra>(
    rt: &(impl Abort + AllocGlobal),
    algebra: A,
    ground: &'g Ground,
) -> (Floor<A>, Place<'g, A>, Place<'g, A>)
    ensures first { IsAt A.meaning result.0 result.1.0 result.1.1 }
    ensures second { IsAt A.meaning result.0 result.2.0 result.2.1 }
{
    let mut parts = parts_of(rt, algebra, ground, QueueOrder::Arrival);
    let opened = Floor::open(rt.alloc(), ground.counted.plan(), Vertex(1), &parts);
    let (floor, mut seats) = opened.expect(rt, "memory");
    let second = last_place(rt, &floor, &mut seats, &mut parts);
    let first = last_place(rt, &floor, &mut seats, &mut parts);
    (floor, first, second)
}

/// Handles what waits.
fn work<A: PathAlgebra>(floor: &Floor<A>, seat: &Seat<A>, part: &mut Part<'_, A>) -> u32
    requires { IsAt A.meaning floor.now seat.now part.old }
    ensures { IsAt A.meaning floor.now seat.now part.new }
{
    part.handle(4096)
}

/// Whether a shard is another one than a place's own.
fn is_other<A: PathAlgebra>(seat: &Seat<A>, part: &Part<'_, A>, shard: Shard) -> bool
    ensures { IsTrue result → (shard ≢ seat.now.shard) × (shard ≢ part.now.shard) ×
        (shard < part.now.setup.plan.shards) }
{
    shard != seat.shard() && part.is_other(shard)
}

/// Fills the next mailbox to a shard and publishes it, if it is another shard's and free.
fn send<A: PathAlgebra>(
    floor: &Floor<A>,
    seat: &mut Seat<A>,
    part: &mut Part<'_, A>,
    to: Shard,
) -> bool
    requires { IsAt A.meaning floor.now seat.old part.old }
    ensures { IsAt A.meaning floor.now seat.new part.new }
{
    if !is_other(seat, part, to) {
        return false;
    }
    if !floor.try_fill(seat, part, to) {
        return false;
    }
    floor.publish(seat, part, to);
    true
}

/// Reads the next mailbox from a shard and gives it back, if it is another shard's and full.
fn fetch<A: PathAlgebra>(
    floor: &Floor<A>,
    seat: &mut Seat<A>,
    part: &mut Part<'_, A>,
    from: Shard,
) -> bool
    requires { IsAt A.meaning floor.now seat.old part.old }
    ensures { IsAt A.meaning floor.now seat.new part.new }
{
    if !is_other(seat, part, from) {
        return false;
    }
    if !floor.try_read(seat, part, from) {
        return false;
    }
    floor.clear(seat, part, from);
    true
}

/// Announces to the others that the diffusion has ended, if the part knows it.
fn announce<A: PathAlgebra>(floor: &Floor<A>, seat: &mut Seat<A>, part: &Part<'_, A>) -> bool
    requires { IsAt A.meaning floor.now seat.old part.now }
    ensures { IsAt A.meaning floor.now seat.new part.now }
{
    if !part.ended() {
        return false;
    }
    floor.announce(seat, part);
    true
}

/// Claims the next mailbox to a shard and the next one from it, and ends the claims in the order in
/// which they were made. If nothing is to be read, the first claim stays open.
fn swap<A: PathAlgebra>(
    floor: &Floor<A>,
    seat: &mut Seat<A>,
    part: &mut Part<'_, A>,
    other: Shard,
) -> bool
    requires { IsAt A.meaning floor.now seat.old part.old }
    ensures { IsAt A.meaning floor.now seat.new part.new }
{
    if !is_other(seat, part, other) {
        return false;
    }
    if !floor.try_fill(seat, part, other) {
        return false;
    }
    if !floor.try_read(seat, part, other) {
        return false;
    }
    floor.publish(seat, part, other);
    floor.clear(seat, part, other);
    true
}
