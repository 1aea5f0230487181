//! What a floor is closed with: all its seats.
ghost use Rattle.std.specs.Prelude.{◌≡◌, ◌<◌, ◌≤◌, ◌↔◌, [], ◌∷◌, IsTrue};
ghost use Rattle.std.specs.Mem.Slots.{IsFull, slots_items};
ghost use Rattle.shard_part.specs.PartState.{PartData};
ghost use Rattle.shard_store.specs.Totals.{total, is};
ghost use Rattle.shard_part.specs.Weights.{All};
ghost use Rattle.post_floor.specs.Closing.{AllSeated, AreJoined};

use crate::plays::{Aside, Cut};
use crate::seat::Seat;
use crate::table::{Mailboxes, Pass};
use path_algebra::PathAlgebra;
use shard_part::{Batch, Shard};
use std::alloc::Global;
use std::marker::Model;
use std::snapshot::Snapshot;

/// The table of a floor that is closed.
pub(crate) type End<V> = atomic_table::Closed<Option<Batch<V>>, Global>;

/// A floor that was closed. Nothing is left of it but what `close` promises.
#[derive(Drop)]
pub struct Closed<A: PathAlgebra> {
    /// The words and the batches as they were at the end, for contracts.
    end: Snapshot<End<A::Value>>,
}

impl<A: PathAlgebra> Model for Closed<A> {
    ghost use Rattle.std.specs.Mem.Slots.{slots_items};
    ghost use Rattle.post_floor.specs.Closing.{ClosedData};

    ghost Value = { ClosedData A.Value };

    ghost view = { λ c. record { words = slots_items c.end.value.words; slots = slots_items c.end.value.slots } };
}

impl<A: PathAlgebra> Closed<A> {
    /// What a closed table holds.
    pub(crate) fn of(table: &End<A::Value>) -> Closed<A>
        ensures { result ≡ record
            { words = slots_items table.now.words; slots = slots_items table.now.slots } }
    {
        Closed {
            end: Snapshot::of(table),
        }
    }
}

/// Whether a shard's seat is among them.
fn is_seated<A: PathAlgebra>(seats: &[Seat<A>], shard: Shard) -> bool
    ensures { IsTrue result ↔ (0 < total (λ d. is shard d.shard) seats.now) }
{
    for index in 0..seats.len() {
        if seats[index].shard() == shard {
            return true;
        }
    }
    false
}

/// Whether the seats of all shards are among them.
pub(crate) fn all_seated<A: PathAlgebra>(seats: &[Seat<A>], shards: usize) -> bool
    requires { shards ≤ 64 }
    ensures { IsTrue result ↔ AllSeated shards seats.now }
{
    for shard in 0..shards {
        if !is_seated(seats, Shard(shard as u8)) {
            return false;
        }
    }
    true
}

/// What the caller of a seat knows, without the seat's own lists.
pub(crate) fn pass_of<A: PathAlgebra>(seat: Seat<A>) -> Pass<A>
    ensures pass { (result.table_id ≡ seat.floor) × (result.me.0 ≡ seat.knows) }
    ensures part { (p : PartData A A.Value) × (seat.knows.parts ≡ p ∷ []) × (p.shard ≡ seat.shard) }
{
    let Seat {
        pass,
        own: _,
        claims: _,
        next_fill: _,
        next_read: _,
    } = seat;
    pass
}

/// Joins all seats into one pass.
pub(crate) fn join_all<A: PathAlgebra>(
    table: &Mailboxes<A>,
    mut all: Pass<A>,
    mut seats: Vec<Seat<A>>,
) -> Pass<A>
    requires pass { (all.table_id ≡ table.now.table_id) × (0 < table.now.table_id.words) }
    requires seats { All (λ d. d.floor ≡ table.now.table_id) seats.items }
    ensures pass { result.table_id ≡ table.now.table_id }
    ensures joined { AreJoined result.me.0 all.me.0 seats.items }
{
    while let Some(seat) = seats.pop() {
        let mut own = pass_of(seat);
        // A pass that has a slot out cannot be joined, so what it knows goes to a new one.
        let free = table.split_seat::<Aside>(&mut own);
        table.join_seat::<Cut>(&mut all, free);
    }
    all
}

/// Takes the batches out of a table that is closed, and frees it.
pub(crate) fn free<V: Drop>(mut closed: End<V>)
    requires { IsFull closed.slots }
{
    for index in 0..closed.slot_count() {
        drop(closed.take(index));
    }
    closed.free();
}
