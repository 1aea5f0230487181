//! What a floor is opened with: empty mailboxes, and a seat for each part.
ghost use Rattle.std.specs.Prelude.{◌≡◌, ◌<◌, ◌≤◌, [], map, IfOk};
ghost use Rattle.shard_part.specs.PartState.{PartData};
ghost use Rattle.post_floor.specs.Boxes.{box_count};
ghost use Rattle.post_floor.specs.Floor.{mailbox_capacity};
ghost use Rattle.post_floor.specs.Seats.{knows, lone};
ghost use Rattle.post_floor.specs.Data.{seat_of, first_parts, AreEmptySlots};

use crate::mailbox::{SLOTS, mailbox_count};
use crate::plays::Cut;
use crate::seat::Seat;
use crate::table::{Mailboxes, Pass};
use circular_buffer::HeapCircularBuffer;
use path_algebra::PathAlgebra;
use shard_part::{Batch, Part, Shard};
use std::alloc::{AllocError, Global};

/// How many items a mailbox may hold.
fn room_of<A: PathAlgebra>(
    first: &Part<'_, A>,
    parts: &[Part<'_, A>],
    shards: usize,
    k: usize,
) -> usize
    requires parts { parts.now ≡ first_parts A.meaning first.now.setup shards }
    requires shards { (first.now.setup.plan.shards ≡ shards) × (shards ≤ 64) }
    requires word { k < box_count shards }
    ensures { result ≡ mailbox_capacity first.now.setup k }
{
    let from = k / SLOTS / shards;
    let to = k / SLOTS % shards;
    if from == to {
        0
    } else {
        parts[from].capacity(Shard(to as u8))
    }
}

/// An empty batch for each mailbox.
pub(crate) fn batches<A: PathAlgebra>(
    alloc: Global,
    first: &Part<'_, A>,
    parts: &[Part<'_, A>],
    shards: usize,
) -> Result<Vec<Option<Batch<A::Value>>>, AllocError>
    requires parts { parts.now ≡ first_parts A.meaning first.now.setup shards }
    requires shards { (first.now.setup.plan.shards ≡ shards) × (shards ≤ 64) }
    ensures { IfOk result (λ v. AreEmptySlots first.now.setup shards v.items) }
{
    let mut slots = Vec::new(alloc);
    for k in 0..mailbox_count(shards) {
        let room = room_of(first, parts, shards, k);
        let Ok(batch) = Batch::empty(alloc, room) else {
            return Err(AllocError);
        };
        slots.push(Some(batch))?;
    }
    Ok(slots)
}

/// The seat of one part, with no claim: the first slot of each row comes next.
fn seat_one<A: PathAlgebra>(
    alloc: Global,
    pass: Pass<A>,
    shard: Shard,
    shards: usize,
) -> Result<Seat<A>, AllocError>
    requires shards { (shards ≤ 64) × (shard < shards) }
    requires part { (p : PartData A A.Value) × (pass.me ≡ lone shards p) × (p.shard ≡ shard) ×
        (p.setup.plan.shards ≡ shards) }
    ensures { IfOk result
        (λ s. s ≡ record { floor = pass.table_id; shard = shard; knows = pass.me.0 }) }
{
    let claims = HeapCircularBuffer::with_capacity(alloc, 8 * shards)?;
    let next_fill = Vec::from_elem(alloc, 0u8, shards)?;
    let next_read = Vec::from_elem(alloc, 0u8, shards)?;
    Ok(Seat {
        pass,
        own: shard,
        claims,
        next_fill,
        next_read,
    })
}

/// A seat for each part that the opening's pass knows, in order.
pub(crate) fn seat_all<A: PathAlgebra>(
    alloc: Global,
    table: &Mailboxes<A>,
    mut pass: Pass<A>,
    shards: usize,
) -> Result<Vec<Seat<A>>, AllocError>
    requires table { (pass.table_id ≡ table.now.table_id) × (0 < table.now.table_id.words) }
    requires shards { (table.now.key.plan.shards ≡ shards) × (shards ≤ 64) }
    requires parts { pass.me ≡ (knows shards (first_parts A.meaning table.now.key shards), []) }
    ensures { IfOk result
        (λ v. v.items ≡ map (seat_of table.now.table_id shards)
        (first_parts A.meaning table.now.key shards)) }
{
    let mut seats = Vec::new(alloc);
    for shard in 0..shards {
        let own = table.split_seat::<Cut>(&mut pass);
        let seat = seat_one(alloc, own, Shard(shard as u8), shards)?;
        seats.push(seat)?;
    }
    Ok(seats)
}
