//! What one part knows at a floor, and which claims it has open there.
ghost use Rattle.std.specs.Prelude.{◌≡◌};

use crate::table::Pass;
use circular_buffer::HeapCircularBuffer;
use path_algebra::PathAlgebra;
use shard_part::Shard;
use std::marker::Model;

/// The place of one part at a floor: what it knows of the others, its open claims, and which slot
/// comes next for each other shard. It may move between threads.
#[derive(Drop)]
pub struct Seat<A: PathAlgebra> {
    pub(crate) pass: Pass<A>,
    pub(crate) own: Shard,
    pub(crate) claims: HeapCircularBuffer<usize>,
    pub(crate) next_fill: Vec<u8>,
    pub(crate) next_read: Vec<u8>,
}

impl<A: PathAlgebra> Model for Seat<A> {
    ghost use Rattle.post_floor.specs.Data.{SeatData, IsSeat};

    ghost Value = { SeatData A A.Value };

    ghost view = { λ s. record { floor = s.pass.table_id; shard = s.own; knows = s.pass.me.0 } };

    ghost invariant = { λ s. IsSeat (record { floor = s.pass.table_id; shard = s.own; knows = s.pass.me.0 }) s.pass.me.1 s.claims.items s.claims.capacity s.next_fill.items s.next_read.items };
}

impl<A: PathAlgebra> Seat<A> {
    /// The shard of its part.
    pub fn shard(&self) -> Shard
        ensures { result ≡ self.now.shard }
    {
        self.own
    }
}
