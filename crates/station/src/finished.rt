//! What is left of a station that has ended: the labels and the counts.
ghost use Rattle.std.specs.Prelude.{◌≡◌, IsTrue, ◌↔◌};
ghost use Rattle.shard_store.specs.Plans.{HasPlanned, shard_in};
ghost use Rattle.station.specs.Station.{IsBestFor};

use path_algebra::PathAlgebra;
use post_floor::Seat;
use road_graph::Vertex;
use shard_part::laws::closed_part_holds;
use shard_part::{ClosedPart, Plan, Shard};
use std::marker::Model;

/// A station whose last turn reported the end. It keeps the labels and the counts of its part; the
/// tables of arcs, the queue and the outboxes were freed.
#[derive(Drop)]
pub struct Finished<'g, A: PathAlgebra> {
    pub(crate) part: ClosedPart<'g, A>,
    pub(crate) seat: Seat<A>,
    pub(crate) plan: &'g Plan,
}

impl<'g, A: PathAlgebra> Model for Finished<'g, A> {
    ghost use Rattle.std.specs.Prelude.{◌≡◌, true};
    ghost use Rattle.station.specs.Station.{StationData, IsStation};

    ghost Value = { StationData A A.Value };

    ghost view = { λ s. record { part = s.part; seat = s.seat; ended = true } };

    ghost invariant = { λ s. IsStation A.meaning (record { part = s.part; seat = s.seat; ended = true }) × (s.plan.now ≡ s.part.setup.plan) };
}

impl<'g, A: PathAlgebra> Finished<'g, A> {
    /// Whether it is of a shard.
    pub(crate) fn is_of(&self, shard: Shard) -> bool
        ensures { IsTrue result ↔ (self.now.part.shard ≡ shard) }
    {
        self.part.shard() == shard
    }

    /// The plan of its diffusion.
    pub(crate) fn plan(&self) -> &'g Plan
        ensures { result.now ≡ self.now.part.setup.plan }
    {
        self.plan
    }

    /// The best value of a vertex of its shard.
    pub(crate) fn label(&self, v: Vertex) -> Option<A::Value>
        requires vertex { HasPlanned self.now.part.setup.plan v }
        requires own { shard_in self.now.part.setup.plan v ≡ self.now.part.shard }
        ensures { IsBestFor A.meaning self.now.part.setup v result }
    {
        closed_part_holds(&self.part);
        self.part.label(v)
    }
}
