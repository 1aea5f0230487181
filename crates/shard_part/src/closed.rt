//! What is left of a part whose diffusion is over.
ghost use Rattle.std.specs.Prelude.{◌≡◌};
ghost use Rattle.shard_part.specs.PartState.{state_in};
ghost use Rattle.shard_part.specs.Readings.{IsOwn, tally_in};
ghost use Rattle.shard_part.specs.Part.{PartInvariant};

use crate::state::PartState;
use path_algebra::PathAlgebra;
use road_graph::Vertex;
use shard_store::{LocalVertices, Shard, Tables, Tally, VertexTable};
use std::marker::Model;
use std::snapshot::Snapshot;

/// What is left of a part whose diffusion is over: the labels of its vertices, and what it counted.
/// The tables of arcs, the queue and the outboxes are freed.
#[derive(Drop)]
pub struct ClosedPart<'g, A: PathAlgebra> {
    /// The part as it was, for contracts.
    part: Snapshot<PartState<'g, A>>,
    shard: Shard,
    own: LocalVertices,
    vertices: VertexTable<A::Value>,
    tally: Tally,
}

impl<'g, A: PathAlgebra> Model for ClosedPart<'g, A> {
    ghost use Rattle.shard_part.specs.PartState.{PartData};
    ghost use Rattle.shard_part.specs.Closed.{IsClosedPart};

    ghost Value = { PartData A A.Value };

    ghost view = { λ c. c.part.value };

    ghost invariant = { λ c. IsClosedPart c.part.value c.shard c.own c.vertices.labels c.tally };
}

impl<'g, A: PathAlgebra> ClosedPart<'g, A> {
    /// What is left of a part.
    pub(crate) fn of(state: PartState<'g, A>) -> ClosedPart<'g, A>
        ensures { result ≡ state.entry }
    {
        let part = Snapshot::of(&state);
        let tally = state.tally();
        let PartState { shard, tables, .. } = state;
        let Tables { own, vertices, .. } = tables;
        ClosedPart {
            part,
            shard,
            own,
            vertices,
            tally,
        }
    }

    /// Which shard it is.
    pub fn shard(&self) -> Shard
        ensures shard { result ≡ self.now.shard }
        // What holds of every part, for callers that rely on it.
        ensures holds { PartInvariant self.now }
    {
        self.shard
    }

    /// The label of a vertex of this shard.
    pub fn label(&self, v: Vertex) -> Option<A::Value>
        requires { IsOwn self.now v }
        ensures { result ≡ (state_in self.now).label v }
    {
        self.vertices.label(self.own.find(v))
    }

    /// What the part counted, the environment's message and the acceptance of its signal at the
    /// source's part.
    pub fn tally(&self) -> Tally
        ensures { result ≡ tally_in self.now }
    {
        self.tally
    }
}
