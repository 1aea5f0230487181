//! What may be read of a station.
ghost use Rattle.std.specs.Prelude.{◌≡◌, IsTrue, IfSome, ◌∷◌, [], ◌↔◌};
ghost use Rattle.path_algebra.specs.Walks.{IsWalkValue};
ghost use Rattle.shard_part.specs.PartState.{state_in};
ghost use Rattle.shard_part.specs.Readings.{IsOwn};
ghost use Rattle.station.specs.Station.{IsOver};

use crate::station::Station;
use path_algebra::PathAlgebra;
use road_graph::Vertex;
use shard_part::Shard;
use shard_part::laws::part_holds;

impl<'g, A: PathAlgebra> Station<'g, A> {
    /// Whether its last turn reported the end.
    pub fn ended(&self) -> bool
        ensures ended { result ≡ self.now.ended }
        ensures over { IsTrue result → IsOver A.meaning self.now }
    {
        self.ended
    }

    /// Which shard it is.
    pub fn shard(&self) -> Shard
        ensures { result ≡ self.now.part.shard }
    {
        self.part.shard()
    }

    /// Whether v is a vertex of its shard.
    pub fn holds(&self, v: Vertex) -> bool
        ensures { IsTrue result ↔ IsOwn self.now.part v }
    {
        self.part.holds(v)
    }

    /// The label of a vertex of its shard, at any moment: the value of some walk to it, or none.
    pub fn peek(&self, v: Vertex) -> Option<A::Value>
        requires { IsOwn self.now.part v }
        ensures label { result ≡ (state_in self.now.part).label v }
        ensures walk { IfSome result
            (λ x. IsWalkValue (A.meaning self.now.part.setup.diffusion.algebra)
            self.now.part.setup.diffusion.roads (self.now.part.setup.diffusion.source ∷ []) v x) }
    {
        part_holds(&self.part);
        self.part.label(v)
    }
}
