//! What a vertex sends after a message or a signal. Arcs that cannot be due are not looked at.
ghost use Rattle.std.specs.Prelude.{◌≡◌, ◌≢◌, ℕ, ◌≤◌, ◌<◌, length, true, false};
ghost use Rattle.path_algebra.specs.Algebra.{IsLawful};
ghost use Rattle.road_graph.specs.GraphData.{HasVertex};
ghost use Rattle.scholten_core.specs.Diffusion.{arrive, freed, pump, is_idle};
ghost use Rattle.scholten_core.specs.IdleIsTold.{IdleIsTold};
ghost use Rattle.scholten_core.specs.CoreView.{state_of, network_of};

use crate::core_tables::CoreTables;
use path_algebra::{PathAlgebra, laws_hold};
use road_graph::{ArcNo, Vertex};

impl<'g, A: PathAlgebra> CoreTables<'g, A> {
    /// Offers the label to each due arc out of a vertex, in ascending order.
    fn pump(&mut self, v: Vertex)
        requires vertex { HasVertex self.old.diffusion.roads v }
        ensures same { self.new.diffusion ≡ self.old.diffusion }
        ensures state { state_of self.new ≡ pump (A.meaning self.old.diffusion.algebra)
            (network_of self.old) v (state_of self.old) }
    {
        let graph = self.graph;
        let outgoing = graph.out(v);
        for b in outgoing {
            self.offer(v, *b);
        }
    }

    /// Takes a message, and the head pumps. Arcs out can be due only if the label improved.
    pub fn take_message(&mut self, a: ArcNo, v: Vertex, value: A::Value)
        requires vertex { HasVertex self.old.diffusion.roads v }
        requires head { v ≡ (network_of self.old).head a }
        requires busy { is_idle ((state_of self.old).token a) ≡ false }
        requires told { IdleIsTold (network_of self.old) (state_of self.old) }
        ensures same { self.new.diffusion ≡ self.old.diffusion }
        ensures state { state_of self.new ≡ pump (A.meaning self.old.diffusion.algebra)
            (network_of self.old) v (arrive (A.meaning self.old.diffusion.algebra)
            (network_of self.old) a value (state_of self.old)) }
    {
        laws_hold(self.algebra);
        if self.arrive(a, v, value) {
            self.pump(v);
        }
    }

    /// Takes a signal, and the tail pumps. Only the signal's own arc can be due.
    pub fn take_signal(&mut self, a: ArcNo, v: Vertex)
        requires low { 1 ≤ a }
        requires vertex { HasVertex self.old.diffusion.roads v }
        requires tail { v ≡ (network_of self.old).tail a }
        requires busy { is_idle ((state_of self.old).token a) ≡ false }
        requires told { IdleIsTold (network_of self.old) (state_of self.old) }
        ensures same { self.new.diffusion ≡ self.old.diffusion }
        ensures state { state_of self.new ≡ pump (A.meaning self.old.diffusion.algebra)
            (network_of self.old) v (freed (A.meaning self.old.diffusion.algebra)
            (network_of self.old) a (state_of self.old)) }
    {
        laws_hold(self.algebra);
        self.free(a, v);
        self.offer(v, a);
    }
}
