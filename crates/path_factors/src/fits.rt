//! Whether a graph can be factored over the links of another one.
ghost use Rattle.std.specs.Prelude.{◌≡◌, ℕ, ◌<◌, ◌↔◌, Contains, IfErr, IfOk, IsSome, OnOk, IsTrue};
ghost use Rattle.std.specs.List.Sorted.{IsStrictlyIncreasing};
ghost use Rattle.road_graph.specs.GraphData.{HasVertex, HasArc, arc_of};
ghost use Rattle.path_factors.specs.Factors.{place_of};
ghost use Rattle.path_factors.specs.Heads.{IsHead, IsJoined};
ghost use Rattle.path_factors.specs.Reweighing.{Fits, HasEdges, IsReason, JoinsNoOthers};
ghost use Rattle.halting.specs.declared.unfinished.Unfinished.TheVariants.{Halted};

use crate::factors::Factors;
use crate::reweigh::Unfit;
use halting::{Stop, Unfinished, look_at};
use path_algebra::ComposingAlgebra;
use road_graph::{OutGraph, Vertex};

/// Whether a place is among ascending ones.
fn is_listed(heads: &[u32], place: u32) -> bool
    requires { IsStrictlyIncreasing heads.now }
    ensures { IsTrue result ↔ Contains heads.now place }
{
    heads.binary_search(&place).is_ok()
}

impl<A: ComposingAlgebra> Factors<A> {
    /// Whether two places are the same or joined by an edge.
    fn is_joined(&self, x: usize, y: usize) -> bool
        requires first { x < self.now.roads.vertices }
        requires second { y < self.now.roads.vertices }
        ensures { IsTrue result ↔ IsJoined (IsHead self.now.heads) x y }
    {
        self.holds();
        if x < y {
            is_listed(self.heads(x), y as u32)
        } else if y < x {
            is_listed(self.heads(y), x as u32)
        } else {
            true
        }
    }

    /// Whether each arc of a graph that leaves a vertex has an edge.
    fn has_edges_from(&self, graph: &OutGraph, tail: Vertex) -> bool
        requires count { graph.now.vertices ≡ self.now.roads.vertices }
        requires tail { HasVertex graph.now tail }
        ensures { IsTrue result ↔ ((a : ℕ) → HasArc graph.now a → (arc_of graph.now a).tail ≡ tail →
            IsJoined (IsHead self.now.heads)
            (place_of self.now.factor (arc_of graph.now a).tail)
            (place_of self.now.factor (arc_of graph.now a).head)) }
    {
        self.holds();
        graph.holds();
        let from = self.place(tail);
        for road in graph.roads_from(tail) {
            let to = self.place(road.head);
            if !self.is_joined(from, to) {
                return false;
            }
        }
        true
    }

    /// Whether each arc of a graph has an edge.
    fn has_edges(&self, graph: &OutGraph, stop: &Option<Stop>) -> Result<bool, Unfinished>
        requires { graph.now.vertices ≡ self.now.roads.vertices }
        ensures edges { IfOk result (λ has. IsTrue has ↔
            HasEdges graph.now self.now.factor.places self.now.heads) }
        ensures halts { IfErr result (λ e. e ≡ Halted → IsSome stop.now) }
    {
        graph.holds();
        for i in 0..graph.vertices() {
            look_at(stop)?;
            if !self.has_edges_from(graph, Vertex(i + 1)) {
                return Ok(false);
            }
        }
        Ok(true)
    }

    /// Whether a graph has as many vertices, and a link for each arc; if not, why.
    pub(crate) fn fits(
        &self,
        graph: &OutGraph,
        stop: &Option<Stop>,
    ) -> Result<Result<(), Unfit>, Unfinished>
        ensures fits { IfOk result (λ fit. OnOk fit (Fits graph.now self.now)) }
        ensures unfit { IfOk result (λ fit. IfErr fit (λ why. IsReason why graph.now self.now)) }
        ensures others { IfOk result (λ fit. IfErr fit (λ _. JoinsNoOthers graph.now self.now.roads →
            ⊥)) }
        ensures halts { IfErr result (λ e. e ≡ Halted → IsSome stop.now) }
    {
        self.holds();
        if graph.vertices() as usize != self.places.len() {
            return Ok(Err(Unfit::Vertices));
        }
        let has_edges = self.has_edges(graph, stop)?;
        if !has_edges {
            return Ok(Err(Unfit::Arc));
        }
        Ok(Ok(()))
    }
}
