//! A graph is factored over the links of another one.
ghost use Rattle.std.specs.Prelude.{◌≡◌, All, IfOk, IfErr, IsSome};
ghost use Rattle.road_graph.specs.GraphData.{HasVertex};
ghost use Rattle.path_factors.specs.Reweighing.{DiffersAt, Fits};
ghost use Rattle.factor_routes.specs.Reweighing.{IsCause};
ghost use Rattle.factor_routes.specs.declared.reweighed.Unweighed.TheVariants.{Stopped};

use crate::fitting::fitting_sums;
use crate::road_factors::RoadFactors;
use halting::{Stop, Unfinished};
use path_factors::Unfit;
use road_graph::{InGraph, OutGraph, RoadArc};
use std::alloc::Global;

/// Why a graph is not factored over the links of another one.
#[derive(Clone, Copy, Debug, PartialEq, Eq)]
pub enum Unweighed {
    /// Memory was refused.
    Memory,
    /// The sums of its costs, with hops, could pass 2^63.
    Heavy,
    /// It has another number of vertices, or an arc where there is no link.
    Unfit(Unfit),
    /// The stop was set before.
    Stopped,
}

impl RoadFactors {
    /// The factors of another graph for the sums of the same costs, by the same order and over the
    /// same links: in a fraction of the time of `of`. `by_head` is that graph, with its arcs by
    /// head.
    ///
    /// # Errors
    /// `Heavy` as of `of`; `Unfit` if there is not a link for each arc, as there is where an arc
    /// joined the same vertices; `Stopped` as of `of`.
    pub fn reweighed(
        &self,
        alloc: Global,
        graph: &OutGraph,
        by_head: &InGraph,
        stop: &Option<Stop>,
    ) -> Result<RoadFactors, Unweighed>
        requires { by_head.now ≡ graph.now }
        ensures roads { IfOk result (λ f. f.roads ≡ graph.now) }
        ensures cost { IfOk result (λ f. f.algebra.cost ≡ self.now.algebra.cost) }
        ensures fits { IfOk result (λ f. Fits graph.now self.now) }
        ensures cause { IfErr result (λ why. IsCause why graph.now self.now) }
        ensures stopped { IfErr result (λ e. e ≡ Stopped → IsSome stop.now) }
    {
        let Some(sums) = fitting_sums(self.sums.cost, by_head) else {
            return Err(Unweighed::Heavy);
        };
        match self.factors.reweighed(alloc, sums, graph, stop) {
            Ok(Ok(factors)) => Ok(RoadFactors { sums, factors }),
            Ok(Err(why)) => Err(Unweighed::Unfit(why)),
            Err(Unfinished::Memory) => Err(Unweighed::Memory),
            Err(Unfinished::Halted) => Err(Unweighed::Stopped),
        }
    }

    /// The factors, with all links, of a graph that has the arcs of this one, with other weights at
    /// most where a change has the ends of an arc. If these factors have all links, those above the
    /// changed arcs alone are made anew. `by_head` is that graph, with its arcs by head.
    ///
    /// # Errors
    /// As of `reweighed`.
    pub fn reweighed_at(
        &self,
        alloc: Global,
        graph: &OutGraph,
        by_head: &InGraph,
        changes: &[RoadArc],
        stop: &Option<Stop>,
    ) -> Result<RoadFactors, Unweighed>
        requires same { by_head.now ≡ graph.now }
        requires ends { All (λ c. HasVertex self.now.roads c.tail × HasVertex self.now.roads c.head) changes.now }
        requires differs { DiffersAt changes.now graph.now self.now.roads }
        ensures roads { IfOk result (λ f. f.roads ≡ graph.now) }
        ensures cost { IfOk result (λ f. f.algebra.cost ≡ self.now.algebra.cost) }
        ensures cause { IfErr result (λ why. IsCause why graph.now self.now) }
        ensures stopped { IfErr result (λ e. e ≡ Stopped → IsSome stop.now) }
    {
        let Some(sums) = fitting_sums(self.sums.cost, by_head) else {
            return Err(Unweighed::Heavy);
        };
        if sums.bits != self.sums.bits {
            return self.reweighed(alloc, graph, by_head, stop);
        }
        match self.factors.reweighed_at(alloc, graph, changes, stop) {
            Ok(factors) => Ok(RoadFactors {
                sums: self.sums,
                factors,
            }),
            Err(Unfinished::Memory) => Err(Unweighed::Memory),
            Err(Unfinished::Halted) => Err(Unweighed::Stopped),
        }
    }
}
