//! The arcs of a graph, as contracts see them.

use crate::RoadArc;
use std::marker::Model;
use std::snapshot::Snapshot;

/// The arcs of a graph, in the order of their numbers. Only contracts see them.
#[cycle(arcs)]
#[derive(Drop)]
pub(crate) struct Arcs {
    pub(crate) source: ArcSource,
}

/// What the arcs of a graph are made of.
#[cycle(arcs)]
#[derive(Drop)]
pub(crate) enum ArcSource {
    /// A list of them.
    Given(Snapshot<Vec<RoadArc>>),
    /// Other arcs and changes of their weights.
    Changed(Snapshot<Snapshot<Arcs>>, Snapshot<Vec<RoadArc>>),
}

impl Model for Arcs {
    ghost use Rattle.std.proofs.Common.{arith};
    ghost use Rattle.road_graph.specs.Changing.{ArcHistory};

    ghost Value = { ArcHistory };

    ghost use Rattle.road_graph.specs.ArcSources.{arcs_in};

    ghost view = { λ a. arcs_in a.source };

    ghost size = { λ a. a.changes };

    ghost size_decreases = { λ a h. Prim.grind arith };
}
