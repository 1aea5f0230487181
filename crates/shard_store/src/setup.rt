//! What all parts of a diffusion share.
ghost use Rattle.std.specs.Prelude.{◌≡◌};
ghost use Rattle.shard_store.specs.Setup.{setup_of};

use crate::plan::Plan;
use crate::queue_order::QueueOrder;
use road_graph::{Graph, Vertex};
use std::marker::Model;
use std::snapshot::Snapshot;

/// A diffusion and its plan, for contracts. It has the graph and the plan as snapshots alone, so it
/// may outlive both.
#[derive(Drop)]
pub struct Setup<A> {
    algebra: A,
    graph: Snapshot<Graph>,
    plan: Snapshot<Plan>,
    source: Vertex,
    order: QueueOrder,
}

impl<A> Model for Setup<A> {
    ghost use Rattle.shard_store.specs.Setup.{SetupData, setup_of};

    ghost Value = { SetupData A };

    ghost view = { λ q. setup_of q.algebra q.graph.value q.source q.plan.value q.order };
}

impl<A> Setup<A> {
    /// The diffusion of an algebra over a graph from a source, and its plan.
    pub fn new(
        algebra: A,
        graph: &Graph,
        plan: &Plan,
        source: Vertex,
        order: QueueOrder,
    ) -> Setup<A>
        ensures { result ≡ setup_of algebra graph.now source plan.now order }
    {
        Setup {
            algebra,
            graph: Snapshot::of(graph),
            plan: Snapshot::of(plan),
            source,
            order,
        }
    }
}
