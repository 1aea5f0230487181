//! An order that is found, and what it makes.
ghost use Rattle.std.specs.Prelude.{◌≡◌, IfErr, IfOk, IsSome};
ghost use Rattle.halting.specs.declared.unfinished.Unfinished.TheVariants.{Halted};
ghost use Rattle.elimination_order.specs.Found.{IsOrderedOn};

use crate::care::Care;
use crate::counts::{Counts, is_too_dense};
use crate::elimination::Elimination;
use crate::order::Order;
use crate::postorder::in_postorder;
use halting::{Stop, Unfinished};
use road_graph::OutGraph;
use std::alloc::Global;
use std::snapshot::Snapshot;

/// An order that was found. Only this crate can make one.
#[derive(Drop)]
pub struct FoundOrder {
    order: Order,
    /// The graph that it was found on, which contracts alone see.
    graph: Snapshot<OutGraph>,
    /// The care, if the graph was dissected.
    care: Option<Care>,
}

impl FoundOrder {
    /// The order alone.
    pub fn into_order(self) -> Order
        ensures { result ≡ self.order }
    {
        self.order
    }
}

/// An order of elimination, and what it makes.
#[derive(Drop)]
pub struct Ordered {
    /// The vertices in the order in which they are eliminated; none if the graph is too dense to
    /// factor.
    pub order: Option<FoundOrder>,
    /// What the elimination makes, if each dense row is a neighbour of every vertex; what it had
    /// made when it was given up, if there is no order.
    pub counts: Counts,
}

/// The order of an elimination of a graph; none if the graph is too dense by its counts.
pub(crate) fn order_of(
    alloc: Global,
    graph: &OutGraph,
    care: Option<Care>,
    elimination: &Elimination,
    stop: &Option<Stop>,
) -> Result<Ordered, Unfinished>
    ensures order { IfOk result (IsOrderedOn graph.now care) }
    ensures halts { IfErr result (λ e. e ≡ Halted → IsSome stop.now) }
{
    graph.holds();
    let counts = elimination.counts;
    if is_too_dense(graph.vertices(), graph.arcs() as u32, counts) {
        return Ok(Ordered {
            order: None,
            counts,
        });
    }
    let order = in_postorder(alloc, graph.vertices(), elimination, stop)?;
    let graph = Snapshot::of(graph);
    Ok(Ordered {
        order: Some(FoundOrder { order, graph, care }),
        counts,
    })
}
