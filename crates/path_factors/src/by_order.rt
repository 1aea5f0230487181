//! A graph is factored by an order of its vertices.
ghost use Rattle.std.specs.Prelude.{◌≡◌, IfErr, IfOk, IsSome, length};
ghost use Rattle.halting.specs.declared.unfinished.Unfinished.TheVariants.{Halted};

use crate::factors::Factors;
use crate::outline::outline;
use crate::packed::PackedRows;
use crate::prune::Making;
use crate::weighing::Weighing;
use elimination_order::Order;
use halting::Unfinished;
use path_algebra::ComposingAlgebra;
use road_graph::OutGraph;
use std::alloc::{AllocError, Global};
use std::snapshot::Snapshot;
use std::sync::Arc;

impl<A: ComposingAlgebra> Factors<A> {
    /// The factor of a graph by an order of its vertices, with all of its links or those needed.
    ///
    /// Any order gives right answers, a good one few links. First it is found where links are, and
    /// then walks are put at them. The stop is looked at for each row of links.
    pub fn by_order(
        alloc: Global,
        algebra: A,
        graph: &OutGraph,
        order: &Order,
        making: Making<'_>,
    ) -> Result<Factors<A>, Unfinished>
        requires { length order.now.vertices.items ≡ graph.now.vertices }
        ensures algebra { IfOk result (λ f. f.algebra ≡ algebra) }
        ensures roads { IfOk result (λ f. f.roads ≡ graph.now) }
        ensures order { IfOk result (λ f. f.factor.order ≡ order.now.vertices.items) }
        ensures halts { IfErr result (λ e. e ≡ Halted → IsSome making.entry.stop.now) }
    {
        graph.holds();
        let places = order.places.to_vec(alloc)?;
        let heads = outline(alloc, graph, &places, making.stop)?;
        let rows = PackedRows::blank(alloc, heads, algebra.no_walk())?;
        let order = Arc::new(alloc, Snapshot::of(order)).map_err(AllocError::from)?;
        let mut weighing = Weighing::open_blank(algebra, graph, order, places, rows);
        weighing.weigh_all(alloc, making.stop)?;
        weighing.prune(alloc, making)
    }
}
