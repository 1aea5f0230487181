//! An order of elimination of a graph is found and written.
ghost use Rattle.std.specs.Prelude.{IfNone, IfOk, Some};
ghost use Rattle.road_graph.specs.GraphData.{GraphData};
ghost use Rattle.elimination_order.specs.Found.{IsOrderedOn};
ghost use Rattle.elimination_order.specs.declared.counts.Counts.{Counts};
ghost use Rattle.elimination_order.specs.declared.care.Care.TheVariants.{Careful};
ghost use Rattle.order_files.specs.WrittenOrders.{places_text};
ghost use Rattle.fault_reports.specs.Reports.{Reaches};
ghost use Rattle.program.specs.Ordering.{IsTooDenseFor, RanOrder, WritesPlaces};

use batch_run::{File, RunFault, WRITE, fault_in, fault_of_run};
use elimination_order::{Care, Counts, Order, Ordered, nested_dissection};
use graph_text::read_gr_as;
use halting::Unfinished;
use order_files::write_order;
use road_graph::OutGraph;
use std::alloc::Global;
use text_lines::{MEMORY, ReadFault, RoadRead, RoadWrite};

/// The fault number of a graph that is too dense to factor.
const TOO_DENSE: u8 = 44;

/// Writes the places of an order, and flushes them.
fn write_places<W: RoadWrite>(out: &mut W, order: &Order) -> Result<(), RunFault>
    ensures { Reaches (places_text order.now.places.items) (W.seen out.old) (W.seen out.new)
        result }
{
    match write_order(out, order) {
        Ok(()) => match out.flush() {
            Ok(()) => Ok(()),
            Err(_) => Err(fault_of_run(WRITE)),
        },
        Err(_) => Err(fault_of_run(WRITE)),
    }
}

/// What seeks an order of the vertices of a graph with care, or gives it up.
trait Orders {
    /// That a graph is given up by these counts.
    ghost gives_up: { GraphData → Counts → Type 0 };

    /// Seeks an order; the counts of one that is given up are those by which it is.
    fn order(alloc: Global, graph: &OutGraph) -> Result<Ordered, Unfinished>
        ensures on { IfOk result (IsOrderedOn graph.now (Some Careful)) }
        ensures dense { IfOk result (λ made. IfNone made.order (gives_up graph.now made.counts)) };
}

/// Nested dissection.
struct Dissection;

impl Orders for Dissection {
    ghost gives_up = { IsTooDenseFor };

    fn order(alloc: Global, graph: &OutGraph) -> Result<Ordered, Unfinished> {
        nested_dissection(alloc, graph, Care::Careful, &None)
    }
}

/// Orders the vertices of a graph with care, and writes their places.
fn order_graph<S: Orders, W: RoadWrite>(
    alloc: Global,
    graph: &OutGraph,
    out: &mut W,
) -> Result<(), RunFault>
    ensures { WritesPlaces (S.gives_up graph.now) graph.now (W.seen out.old) (W.seen out.new)
        result }
{
    let Ok(ordered) = S::order(alloc, graph) else {
        return Err(fault_of_run(MEMORY));
    };
    match ordered.order {
        Some(found) => write_places(out, &found.into_order()),
        None => Err(fault_of_run(TOO_DENSE)),
    }
}

/// Reads a graph, orders its vertices by nested dissection, and writes their places.
pub(crate) fn read_and_order<G: RoadRead, W: RoadWrite>(
    alloc: Global,
    graph: &mut G,
    out: &mut W,
) -> Result<(), RunFault>
    ensures { RanOrder (G.seen graph.old) (G.seen graph.new) (W.seen out.old) (W.seen out.new)
        result }
{
    let read: Result<OutGraph, ReadFault> = read_gr_as(alloc, graph);
    match read {
        Ok(graph) => order_graph::<Dissection, W>(alloc, &graph, out),
        Err(fault) => Err(fault_in(File::Graph, fault)),
    }
}
