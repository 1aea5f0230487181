//! The order by approximate minimum degree.
ghost use Rattle.std.specs.Prelude.{◌≡◌, IfErr, IfOk, IsSome, None};
ghost use Rattle.halting.specs.declared.unfinished.Unfinished.TheVariants.{Halted};
ghost use Rattle.elimination_order.specs.Found.{IsOrderedOn};

use crate::degree_lists::Turn;
use crate::elimination::Elimination;
use crate::lists::NONE;
use crate::ordered::{Ordered, order_of};
use halting::{Stop, Unfinished};
use road_graph::{Memory, OutGraph};
use std::alloc::Global;

/// The elimination by approximate minimum degree.
pub(crate) fn by_degree(
    alloc: Global,
    graph: &OutGraph,
    stop: &Option<Stop>,
) -> Result<Elimination, Unfinished>
    ensures halts { IfErr result (λ e. e ≡ Halted → IsSome stop.now) }
{
    let mut elimination = Elimination::open(alloc, graph, Turn::Newest, stop)?;
    elimination.run(NONE, stop)?;
    Ok(elimination)
}

/// The order by it.
fn ordered(alloc: Global, graph: &OutGraph, stop: &Option<Stop>) -> Result<Ordered, Unfinished>
    ensures order { IfOk result (IsOrderedOn graph.now None) }
    ensures halts { IfErr result (λ e. e ≡ Halted → IsSome stop.now) }
{
    let elimination = by_degree(alloc, graph, stop)?;
    order_of(alloc, graph, None, &elimination, stop)
}

/// An order of the vertices of a graph by approximate minimum degree; none if the graph is too
/// dense to factor.
///
/// It takes a few searches' time, and about as much memory as the graph with all its links.
///
/// # Errors
/// Out of memory.
pub fn approximate_minimum_degree(alloc: Global, graph: &OutGraph) -> Result<Ordered, Memory>
    ensures { IfOk result (IsOrderedOn graph.now None) }
{
    match ordered(alloc, graph, &None) {
        Ok(ordered) => Ok(ordered),
        Err(Unfinished::Memory) => Err(Memory),
        Err(Unfinished::Halted) => unreachable!(),
    }
}
