//! The index of a graph: the tail of each arc, and its index among the arcs that leave that tail.

ghost use Rattle.std.specs.Prelude.{◌≡◌, map, IfOk};
ghost use Rattle.road_graph.specs.Making.{AreNumbers, IsIndex, end_of};
ghost use Rattle.road_graph.specs.declared.Side.TheVariants.{Tail};

use crate::out_graph::OutGraph;
use crate::{ArcNo, Vertex};
use std::alloc::{AllocError, Global};

/// What the index holds of an arc: its tail, and its index among the arcs that leave that tail.
#[derive(Debug, Clone, Copy)]
pub(crate) struct IndexEntry {
    pub(crate) tail: Vertex,
    pub(crate) rank: u32,
}

/// The entries of all arcs, in the order of their numbers.
pub(crate) fn entries_of(
    alloc: Global,
    graph: &OutGraph,
    numbers: &[ArcNo],
    tails: &[Vertex],
) -> Result<Vec<IndexEntry>, AllocError>
    requires numbers { AreNumbers Tail graph.now numbers.now }
    requires tails { tails.now ≡ map (end_of Tail) graph.now.arcs }
    ensures { IfOk result (λ entries. IsIndex graph.now entries.items) }
{
    let blank = IndexEntry {
        tail: Vertex(0),
        rank: 0,
    };
    graph.holds();
    let starts = graph.starts();
    let mut entries = vec![in alloc; blank; tails.len()]?;
    for (place, number) in numbers.iter().enumerate() {
        let at = number.0 as usize - 1;
        let tail = tails[at];
        entries[at] = IndexEntry {
            tail,
            rank: place as u32 - starts[tail.0 as usize - 1],
        };
    }
    Ok(entries)
}
