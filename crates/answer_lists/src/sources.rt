//! Sources as a caller lends them.
ghost use Rattle.std.specs.Prelude.{◌≡◌, ◌↔◌, IfOk, IsTrue};
ghost use Rattle.std.specs.List.{All};
ghost use Rattle.road_graph.specs.GraphData.{HasVertex};

use road_graph::{OutGraph, Vertex};
use std::alloc::{AllocError, Global};

/// Whether each number is a vertex.
pub(crate) fn are_vertices(graph: &OutGraph, numbers: &[u32]) -> bool
    ensures { IsTrue result ↔ All (HasVertex graph.now) numbers.now }
{
    for number in numbers {
        if !graph.has(Vertex(*number)) {
            return false;
        }
    }
    true
}

/// The vertices of these numbers.
pub(crate) fn vertices_of(alloc: Global, numbers: &[u32]) -> Result<Vec<Vertex>, AllocError>
    ensures { IfOk result (λ list. list.items ≡ numbers.now) }
{
    let mut list = Vec::with_capacity(alloc, numbers.len())?;
    for number in numbers {
        list.push(Vertex(*number))?;
    }
    Ok(list)
}
