//! Arcs as a caller in C lends them.
ghost use Rattle.std.specs.Prelude.{◌≡◌, map, IfOk};
ghost use Rattle.diffuse_c.specs.Lent.{arc_from};

use road_graph::{Memory, RoadArc, Vertex};
use std::alloc::Global;

/// An arc.
#[repr(C)]
#[derive(Clone, Copy)]
pub struct DiffuseArc {
    pub tail: u32,
    pub head: u32,
    pub weight: u32,
}

fn road(arc: &DiffuseArc) -> RoadArc
    ensures { result ≡ arc_from arc.now }
{
    RoadArc {
        tail: Vertex(arc.tail),
        head: Vertex(arc.head),
        weight: arc.weight,
    }
}

/// The arcs of the graph, from lent arcs.
pub(crate) fn roads_of(alloc: Global, arcs: &[DiffuseArc]) -> Result<Vec<RoadArc>, Memory>
    ensures { IfOk result (λ list. list.items ≡ map arc_from arcs.now) }
{
    Ok(arcs.iter().map(road).collect(alloc)?)
}
