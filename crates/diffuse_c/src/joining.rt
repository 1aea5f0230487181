//! Whether lent arcs join the vertices of a graph.
ghost use Rattle.std.specs.Prelude.{◌<◌, ◌≤◌, ◌^◌, ◌↔◌, length, IsTrue};
ghost use Rattle.road_graph.specs.GraphData.{JoinsVertices, IsGraph};
ghost use Rattle.diffuse_c.specs.Lent.{arc_from, lent};

use crate::arcs::DiffuseArc;

fn joins(n: u32, arc: &DiffuseArc) -> bool
    ensures joins { IsTrue result ↔ JoinsVertices n (arc_from arc.now) }
    ensures fits { arc.now.weight < 2 ^ 32 }
{
    // Reading the weight gives the proof that it fits its type.
    let _weight = arc.weight;
    let (tail, head) = (arc.tail, arc.head);
    1 <= tail && tail <= n && 1 <= head && head <= n
}

/// Whether both ends of each arc are among the vertices 1 to n. Nothing is allocated.
pub(crate) fn join_vertices(n: u32, arcs: &[DiffuseArc]) -> bool
    requires few_vertices { n ≤ 33554432 }
    requires few_arcs { length arcs.now ≤ 134217728 }
    ensures { IsTrue result ↔ IsGraph (lent n arcs.now) }
{
    for arc in arcs {
        if !joins(n, arc) {
            return false;
        }
    }
    true
}
