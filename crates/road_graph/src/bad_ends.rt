//! Whether arcs join the vertices of a graph.

ghost use Rattle.std.specs.Prelude.{◌≤◌, ◌<◌, ◌↔◌, ◌^◌, length, IsTrue, MatchOption};
ghost use Rattle.road_graph.specs.GraphData.{JoinsVertices, IsGraph};
ghost use Rattle.road_graph.specs.Making.{IsFirstBadArc};

use crate::{ArcNo, RoadArc};

fn joins(arc: RoadArc, n: u32) -> bool
    ensures joins { IsTrue result ↔ JoinsVertices n arc }
    ensures fits { arc.weight < 2 ^ 32 }
{
    // Reading the weight gives the proof that it fits its type.
    let _weight = arc.weight;
    let (tail, head) = (arc.tail.0, arc.head.0);
    1 <= tail && tail <= n && 1 <= head && head <= n
}

/// The first arc with an end outside 1 to n.
pub(crate) fn first_bad(n: u32, arcs: &[RoadArc]) -> Option<ArcNo>
    requires few_vertices { n ≤ 2 ^ 25 }
    requires few_arcs { length arcs.now ≤ 2 ^ 27 }
    ensures { MatchOption result (IsGraph (record { vertices = n; arcs = arcs.now }))
        (IsFirstBadArc n arcs.now) }
{
    for (i, arc) in arcs.iter().enumerate() {
        if !joins(*arc, n) {
            return Some(ArcNo(i as u32 + 1));
        }
    }
    None
}
