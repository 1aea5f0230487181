//! The first reason against the line of a vertex, which is judged by the lines of the vertices with
//! an arc to it.

ghost use Rattle.std.specs.Prelude.{◌≡◌, ◌≤◌, length, All, IsTrue, ◌↔◌};
ghost use Rattle.std.specs.List.{list_any};
ghost use Rattle.road_graph.specs.GraphData.{HasVertex};
ghost use Rattle.path_algebra.specs.Walks.{label_of, is_marked};
ghost use Rattle.answer_check.specs.Reasons.{source_line, IsRefuted, IsFirstReason};
ghost use Rattle.answer_check.specs.Evidence.{candidate, is_there};
ghost use Rattle.answer_check.specs.Marked.{IsMarkedRefused, IsMarkedRight};
ghost use Rattle.answer_check.specs.Certificates.{IsRightLine};

use crate::evidence::{candidate, evidence_of, value_told};
use crate::verdict::Reason;
use crate::vertex_lines::VertexLines;
use answer_text::Reached;
use path_algebra::{PathAlgebra, laws_hold};
use road_graph::{InGraph, OutRoad, Vertex};

/// Whether this is the line of a source.
fn is_source_line<A: PathAlgebra>(algebra: A, line: Option<Reached>) -> bool
    ensures { IsTrue result ↔ (line ≡ source_line (A.meaning algebra)) }
{
    match line {
        Some(line) => {
            line.code == algebra.code(algebra.origin()) && line.hops == 0 && line.parent == 0
        }
        None => false,
    }
}

/// Whether some arc of a list, each given reversed, offers a value.
fn offers_some<A: PathAlgebra, L: VertexLines>(algebra: A, lines: &L, roads: &[OutRoad]) -> bool
    requires ends { All (λ r. (1 ≤ r.head) × (r.head ≤ length (L.list lines.now))) roads.now }
    ensures { result ≡ list_any (λ r. is_there (candidate (A.meaning algebra) (L.list lines.now) r))
        roads.now }
{
    for road in roads {
        if candidate(algebra, lines.line_of(road.head), road.weight).is_some() {
            return true;
        }
    }
    false
}

/// The first reason against the line of a vertex that is no source.
fn reason_of_line<A: PathAlgebra, L: VertexLines>(
    algebra: A,
    by_head: &InGraph,
    lines: &L,
    v: Vertex,
) -> Option<Reason>
    requires count { length (L.list lines.now) ≡ by_head.now.vertices }
    requires in_graph { HasVertex by_head.now v }
    ensures { IsFirstReason (IsRightLine (A.meaning algebra) by_head.now (L.list lines.now) v
        (label_of (L.list lines.now) v)) (IsRefuted (A.meaning algebra) by_head.now
        (L.list lines.now) v (label_of (L.list lines.now) v)) result }
{
    laws_hold(algebra);
    by_head.holds();
    let roads = by_head.roads_into(v);
    let Some(line) = lines.line_of(v) else {
        let has_walk = offers_some(algebra, lines, roads);
        return if has_walk {
            Some(Reason::HasWalk)
        } else {
            None
        };
    };
    match value_told(algebra, line) {
        Some(value) => evidence_of(algebra, lines, line, value, roads).reason(),
        None => Some(Reason::NoParent),
    }
}

/// The first reason against the line of a vertex. `marks` says which vertices are sources.
pub(crate) fn reason_at<A: PathAlgebra, L: VertexLines>(
    algebra: A,
    by_head: &InGraph,
    lines: &L,
    marks: &[bool],
    v: Vertex,
) -> Option<Reason>
    requires count { length (L.list lines.now) ≡ by_head.now.vertices }
    requires marks { length marks.now ≡ by_head.now.vertices }
    requires in_graph { HasVertex by_head.now v }
    ensures { IsFirstReason (IsMarkedRight (A.meaning algebra) by_head.now (L.list lines.now) v
        (is_marked marks.now v)) (IsMarkedRefused (A.meaning algebra) by_head.now (L.list lines.now)
        v (is_marked marks.now v)) result }
{
    if !marks[v.0 as usize - 1] {
        return reason_of_line(algebra, by_head, lines, v);
    }
    if is_source_line(algebra, lines.line_of(v)) {
        None
    } else {
        Some(Reason::Mismatch)
    }
}
