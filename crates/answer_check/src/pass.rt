//! The pass over the lines of an answer, with marks that say which vertices are sources.

ghost use Rattle.std.specs.Prelude.{◌≡◌, ℕ, ◌+◌, ◌<◌, true, false, length};
ghost use Rattle.road_graph.specs.GraphData.{HasVertex};
ghost use Rattle.path_algebra.specs.Walks.{is_marked};
ghost use Rattle.answer_check.specs.Marked.{IsMarkedRefused, IsMarkedRight, TellsRefused};
ghost use Rattle.answer_check.specs.Places.{IsFirstNumber, IsJudgedAt};

use crate::place::Place;
use crate::vertex_lines::VertexLines;
use crate::vertices::reason_at;
use path_algebra::{PathAlgebra, laws_hold};
use rayon::prelude::*;
use road_graph::{InGraph, Vertex};
use std::thread::Threads;

/// Whether there is a reason against line `i` of the list.
fn is_refused<A: PathAlgebra, L: VertexLines>(
    algebra: A,
    by_head: &InGraph,
    lines: &L,
    marks: &[bool],
    i: usize,
) -> bool
    requires count { length (L.list lines.now) ≡ by_head.now.vertices }
    requires marks { length marks.now ≡ by_head.now.vertices }
    requires place { i < by_head.now.vertices }
    ensures { TellsRefused (A.meaning algebra) by_head.now (L.list lines.now) marks.now (i + 1)
        result }
{
    by_head.holds();
    reason_at(algebra, by_head, lines, marks, Vertex(i as u32 + 1)).is_some()
}

/// The index of the first line with a reason against it. The lines are judged in parallel.
fn first_refused<A: PathAlgebra, L: VertexLines + Sync, R: Threads + Sync>(
    rt: &R,
    algebra: A,
    by_head: &InGraph,
    lines: &L,
    marks: &[bool],
) -> Option<usize>
    requires count { length (L.list lines.now) ≡ by_head.now.vertices }
    requires marks { length marks.now ≡ by_head.now.vertices }
    ensures { IsFirstNumber by_head.now.vertices (λ i. TellsRefused (A.meaning algebra) by_head.now
        (L.list lines.now) marks.now (i + 1)) result }
{
    (0..marks.len()).into_par_iter().position_first(
        rt,
        |i: usize| -> bool
            requires { (length (L.list lines.now) ≡ by_head.now.vertices) ×
                (length marks.now ≡ by_head.now.vertices) × (i < by_head.now.vertices) }
            ensures { TellsRefused (A.meaning algebra) by_head.entry.now (L.list lines.entry.now)
                marks.entry.now (i + 1) result }
        { is_refused(algebra, by_head, lines, marks, i) },
    )
}

/// How many lines are right before the first that is refused: all, if none is.
pub(crate) fn right_lines<A: PathAlgebra, L: VertexLines + Sync, R: Threads + Sync>(
    rt: &R,
    algebra: A,
    by_head: &InGraph,
    lines: &L,
    marks: &[bool],
) -> usize
    requires count { length (L.list lines.now) ≡ by_head.now.vertices }
    requires marks { length marks.now ≡ by_head.now.vertices }
    ensures right { (k : ℕ) → k < result → TellsRefused (A.meaning algebra) by_head.now
        (L.list lines.now) marks.now (k + 1) false }
    ensures first { result < by_head.now.vertices → TellsRefused (A.meaning algebra) by_head.now
        (L.list lines.now) marks.now (result + 1) true }
{
    match first_refused(rt, algebra, by_head, lines, marks) {
        Some(i) => i,
        None => marks.len(),
    }
}

/// The first vertex with a reason against its line, and the first such reason. So many of the first
/// lines are known to be right.
pub(crate) fn first_place<A: PathAlgebra, L: VertexLines>(
    algebra: A,
    by_head: &InGraph,
    lines: &L,
    marks: &[bool],
    right: usize,
) -> Option<Place>
    requires count { length (L.list lines.now) ≡ by_head.now.vertices }
    requires marks { length marks.now ≡ by_head.now.vertices }
    requires right { (k : ℕ) → k < right → TellsRefused (A.meaning algebra) by_head.now
        (L.list lines.now) marks.now (k + 1) false }
    ensures { IsJudgedAt ((v : ℕ) → HasVertex by_head.now v → IsMarkedRight (A.meaning algebra)
        by_head.now (L.list lines.now) v (is_marked marks.now v)) (λ v r. HasVertex by_head.now v ×
        IsMarkedRefused (A.meaning algebra) by_head.now (L.list lines.now) v (is_marked marks.now v)
        r) result }
{
    laws_hold(algebra);
    by_head.holds();
    for i in right..marks.len() {
        let vertex = Vertex(i as u32 + 1);
        if let Some(reason) = reason_at(algebra, by_head, lines, marks, vertex) {
            return Some(Place {
                vertex: vertex.0,
                reason,
            });
        }
    }
    None
}
