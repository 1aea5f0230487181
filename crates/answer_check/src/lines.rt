//! The first place where an answer for all vertices is wrong.

ghost use Rattle.std.specs.Prelude.{◌≡◌, ℕ, ◌≤◌, ◌↔◌, length, All, Contains, IfOk, IsTrue};
ghost use Rattle.road_graph.specs.GraphData.{HasVertex};
ghost use Rattle.path_algebra.specs.Walks.{is_marked};
ghost use Rattle.answer_text.specs.IsAnswer.{AreVertexLines};
ghost use Rattle.answer_check.specs.Reasons.{IsLineRefused};
ghost use Rattle.answer_check.specs.Places.{IsJudgedAt};

use crate::case::Case;
use crate::pass::{first_place, right_lines};
use crate::place::Place;
use crate::vertex_lines::VertexLines;
use path_algebra::{PathAlgebra, laws_hold};
use road_graph::{InGraph, Memory, Vertex};
use std::alloc::{AllocError, Global};
use std::thread::Threads;

/// A mark for each of n vertices that says whether it is a source.
fn marks_of(alloc: Global, n: usize, sources: &[Vertex]) -> Result<Vec<bool>, AllocError>
    requires { All (λ s. (1 ≤ s) × (s ≤ n)) sources.now }
    ensures count { IfOk result (λ marks. length marks.items ≡ n) }
    ensures marks { IfOk result (λ marks. (v : ℕ) → 1 ≤ v → v ≤ n → IsTrue (is_marked marks.items v)
        ↔ Contains sources.now v) }
{
    let mut marks = vec![in alloc; false; n]?;
    for source in sources {
        marks[source.0 as usize - 1] = true;
    }
    Ok(marks)
}

/// The first vertex whose line is wrong, with the first reason; none if these are the right lines
/// from the sources.
///
/// # Errors
/// Out of memory.
pub fn first_wrong_line<A: PathAlgebra, L: VertexLines>(
    alloc: Global,
    algebra: A,
    by_head: &InGraph,
    sources: &[Vertex],
    lines: &L,
) -> Result<Option<Place>, Memory>
    requires inside { All (HasVertex by_head.now) sources.now }
    requires count { length (L.list lines.now) ≡ by_head.now.vertices }
    ensures { IfOk result (IsJudgedAt (AreVertexLines (A.meaning algebra) by_head.now sources.now
        (L.list lines.now)) (λ v r. HasVertex by_head.now v × IsLineRefused (A.meaning algebra)
        by_head.now sources.now (L.list lines.now) v r)) }
{
    laws_hold(algebra);
    let marks = marks_of(alloc, by_head.vertices() as usize, sources)?;
    Ok(first_place(algebra, by_head, lines, &marks, 0))
}

/// The same, by a parallel pass over the lines first.
pub(crate) fn judge_lines<A: PathAlgebra, L: VertexLines + Sync, R: Threads + Sync>(
    rt: &R,
    case: &Case<'_, A>,
    sources: &[Vertex],
    lines: &L,
) -> Result<Option<Place>, Memory>
    requires inside { All (HasVertex case.now.graph.now) sources.now }
    requires count { length (L.list lines.now) ≡ case.now.graph.now.vertices }
    ensures { IfOk result (IsJudgedAt (AreVertexLines (A.meaning case.now.algebra)
        case.now.graph.now sources.now (L.list lines.now)) (λ v r. HasVertex case.now.graph.now v ×
        IsLineRefused (A.meaning case.now.algebra) case.now.graph.now sources.now
        (L.list lines.now) v r)) }
{
    let (algebra, by_head) = (case.algebra, case.by_head);
    laws_hold(algebra);
    let marks = marks_of(case.alloc, by_head.vertices() as usize, sources)?;
    let right = right_lines(rt, algebra, by_head, lines, &marks);
    Ok(first_place(algebra, by_head, lines, &marks, right))
}
