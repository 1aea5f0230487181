//! The lines of an answer for all vertices.

ghost use Rattle.std.specs.Prelude.{◌≡◌, ◌≤◌, List, length, Option};
ghost use Rattle.path_algebra.specs.Walks.{label_of};
ghost use Rattle.answer_text.specs.declared.answers.Reached.{Reached};

use answer_text::Reached;
use road_graph::Vertex;

/// The lines of an answer for all vertices, in whatever lists they are kept.
pub trait VertexLines {
    // The lines, one for each vertex, in order.
    ghost list: { Self → List (Option Reached) };

    /// The line of a vertex: its code, its hops and its parent, or none if no walk to it has a
    /// value.
    fn line_of(&self, v: Vertex) -> Option<Reached>
        requires low { 1 ≤ v }
        requires high { v ≤ length (list self.now) }
        ensures { result ≡ label_of (list self.now) v };
}

impl VertexLines for Vec<Option<Reached>> {
    ghost list = { λ lines. lines.items };

    fn line_of(&self, v: Vertex) -> Option<Reached> {
        self[v.0 as usize - 1]
    }
}
