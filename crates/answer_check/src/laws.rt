//! A theorem about answer lists, the contract of a function that computes nothing.

ghost use Rattle.std.specs.Prelude.{ℕ, ◌↔◌, List, All, Option};
ghost use Rattle.road_graph.specs.GraphData.{GraphData, IsGraph, HasVertex};
ghost use Rattle.answer_text.specs.declared.answers.Reached.{Reached};
ghost use Rattle.answer_text.specs.IsAnswer.{AreVertexLines};
ghost use Rattle.answer_check.specs.Certificates.{AreCertified};

use path_algebra::{PathAlgebra, laws_hold};

/// Lines are the right answer if and only if each is certified by itself and the lines of the
/// vertices with an arc to it.
pub fn right_lines_are_certified<A: PathAlgebra>(algebra: A)
    ensures { (g : GraphData) → IsGraph g → (sources : List ℕ) → All (HasVertex g) sources → (lines : List (Option Reached)) →
        AreVertexLines (A.meaning algebra) g sources lines ↔ AreCertified (A.meaning algebra) g sources lines }
{
    laws_hold(algebra);
}
