//! What holds of best values on every graph.

ghost use Rattle.std.specs.Prelude.{◌≡◌, ℕ, List, All, IsTrue, Option, Some, None};
ghost use Rattle.road_graph.specs.GraphData.{GraphData, IsGraph, HasVertex};
ghost use Rattle.path_algebra.specs.Walks.{AreBest, label_of};
ghost use Rattle.path_plain.specs.UpTo.{AreBestUpTo};

use path_algebra::{PathAlgebra, laws_hold};

/// Best values exist: on every graph, and from every list of its vertices, for every lawful
/// algebra.
pub fn best_values_exist<A: PathAlgebra>(algebra: A)
    ensures { (g : GraphData) → IsGraph g → (sources : List ℕ) → All (HasVertex g) sources →
        (labels : List (Option A.Value)) × AreBest (A.meaning algebra) g sources labels }
{
    laws_hold(algebra);
}

/// Labels that are best up to a target are so up to each vertex whose label is no worse; if the
/// target has no label all of them are best. Best labels are best up to every target.
pub fn labels_serve_nearer_targets<A: PathAlgebra>(algebra: A)
    ensures every { (g : GraphData) → IsGraph g → (sources : List ℕ) (target : ℕ) → HasVertex g target → (labels : List (Option A.Value)) → AreBest (A.meaning algebra) g sources labels →
        AreBestUpTo (A.meaning algebra) g sources target labels }
    ensures nearer { (g : GraphData) → IsGraph g → (sources : List ℕ) → All (HasVertex g) sources → (target other : ℕ) → HasVertex g target → HasVertex g other → (labels : List (Option A.Value)) →
        AreBestUpTo (A.meaning algebra) g sources target labels → (y t : A.Value) → label_of labels other ≡ Some y → label_of labels target ≡ Some t → IsTrue (A.order y t) →
        AreBestUpTo (A.meaning algebra) g sources other labels }
    ensures none { (g : GraphData) → IsGraph g → (sources : List ℕ) → All (HasVertex g) sources → (target : ℕ) → HasVertex g target → (labels : List (Option A.Value)) →
        AreBestUpTo (A.meaning algebra) g sources target labels → label_of labels target ≡ None → AreBest (A.meaning algebra) g sources labels }
{
    laws_hold(algebra);
}
