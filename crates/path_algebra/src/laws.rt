//! Theorems over walks and labels, each the contract of a function that computes nothing: a caller
//! calls it if its own proof needs the theorem.
ghost use Rattle.std.specs.Prelude.{◌≡◌, ℕ, ◌↔◌, ◌++◌, List, All, Bool, Option, Some, IsTrue, length};
ghost use Rattle.road_graph.specs.GraphData.{GraphData, IsGraph, HasVertex};
ghost use Rattle.path_algebra.specs.Algebra.{Algebra, IsLawful};
ghost use Rattle.path_algebra.specs.Given.{shortest};
ghost use Rattle.path_algebra.specs.Names.{name_text, name_of_text};
ghost use Rattle.path_algebra.specs.SimpleWalks.{ListsSimpleWalks, simple_walks};
ghost use Rattle.path_algebra.specs.Walks.{better_label, label_of, AreBest, AreClosed, AreMarksOfTight, IsBest, IsLeastSum, IsWalkValue, is_marked};
ghost use Rattle.path_algebra.specs.WidthThenHops.{IsWidthThenHops};

use crate::algebra::PathAlgebra;
use crate::name::AlgebraName;
use road_graph::Graph;

/// An algebra keeps its laws, and its order is that of its meaning.
pub fn laws_hold<A: PathAlgebra>(_algebra: A)
    ensures lawful { IsLawful (A.meaning _algebra) }
    ensures order { (A.meaning _algebra).no_worse ≡ A.order }
{}

/// A name that was written is read as itself, and nothing else is read as that name.
pub fn names_are_read_back()
    ensures written { (name : AlgebraName) → name_of_text (name_text name) ≡ Some name }
    ensures only { (name : AlgebraName) (word : List ℕ) →
        name_of_text word ≡ Some name → word ≡ name_text name }
{}

/// A vertex has at most one best value.
pub fn best_values_are_unique<A: PathAlgebra>(algebra: A)
    ensures { (g : GraphData) (sources : List ℕ) (v : ℕ) (x y : A.Value) →
        IsBest (A.meaning algebra) g sources v x → IsBest (A.meaning algebra) g sources v y →
        x ≡ y }
{
    laws_hold(algebra);
}

/// Labels that are values of walks, with the origin at each source, and that no arc improves, are
/// best.
pub fn closed_labels_are_best<A: PathAlgebra>(algebra: A, graph: &Graph)
    ensures { (sources : List ℕ) (labels : List (Option A.Value)) →
        All (HasVertex graph.now) sources →
        AreClosed (A.meaning algebra) graph.now sources labels →
        AreBest (A.meaning algebra) graph.now sources labels }
{
    graph.holds();
    laws_hold(algebra);
}

/// Tight arcs reach every vertex that some walk with a value reaches: marks that all sources have,
/// and that each tight arc passes on, are at all of them.
pub fn tight_arcs_reach<A: PathAlgebra>(algebra: A, graph: &Graph)
    ensures { (sources : List ℕ) (labels : List (Option A.Value)) (marks : List Bool) →
        All (HasVertex graph.now) sources →
        AreBest (A.meaning algebra) graph.now sources labels →
        AreMarksOfTight (A.meaning algebra) graph.now sources marks →
        (v : ℕ) (x : A.Value) → HasVertex graph.now v →
        IsWalkValue (A.meaning algebra) graph.now sources v x → IsTrue (is_marked marks v) }
{
    graph.holds();
    laws_hold(algebra);
}

/// Labels that are best from two lists of sources merge to those best from both together.
pub fn merged_labels_are_best<A: PathAlgebra>(algebra: A)
    ensures { (g : GraphData) (xs ys : List ℕ) (ls ms ns : List (Option A.Value)) →
        AreBest (A.meaning algebra) g xs ls → AreBest (A.meaning algebra) g ys ms →
        length ns ≡ length ls →
        ((v : ℕ) → label_of ns v ≡ better_label A.order (label_of ls v) (label_of ms v)) →
        AreBest (A.meaning algebra) g (xs ++ ys) ns }
{
    laws_hold(algebra);
}

/// The best values of `Shortest` are the least plain sums of weights, on every graph: the hold at
/// 2^63 never shows.
pub fn shortest_values_are_least_sums(graph: &Graph)
    ensures { (sources : List ℕ) → All (HasVertex graph.now) sources →
        (v x : ℕ) → IsBest shortest graph.now sources v x ↔ IsLeastSum graph.now sources v x }
{
    graph.holds();
}

/// There are finitely many simple walks from the source to a vertex: `simple_walks` lists exactly
/// these, each once.
pub fn simple_walks_are_listed()
    ensures { (g : GraphData) (s v : ℕ) → IsGraph g → HasVertex g s →
        ListsSimpleWalks g s v (simple_walks g s v) }
{}

/// Widths whose ties are decided by the number of arcs are not lawful: after a narrow arc, a wider
/// walk of more arcs is the worse one.
pub fn width_then_hops_is_not_lawful()
    ensures { (A : Algebra (ℕ × ℕ)) → IsWidthThenHops A → IsLawful A → ⊥ }
{}
