//! Theorems over trees, each the contract of a function that computes nothing: a caller calls it if
//! its own proof needs the theorem.

ghost use Rattle.std.specs.Prelude.{◌≡◌, ℕ, ◌↔◌, List, [], ◌∷◌, All, Contains, Option, Some, None};
ghost use Rattle.road_graph.specs.GraphData.{GraphData, IsGraph, HasVertex};
ghost use Rattle.path_algebra.specs.Walks.{AreBest, IsUnreached, IsWalkValue, label_of, IsParentChain};
ghost use Rattle.route_tree.specs.Told.{IsParentRoute, IsToldOf};
ghost use Rattle.route_tree.specs.Tree.{Branches, IsLinked, IsRoute, IsTree, hops_of, parent_of};

use path_algebra::{PathAlgebra, laws_hold};

/// Best labels and their tree agree at each vertex: they give its best value, its least hops and
/// its least parent, or none of them if no walk has a value.
pub fn labels_and_trees_agree<A: PathAlgebra>(_algebra: A)
    ensures { (g : GraphData) (sources : List ℕ) (labels : List (Option A.Value)) (t : Branches) → AreBest (A.meaning _algebra) g sources labels → IsTree (A.meaning _algebra) g sources t →
        (v : ℕ) → HasVertex g v → IsToldOf (A.meaning _algebra) g sources v (label_of labels v) (hops_of t v) (parent_of t v) }
{}

/// A vertex has hops exactly if some walk to it has a value.
pub fn hops_tell_reached<A: PathAlgebra>(_algebra: A)
    ensures some { (g : GraphData) (sources : List ℕ) (t : Branches) → IsTree (A.meaning _algebra) g sources t → (v k : ℕ) → HasVertex g v → hops_of t v ≡ Some k →
        (x : A.Value) × IsWalkValue (A.meaning _algebra) g sources v x }
    ensures none { (g : GraphData) (sources : List ℕ) (t : Branches) → IsTree (A.meaning _algebra) g
        sources t → (v : ℕ) → HasVertex g v → hops_of t v ≡ None ↔ IsUnreached (A.meaning _algebra)
        g sources v }
{}

/// A route leads from a source to its vertex, each vertex the least parent of the next, and it is
/// the only list that does.
pub fn routes_follow_parents<A: PathAlgebra>(_algebra: A)
    ensures follows { (g : GraphData) → IsGraph g → (sources : List ℕ) (t : Branches) → IsTree (A.meaning _algebra) g sources t → (v : ℕ) → HasVertex g v → (list : List ℕ) → IsRoute t v list →
        IsParentRoute (A.meaning _algebra) g sources v list }
    ensures only { (g : GraphData) (sources : List ℕ) (v : ℕ) (list other : List ℕ) →
        IsParentRoute (A.meaning _algebra) g sources v list → IsParentRoute (A.meaning _algebra) g
        sources v other → list ≡ other }
    ensures from_one_source { (g : GraphData) (s v : ℕ) (list : List ℕ) → IsParentRoute (A.meaning _algebra) g (s ∷ []) v list →
        (rest : List ℕ) × (list ≡ s ∷ rest) × IsParentChain (A.meaning _algebra) g (s ∷ []) s rest v }
{}

/// Labels that are best have a tree, and each vertex with hops has a route in it.
pub fn trees_exist<A: PathAlgebra>(algebra: A)
    ensures { (g : GraphData) → IsGraph g → (sources : List ℕ) → All (HasVertex g) sources → (labels : List (Option A.Value)) → AreBest (A.meaning algebra) g sources labels →
        (t : Branches) × IsTree (A.meaning algebra) g sources t × IsLinked t × ((v k : ℕ) → HasVertex g v → hops_of t v ≡ Some k → (list : List ℕ) × IsRoute t v list) }
{
    laws_hold(algebra);
}
