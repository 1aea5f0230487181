//! A graph that is factored.
ghost use Rattle.std.specs.Prelude.{◌≡◌, ℕ, ◌<◌, ◌≤◌, slice_index};
ghost use Rattle.road_graph.specs.GraphData.{HasVertex, IsGraph};
ghost use Rattle.path_algebra.specs.Algebra.{IsLawful};
ghost use Rattle.path_algebra.specs.Composition.{IsComposition};
ghost use Rattle.path_factors.specs.Factors.{IsFactor, place_of, row_of};
ghost use Rattle.path_factors.specs.Heads.{IsOutline};
ghost use Rattle.path_factors.specs.Tree.{AreAtHeads, AreParentsTo};

use crate::heads::Heads;
use crate::packed::PackedRows;
use elimination_order::Order;
use path_algebra::{ComposingAlgebra, composition_holds, laws_hold};
use road_graph::{OutGraph, Vertex};
use std::marker::Model;
use std::snapshot::Snapshot;
use std::sync::Arc;

/// Links between the places of an order, from which best values of a graph are found by
/// substitution. Contracts alone see the graph and the order.
///
/// An edge that others do for may be left out. It takes 12 bytes for each vertex, 4 and those of
/// two walks for each edge that is left, and, if some are not, 4 more for each vertex and each
/// edge. Of these, factors of other weights share all but 8 for each vertex, and what is left.
#[derive(Drop)]
pub struct Factors<A: ComposingAlgebra> {
    pub(crate) algebra: A,
    pub(crate) graph: Snapshot<OutGraph>,
    pub(crate) order: Arc<Snapshot<Order>>,
    /// The place of each vertex.
    pub(crate) places: Vec<u32>,
    /// The greater places with which each place has an edge; none if each edge is left.
    pub(crate) heads: Option<Arc<Heads>>,
    /// The parent of each place.
    pub(crate) parents: Arc<Vec<u32>>,
    /// For each place the links to greater places and from them that are left.
    pub(crate) rows: PackedRows<A::Walk>,
}

impl<A: ComposingAlgebra> Model for Factors<A> {
    ghost use Rattle.std.specs.Arc.{arc_value};
    ghost use Rattle.std.specs.Option.{option_map};
    ghost use Rattle.std.specs.Prelude.{◌≡◌, None};
    ghost use Rattle.path_factors.specs.Eliminating.{IsWhole};
    ghost use Rattle.path_factors.specs.Heads.{heads_or};
    ghost use Rattle.path_factors.specs.State.{FactorState};
    ghost use Rattle.path_factors.specs.Tree.{AreParentsTo, IsFactored};

    ghost Value = { FactorState A A.Walk };

    ghost view = { λ f. record { algebra = f.algebra; roads = f.graph.value; factor = record { order = (arc_value f.order).value.vertices.items; places = f.places.items; leaving = f.rows.leaving; entering = f.rows.entering }; heads = heads_or (option_map arc_value f.heads) f.rows.leaving } };

    ghost invariant = { λ f.
        IsFactored (A.meaning f.algebra) (A.walks f.algebra) f.graph.value (record { order = (arc_value f.order).value.vertices.items; places = f.places.items; leaving = f.rows.leaving; entering = f.rows.entering }) (heads_or (option_map arc_value f.heads) f.rows.leaving)
        × AreParentsTo (heads_or (option_map arc_value f.heads) f.rows.leaving) f.graph.value.vertices f.graph.value.vertices (arc_value f.parents).items
        × (f.heads ≡ None → IsWhole (A.meaning f.algebra) (A.walks f.algebra) f.graph.value (record { order = (arc_value f.order).value.vertices.items; places = f.places.items; leaving = f.rows.leaving; entering = f.rows.entering })) };
}

impl<A: ComposingAlgebra> Factors<A> {
    /// What holds of every factor. Nothing is computed.
    pub fn holds(&self)
        ensures factor { IsFactor (A.meaning self.now.algebra) (A.walks self.now.algebra)
            self.now.roads self.now.factor }
        ensures roads { IsGraph self.now.roads }
        ensures lawful { IsLawful (A.meaning self.now.algebra) }
        ensures composes { IsComposition (A.meaning self.now.algebra) (A.walks self.now.algebra) }
        ensures outline { IsOutline self.now.roads self.now.factor.places self.now.heads }
        ensures at_heads { AreAtHeads self.now.heads self.now.factor }
    {
        laws_hold(self.algebra);
        composition_holds(self.algebra);
    }

    /// The place of a vertex.
    pub(crate) fn place(&self, v: Vertex) -> usize
        requires { HasVertex self.now.roads v }
        ensures place { result ≡ place_of self.now.factor v }
        ensures inside { result < self.now.roads.vertices }
    {
        self.places[v.0 as usize - 1] as usize
    }

    /// The greater places with which a place has an edge.
    pub(crate) fn heads(&self, i: usize) -> &[u32]
        requires { i < self.now.roads.vertices }
        ensures { result.now ≡ row_of self.now.heads i }
    {
        self.holds();
        match &self.heads {
            Some(heads) => heads.row(i),
            None => self.rows.heads(i),
        }
    }

    /// The parent of each place: the least place to which it has an edge; how many places there are
    /// if it has none.
    pub(crate) fn parents(&self) -> &[u32]
        ensures parents { AreParentsTo self.now.heads self.now.roads.vertices self.now.roads.vertices
            result.now }
        ensures above { (v : ℕ) → v < self.now.roads.vertices →
            (v < slice_index result.now v) × (slice_index result.now v ≤ self.now.roads.vertices) }
    {
        self.holds();
        self.parents.as_slice()
    }
}
