//! Forward substitution from one place: over its ancestors alone.
ghost use Rattle.std.specs.Prelude.{◌≡◌, ℕ, ◌<◌, ◌⊎◌, List, [], ◌∷◌, All, Contains, None, length, true, false};
ghost use Rattle.road_graph.specs.GraphData.{HasVertex};
ghost use Rattle.path_factors.specs.Factors.{place_of};
ghost use Rattle.path_factors.specs.Substituting.{at, IsForward, IsForwardTo};
ghost use Rattle.path_factors.specs.Asking.{is_on, sources_of, AreOnlyUp, IsAboveSource};

use crate::factors::Factors;
use crate::label_slot::{CompactAlgebra, LabelSlot};
use road_graph::Vertex;

impl<A: CompactAlgebra> Factors<A> {
    /// Forward substitution if one place alone has a label: each of its ancestors, in ascending
    /// order, offers its label along its links. No other gets one.
    pub(crate) fn climb(&self, labels: &mut [LabelSlot<A>], s: usize)
        requires place { s < self.now.roads.vertices }
        requires count { length labels.old ≡ self.now.roads.vertices }
        requires alone { (j : ℕ) → (j ≡ s → ⊥) → at labels.old j ≡ None }
        ensures count { length labels.new ≡ self.now.roads.vertices }
        ensures up { AreOnlyUp self.now.heads self.now.roads.vertices s labels.new }
        ensures forward { (sources : List ℕ) →
            IsForwardTo (A.meaning self.now.algebra) (A.walks self.now.algebra) self.now.roads self.now.factor sources 0 labels.old →
            IsForward (A.meaning self.now.algebra) (A.walks self.now.algebra) self.now.roads self.now.factor sources labels.new }
    {
        self.holds();
        let parents = self.parents();
        let mut v = s;
        while v < labels.len() {
            self.offer_up(labels, v);
            v = parents[v] as usize;
        }
    }

    /// Takes the labels of a place and its ancestors away.
    pub(crate) fn clear_up(&self, labels: &mut [LabelSlot<A>], s: usize)
        requires place { s < self.now.roads.vertices }
        requires count { length labels.old ≡ self.now.roads.vertices }
        requires up { AreOnlyUp self.now.heads self.now.roads.vertices s labels.old }
        ensures count { length labels.new ≡ self.now.roads.vertices }
        ensures none { (j : ℕ) → at labels.new j ≡ None }
    {
        self.holds();
        let parents = self.parents();
        let mut v = s;
        while v < labels.len() {
            labels[v] = LabelSlot::none();
            v = parents[v] as usize;
        }
    }

    /// Takes the labels of the source's ancestors away, if there is a source.
    pub(crate) fn clear_from(&self, labels: &mut [LabelSlot<A>], source: Option<Vertex>)
        requires source { All (HasVertex self.now.roads) (sources_of source) }
        requires count { length labels.old ≡ self.now.roads.vertices }
        requires up { (j : ℕ) → (at labels.old j ≡ None)
            ⊎ IsAboveSource self.now.roads.vertices self.now.factor self.now.heads (sources_of source) j }
        ensures count { length labels.new ≡ self.now.roads.vertices }
        ensures none { (j : ℕ) → at labels.new j ≡ None }
    {
        let Some(s) = source else {
            return;
        };
        self.clear_up(labels, self.place(s));
    }

    /// Forward substitution from a source, if nothing has a label before.
    pub(crate) fn start(&self, labels: &mut [LabelSlot<A>], source: Vertex)
        requires source { HasVertex self.now.roads source }
        requires count { length labels.old ≡ self.now.roads.vertices }
        requires none { (j : ℕ) → at labels.old j ≡ None }
        ensures count { length labels.new ≡ self.now.roads.vertices }
        ensures up { AreOnlyUp self.now.heads self.now.roads.vertices
            (place_of self.now.factor source) labels.new }
        ensures forward { IsForward (A.meaning self.now.algebra) (A.walks self.now.algebra)
            self.now.roads self.now.factor (source ∷ []) labels.new }
    {
        self.holds();
        let s = self.place(source);
        labels[s] = LabelSlot::origin(self.algebra);
        self.climb(labels, s);
    }
}

/// Takes the labels of the places of a list away, and forgets that they are known.
pub(crate) fn forget<A: CompactAlgebra>(
    labels: &mut [LabelSlot<A>],
    known: &mut [bool],
    asked: &[u32],
)
    requires count { length known.old ≡ length labels.old }
    requires inside { All (λ i. i < length labels.old) asked.now }
    requires listed { (j : ℕ) → is_on known.old j ≡ true → Contains asked.now j }
    ensures labels_count { length labels.new ≡ length labels.old }
    ensures known_count { length known.new ≡ length known.old }
    ensures unknown { (j : ℕ) → is_on known.new j ≡ false }
    ensures labels { (j : ℕ) → (at labels.new j ≡ None)
        ⊎ ((is_on known.old j ≡ false) × (at labels.new j ≡ at labels.old j)) }
{
    for i in asked {
        labels[*i as usize] = LabelSlot::none();
        known[*i as usize] = false;
    }
}
