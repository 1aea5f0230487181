//! Back substitution for one place: at the ancestors that it needs.
ghost use Rattle.std.specs.Prelude.{◌≡◌, ℕ, ◌<◌, ◌++◌, List, Option, OnOk, length, slice_set, true};
ghost use Rattle.path_factors.specs.Factors.{row_of};
ghost use Rattle.path_factors.specs.Substituting.{at, best_along};
ghost use Rattle.path_factors.specs.Asking.{IsBackRun, Agree, IsKnownUpward, AreAllUnknownUp, AreFound, IsExtended};

use crate::factors::Factors;
use crate::label_slot::{CompactAlgebra, LabelSlot};
use path_algebra::ComposingAlgebra;
use road_graph::Memory;
use std::alloc::AllocError;

impl<A: ComposingAlgebra> Factors<A> {
    /// Lists the ancestors of a place that are not known, itself the first, up to the first that is
    /// known.
    pub(crate) fn list_unknown(
        &self,
        known: &[bool],
        asked: &mut Vec<u32>,
        t: usize,
    ) -> Result<(), Memory>
        requires place { t < self.now.roads.vertices }
        requires count { length known.now ≡ self.now.roads.vertices }
        ensures listed { OnOk result ((list : List ℕ) × (asked.new.items ≡ asked.old.items ++ list) ×
            AreAllUnknownUp self.now.heads self.now.roads.vertices known.now t list) }
        ensures kept { IsExtended self.now.roads.vertices asked.old.items asked.new.items }
    {
        self.holds();
        let parents = self.parents();
        let mut v = t;
        while v < known.len() && !known[v] {
            asked.push(v as u32).map_err(AllocError::from)?;
            v = parents[v] as usize;
        }
        Ok(())
    }
}

impl<A: CompactAlgebra> Factors<A> {
    /// Finds the label of a place from those of all places above it.
    fn find_at(&self, labels: &mut [LabelSlot<A>], known: &mut [bool], i: usize)
        requires place { i < self.now.roads.vertices }
        requires labels { length labels.old ≡ self.now.roads.vertices }
        requires known { length known.old ≡ self.now.roads.vertices }
        ensures labels { labels.new ≡ slice_set labels.old i
            (best_along (A.meaning self.now.algebra) (A.walks self.now.algebra) labels.old
            (at labels.old i) (row_of self.now.factor.entering i)) }
        ensures known { known.new ≡ slice_set known.old i true }
    {
        labels[i] = self.best_down(labels, i);
        known[i] = true;
    }

    /// Finds the labels of the unknown ancestors of a place, from the last one down.
    pub(crate) fn find_listed(
        &self,
        labels: &mut [LabelSlot<A>],
        known: &mut [bool],
        list: &[u32],
        t: usize,
    )
        requires labels { length labels.old ≡ self.now.roads.vertices }
        requires known { length known.old ≡ self.now.roads.vertices }
        requires list { AreAllUnknownUp self.now.heads self.now.roads.vertices known.old t
            list.now }
        requires upward { IsKnownUpward self.now.heads known.old }
        ensures { (before all : List (Option A.Value)) →
            IsBackRun (A.meaning self.now.algebra) (A.walks self.now.algebra) self.now.roads.vertices self.now.factor before all →
            Agree self.now.roads.vertices before all labels.old known.old →
            AreFound self.now.heads self.now.roads.vertices before all known.old list.now labels.new known.new }
    {
        self.holds();
        for k in (0..list.len()).rev() {
            self.find_at(labels, known, list[k] as usize);
        }
    }
}
