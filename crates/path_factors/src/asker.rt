//! Best values of single vertices from one source, found as they are asked for.
ghost use Rattle.std.specs.Prelude.{◌≡◌, ◌∷◌, [], IfOk};
ghost use Rattle.road_graph.specs.GraphData.{HasVertex};
ghost use Rattle.path_algebra.specs.Walks.{IsBestLabel};

use crate::climb::forget;
use crate::factors::Factors;
use crate::label_slot::{CompactAlgebra, LabelSlot, no_labels};
use road_graph::{Memory, Vertex};
use std::alloc::Global;
use std::marker::Model;
use std::snapshot::Snapshot;

/// What is known of the best values from a source: forward substitution is done over its ancestors,
/// and back substitution at those of the targets. It is made once for a factor, and then serves one
/// source after another: no list of all places is made or cleared again.
#[derive(Drop)]
pub struct Asker<A: CompactAlgebra> {
    factors: Snapshot<Factors<A>>,
    source: Option<Vertex>,
    labels: Vec<LabelSlot<A>>,
    known: Vec<bool>,
    /// The places that became known since the last source.
    asked: Vec<u32>,
}

impl<A: CompactAlgebra> Model for Asker<A> {
    ghost use Rattle.path_factors.specs.Asking.{AskerState, IsAsking, sources_of};

    ghost Value = { AskerState A A.Walk };

    ghost view = { λ s. record { factors = s.factors.value; sources = sources_of s.source } };

    ghost invariant = { λ s. IsAsking (A.meaning s.factors.value.algebra) (A.walks s.factors.value.algebra) s.factors.value.roads s.factors.value.factor s.factors.value.heads (sources_of s.source) s.labels.items s.known.items s.asked.items };
}

impl<A: CompactAlgebra> Asker<A> {
    /// An asker for a factor, without a source.
    pub fn new(alloc: Global, factors: &Factors<A>) -> Result<Self, Memory>
        ensures factors { IfOk result (λ s. s.factors ≡ factors.now) }
        ensures sources { IfOk result (λ s. s.sources ≡ []) }
    {
        factors.holds();
        let n = factors.places.len();
        let labels = no_labels(alloc, n)?;
        let known: Vec<bool> = vec![in alloc; false; n]?;
        let asked: Vec<u32> = Vec::with_capacity(alloc, n)?;
        Ok(Asker {
            factors: Snapshot::of(factors),
            source: None,
            labels,
            known,
            asked,
        })
    }

    /// Begins with a source, and puts back what was found from the one before.
    pub fn begin(&mut self, factors: &Factors<A>, source: Vertex)
        requires same { self.old.factors ≡ factors.now }
        requires source { HasVertex factors.now.roads source }
        ensures factors { self.new.factors ≡ self.old.factors }
        ensures sources { self.new.sources ≡ source ∷ [] }
    {
        factors.holds();
        forget(&mut self.labels, &mut self.known, &self.asked);
        self.asked.clear();
        factors.clear_from(&mut self.labels, self.source);
        factors.start(&mut self.labels, source);
        self.source = Some(source);
    }

    /// The best value of a vertex over all walks from the source, and none if no walk has a value.
    ///
    /// It is found from those of its ancestors, which are kept until the next source.
    pub fn label(&mut self, factors: &Factors<A>, v: Vertex) -> Result<Option<A::Value>, Memory>
        requires same { self.old.factors ≡ factors.now }
        requires vertex { HasVertex factors.now.roads v }
        ensures factors { self.new.factors ≡ self.old.factors }
        ensures sources { self.new.sources ≡ self.old.sources }
        ensures best { IfOk result (λ label. IsBestLabel (A.meaning factors.now.algebra)
            factors.now.roads self.old.sources v label) }
    {
        factors.holds();
        let t = factors.place(v);
        let known = self.asked.len();
        factors.list_unknown(&self.known, &mut self.asked, t)?;
        factors.find_listed(&mut self.labels, &mut self.known, &self.asked[known..], t);
        Ok(self.labels[t].get())
    }
}
