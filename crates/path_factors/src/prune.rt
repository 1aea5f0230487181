//! Edges are left out that others do for.
ghost use Rattle.std.specs.Prelude.{◌≡◌, ◌<◌, IfErr, IfOk, IsSome, IsTrue, OnOk, length, slice_index, true};
ghost use Rattle.std.specs.Arc.{arc_value};
ghost use Rattle.path_factors.specs.Factors.{Leads, row_of};
ghost use Rattle.path_factors.specs.Eliminating.{IsWhole};
ghost use Rattle.path_factors.specs.Heads.{heads_in};
ghost use Rattle.path_factors.specs.Pruning.{AreThinTo, DoForAll, IsBypassed};
ghost use Rattle.halting.specs.declared.unfinished.Unfinished.TheVariants.{Halted};

use crate::edge::Edge;
use crate::factors::Factors;
use crate::packed::PackedRows;
use crate::weighing::Weighing;
use halting::{Stop, Unfinished, look_at};
use path_algebra::{ComposingAlgebra, laws_hold};
use road_graph::Memory;
use std::alloc::{AllocError, Global};
use std::snapshot::Snapshot;
use std::sync::Arc;

/// Which links a factor keeps.
#[derive(Clone, Copy, Debug, PartialEq, Eq)]
pub enum Links {
    /// All: it is made sooner.
    All,
    /// Those that no way over others replaces: it answers sooner.
    Needed,
}

/// How factors are made: which links they keep, and the stop that ends it once it is set.
#[derive(Clone, Copy)]
pub struct Making<'s> {
    /// Which links.
    pub links: Links,
    /// The stop, if there is one.
    pub stop: &'s Option<Stop>,
}

/// The first owner of a value that others may share.
fn shared<T: Drop>(alloc: Global, value: T) -> Result<Arc<T>, Memory>
    ensures { IfOk result (λ first. arc_value first ≡ value) }
{
    Ok(Arc::new(alloc, value).map_err(AllocError::from)?)
}

/// Whether another edge of a place is marked and the ways over its end are no worse than an edge,
/// both ways; `end` is the edge from there to the end of the edge.
fn is_bypassed<A: ComposingAlgebra>(
    algebra: A,
    edge: Edge<A::Walk>,
    over: Edge<A::Walk>,
    end: Edge<A::Walk>,
    is_marked: bool,
) -> bool
    ensures marked { IsTrue result → is_marked ≡ true }
    ensures bypassed { IsTrue result → IsBypassed (A.walks algebra) edge over end }
{
    is_marked
        && algebra.no_worse_walk(algebra.compose(over.leaving, end.leaving), edge.leaving)
        && algebra.no_worse_walk(algebra.compose(end.entering, over.entering), edge.entering)
}

impl<'g, A: ComposingAlgebra> Weighing<'g, A> {
    /// Unmarks an edge of a place if the way over another that is marked bypasses it; `end` is the
    /// edge from the end of the other to its own.
    fn unmark(&self, marks: &mut [bool], v: usize, i: usize, j: usize, end: Edge<A::Walk>)
        requires place { v < self.now.roads.vertices }
        requires edge { i < length (row_of self.now.factor.leaving v) }
        requires over { j < length (row_of self.now.factor.leaving v) }
        requires apart { j ≡ i → ⊥ }
        requires marks { length marks.old ≡ length (row_of self.now.factor.leaving v) }
        requires there { Leads self.now.factor
            (slice_index (row_of (heads_in self.now.factor.leaving) v) j)
            (slice_index (row_of (heads_in self.now.factor.leaving) v) i) end.leaving }
        requires back { Leads self.now.factor
            (slice_index (row_of (heads_in self.now.factor.leaving) v) i)
            (slice_index (row_of (heads_in self.now.factor.leaving) v) j) end.entering }
        requires serve { DoForAll (A.meaning self.now.algebra) (A.walks self.now.algebra)
            self.now.factor v marks.old }
        ensures marks { length marks.new ≡ length marks.old }
        ensures serve { DoForAll (A.meaning self.now.algebra) (A.walks self.now.algebra)
            self.now.factor v marks.new }
    {
        self.holds();
        laws_hold(self.algebra);
        let edge = self.edge(v, i);
        let over = self.edge(v, j);
        if !is_bypassed(self.algebra, edge, over, end, marks[j]) {
            return;
        }
        marks[i] = false;
    }

    /// Does so for each of two edges; `q` is the index of the edge between their ends.
    fn choose(&self, marks: &mut [bool], v: usize, i: usize, j: usize, q: usize)
        requires place { v < self.now.roads.vertices }
        requires after { i < j }
        requires edge { j < length (row_of self.now.factor.leaving v) }
        requires marks { length marks.old ≡ length (row_of self.now.factor.leaving v) }
        requires index { q < length (row_of (heads_in self.now.factor.leaving)
            (slice_index (row_of (heads_in self.now.factor.leaving) v) i)) }
        requires head { slice_index (row_of (heads_in self.now.factor.leaving)
            (slice_index (row_of (heads_in self.now.factor.leaving) v) i)) q
            ≡ slice_index (row_of (heads_in self.now.factor.leaving) v) j }
        requires serve { DoForAll (A.meaning self.now.algebra) (A.walks self.now.algebra)
            self.now.factor v marks.old }
        ensures marks { length marks.new ≡ length marks.old }
        ensures serve { DoForAll (A.meaning self.now.algebra) (A.walks self.now.algebra)
            self.now.factor v marks.new }
    {
        self.holds();
        let first = self.edge(v, i);
        let end = self.edge(first.place as usize, q);
        let turned = Edge {
            place: first.place,
            leaving: end.entering,
            entering: end.leaving,
        };
        self.unmark(marks, v, i, j, turned);
        self.unmark(marks, v, j, i, end);
    }

    /// Does so for an edge of a place and each one after it.
    fn choose_after(&self, marks: &mut [bool], v: usize, i: usize)
        requires place { v < self.now.roads.vertices }
        requires edge { i < length (row_of self.now.factor.leaving v) }
        requires marks { length marks.old ≡ length (row_of self.now.factor.leaving v) }
        requires serve { DoForAll (A.meaning self.now.algebra) (A.walks self.now.algebra)
            self.now.factor v marks.old }
        ensures marks { length marks.new ≡ length marks.old }
        ensures serve { DoForAll (A.meaning self.now.algebra) (A.walks self.now.algebra)
            self.now.factor v marks.new }
    {
        let mut q = 0;
        for j in i + 1..marks.len() {
            q = self.between(v, i, j, q);
            self.choose(marks, v, i, j, q);
            q += 1;
        }
    }

    /// Marks edges of a place that do for all.
    fn mark(&self, marks: &mut Vec<bool>, v: usize, stop: &Option<Stop>) -> Result<(), Unfinished>
        requires { v < self.now.roads.vertices }
        ensures marks { OnOk result
            (length marks.new.items ≡ length (row_of self.now.factor.leaving v)) }
        ensures serve { OnOk result (DoForAll (A.meaning self.now.algebra)
            (A.walks self.now.algebra) self.now.factor v marks.new.items) }
        ensures halts { IfErr result (λ e. e ≡ Halted → IsSome stop.now) }
    {
        let count = self.count(v);
        marks.clear();
        marks.resize(count, true)?;
        for i in 0..count {
            look_at(stop)?;
            self.choose_after(marks, v, i);
        }
        Ok(())
    }

    /// The marked edges of all places.
    fn thinned(&self, alloc: Global, stop: &Option<Stop>) -> Result<PackedRows<A::Walk>, Unfinished>
        ensures thin { IfOk result (λ rows. AreThinTo (A.meaning self.now.algebra)
            (A.walks self.now.algebra) self.now.factor self.now.roads.vertices rows) }
        ensures halts { IfErr result (λ e. e ≡ Halted → IsSome stop.now) }
    {
        self.holds();
        laws_hold(self.algebra);
        let n = self.graph.vertices() as usize;
        let mut marks: Vec<bool> = Vec::new(alloc);
        let mut rows = PackedRows::new(alloc, n, self.rows.edges())?;
        for v in 0..n {
            self.mark(&mut marks, v, stop)?;
            rows = rows.push_marked(&self.rows, v, &marks)?;
        }
        Ok(rows)
    }

    /// The factor with all edges, or without those that others do for, once each arc has a walk at
    /// its link and each place is eliminated.
    pub(crate) fn prune(self, alloc: Global, making: Making<'_>) -> Result<Factors<A>, Unfinished>
        requires whole { IsWhole (A.meaning self.algebra) (A.walks self.algebra) self.roads
            self.factor }
        ensures algebra { IfOk result (λ f. f.algebra ≡ self.entry.algebra) }
        ensures roads { IfOk result (λ f. f.roads ≡ self.entry.roads) }
        ensures order { IfOk result (λ f. f.factor.order ≡ self.entry.factor.order) }
        ensures heads { IfOk result (λ f. f.heads ≡ heads_in self.entry.factor.leaving) }
        ensures halts { IfErr result (λ e. e ≡ Halted → IsSome making.entry.stop.now) }
    {
        self.holds();
        laws_hold(self.algebra);
        let parents = self.parents(alloc)?;
        let parents = shared(alloc, parents)?;
        let (heads, rows) = match making.links {
            Links::All => (None, self.rows),
            Links::Needed => {
                let rows = self.thinned(alloc, making.stop)?;
                let heads = self.rows.into_heads();
                let heads = shared(alloc, heads)?;
                (Some(heads), rows)
            }
        };
        Ok(Factors {
            algebra: self.algebra,
            graph: Snapshot::of(self.graph),
            order: self.order,
            places: self.places,
            heads,
            parents,
            rows,
        })
    }
}
