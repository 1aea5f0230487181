//! A graph is factored over the links of another one: the same order, other weights.
ghost use Rattle.std.specs.Prelude.{◌≡◌, IfOk, IfErr, IsSome, OnOk};
ghost use Rattle.std.specs.Arc.{arc_value};
ghost use Rattle.path_factors.specs.Factors.{ArePlaces};
ghost use Rattle.path_factors.specs.Edges.{AreBlank};
ghost use Rattle.path_factors.specs.Eliminating.{IsOpen, IsWhole, IsWholeBut};
ghost use Rattle.path_factors.specs.Heads.{IsOutline, heads_in};
ghost use Rattle.path_factors.specs.Reweighing.{Fits, IsReason, JoinsNoOthers};
ghost use Rattle.path_factors.specs.State.{IsSameState};
ghost use Rattle.halting.specs.declared.unfinished.Unfinished.TheVariants.{Halted};

use crate::factors::Factors;
use crate::heads::Heads;
use crate::packed::PackedRows;
use crate::prune::{Links, Making};
use crate::weighing::Weighing;
use elimination_order::Order;
use halting::{Stop, Unfinished};
use path_algebra::{ComposingAlgebra, composition_holds};
use road_graph::{Memory, OutGraph};
use std::alloc::Global;
use std::snapshot::Snapshot;
use std::sync::Arc;

/// Why a graph cannot be factored over the links of another one.
#[derive(Clone, Copy, Debug, Drop, PartialEq, Eq)]
pub enum Unfit {
    /// It has fewer or more vertices.
    Vertices,
    /// One of its arcs has no link.
    Arc,
}

impl<'g, A: ComposingAlgebra> Weighing<'g, A> {
    /// Rows whose links are worth walks.
    pub(crate) fn open(
        algebra: A,
        graph: &'g OutGraph,
        order: Arc<Snapshot<Order>>,
        places: Vec<u32>,
        rows: PackedRows<A::Walk>,
    ) -> Self
        requires links { IsOpen (A.meaning algebra) (A.walks algebra) graph.now (record {
          order = (arc_value order).value.vertices.items;
          places = places.items;
          leaving = rows.leaving;
          entering = rows.entering;
        }) }
        ensures algebra { result.algebra ≡ algebra }
        ensures roads { result.roads ≡ graph.now }
        ensures factor { result.factor ≡ record {
          order = (arc_value order).value.vertices.items;
          places = places.items;
          leaving = rows.leaving;
          entering = rows.entering;
        } }
    {
        Weighing {
            algebra,
            graph,
            order,
            places,
            rows,
        }
    }

    /// Rows with no walk at any link, before the first arc.
    pub(crate) fn open_blank(
        algebra: A,
        graph: &'g OutGraph,
        order: Arc<Snapshot<Order>>,
        places: Vec<u32>,
        rows: PackedRows<A::Walk>,
    ) -> Self
        requires places { ArePlaces graph.now.vertices (arc_value order).value.vertices.items places.items }
        requires outline { IsOutline graph.now places.items (heads_in rows.leaving) }
        requires risers { AreBlank (A.walks algebra).no_walk rows.leaving }
        requires fallers { AreBlank (A.walks algebra).no_walk rows.entering }
        ensures algebra { result.algebra ≡ algebra }
        ensures roads { result.roads ≡ graph.now }
        ensures order { result.factor.order ≡ (arc_value order).value.vertices.items }
        ensures heads { heads_in result.factor.leaving ≡ heads_in rows.leaving }
    {
        composition_holds(algebra);
        let _ = rows.len();
        Weighing::open(algebra, graph, order, places, rows)
    }

    /// Puts a walk at the link for each arc and eliminates each place, as far as rows of marked
    /// places are concerned.
    pub(crate) fn weigh(&mut self, marks: &[bool], stop: &Option<Stop>) -> Result<(), Unfinished>
        requires rest { IsWholeBut (A.meaning self.old.algebra) (A.walks self.old.algebra)
            self.old.roads marks.now self.old.factor }
        ensures same { OnOk result (IsSameState self.old self.new) }
        ensures order { OnOk result (self.new.factor.order ≡ self.old.factor.order) }
        ensures whole { OnOk result (IsWhole (A.meaning self.new.algebra)
            (A.walks self.new.algebra) self.new.roads self.new.factor) }
        ensures halts { IfErr result (λ e. e ≡ Halted → IsSome stop.now) }
    {
        self.holds();
        self.load(marks, stop)?;
        self.eliminate_all(marks, stop)?;
        self.holds();
        Ok(())
    }

    /// The same for the rows of all places.
    pub(crate) fn weigh_all(&mut self, alloc: Global, stop: &Option<Stop>) -> Result<(), Unfinished>
        ensures same { OnOk result (IsSameState self.old self.new) }
        ensures order { OnOk result (self.new.factor.order ≡ self.old.factor.order) }
        ensures whole { OnOk result (IsWhole (A.meaning self.new.algebra)
            (A.walks self.new.algebra) self.new.roads self.new.factor) }
        ensures halts { IfErr result (λ e. e ≡ Halted → IsSome stop.now) }
    {
        self.holds();
        let marks = vec![in alloc; true; self.places.len()]?;
        self.weigh(&marks, stop)
    }
}

impl<A: ComposingAlgebra> Factors<A> {
    /// The heads of all places once more.
    fn copied_heads(&self, alloc: Global) -> Result<Heads, Memory>
        ensures { IfOk result (λ heads. heads ≡ self.now.heads) }
    {
        self.holds();
        let count = match &self.heads {
            Some(kept) => kept.places.len(),
            None => self.rows.edges(),
        };
        let mut heads = Heads::new(alloc, self.places.len(), count)?;
        for i in 0..self.places.len() {
            heads = heads.push(self.heads(i))?;
        }
        Ok(heads)
    }

    /// The links of a graph that fits, once they are closed.
    pub(crate) fn weighed_anew<'g>(
        &self,
        alloc: Global,
        algebra: A,
        graph: &'g OutGraph,
        stop: &Option<Stop>,
    ) -> Result<Weighing<'g, A>, Unfinished>
        requires { Fits graph.now self.now }
        ensures algebra { IfOk result (λ w. w.algebra ≡ algebra) }
        ensures roads { IfOk result (λ w. w.roads ≡ graph.now) }
        ensures order { IfOk result (λ w. w.factor.order ≡ self.now.factor.order) }
        ensures heads { IfOk result (λ w. heads_in w.factor.leaving ≡ self.now.heads) }
        ensures whole { IfOk result (λ w. IsWhole (A.meaning w.algebra) (A.walks w.algebra)
            w.roads w.factor) }
        ensures halts { IfErr result (λ e. e ≡ Halted → IsSome stop.now) }
    {
        self.holds();
        let order = Arc::try_clone(&self.order)?;
        let places = self.places.to_vec(alloc)?;
        let heads = self.copied_heads(alloc)?;
        let rows = PackedRows::blank(alloc, heads, algebra.no_walk())?;
        let mut weighing = Weighing::open_blank(algebra, graph, order, places, rows);
        weighing.weigh_all(alloc, stop)?;
        Ok(weighing)
    }

    /// The same factor, over the heads and parents of another one, if that keeps them.
    fn sharing(self, other: &Factors<A>) -> Result<Factors<A>, Memory>
        requires heads { self.heads ≡ other.now.heads }
        requires vertices { self.roads.vertices ≡ other.now.roads.vertices }
        ensures { IfOk result (λ f. f ≡ self) }
    {
        let Some(heads) = &other.heads else {
            return Ok(self);
        };
        let heads = Arc::try_clone(heads)?;
        let parents = Arc::try_clone(&other.parents)?;
        Ok(Factors {
            heads: Some(heads),
            parents,
            ..self
        })
    }

    /// The factor of another graph, by the same order and over the same links: in a fraction of the
    /// time of `by_order`. Weights may change, and arcs may go, come back or have others beside them.
    /// The order is shared, and which links there are.
    ///
    /// # Errors
    /// The graph has another number of vertices, or an arc where there is no link.
    pub fn reweighed(
        &self,
        alloc: Global,
        algebra: A,
        graph: &OutGraph,
        stop: &Option<Stop>,
    ) -> Result<Result<Factors<A>, Unfit>, Unfinished>
        ensures algebra { IfOk result (λ made. IfOk made (λ f. f.algebra ≡ algebra)) }
        ensures roads { IfOk result (λ made. IfOk made (λ f. f.roads ≡ graph.now)) }
        ensures order { IfOk result (λ made. IfOk made (λ f. f.factor.order ≡ self.now.factor.order)) }
        ensures fits { IfOk result (λ made. IfOk made (λ f. Fits graph.now self.now)) }
        ensures unfit { IfOk result (λ made. IfErr made (λ why. IsReason why graph.now self.now)) }
        ensures others { IfOk result (λ made. IfErr made (λ _. JoinsNoOthers graph.now self.now.roads →
            ⊥)) }
        ensures halts { IfErr result (λ e. e ≡ Halted → IsSome stop.now) }
    {
        self.holds();
        let fit = self.fits(graph, stop)?;
        if let Err(why) = fit {
            return Ok(Err(why));
        }
        let links = Links::Needed;
        let weighing = self.weighed_anew(alloc, algebra, graph, stop)?;
        let factors = weighing.prune(alloc, Making { links, stop })?;
        Ok(Ok(factors.sharing(self)?))
    }
}
