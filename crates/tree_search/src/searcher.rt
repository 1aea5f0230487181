//! Trees in one graph, one after the other, at a cost of what they reach: the lists of the search
//! stay.

ghost use Rattle.std.specs.Prelude.{◌≡◌, [], All, false, IfOk, IsTrue, OnOk};
ghost use Rattle.road_graph.specs.GraphData.{HasVertex};
ghost use Rattle.path_algebra.specs.Walks.{AreBest, label_of};
ghost use Rattle.halting.specs.Halting.{CanHalt};
ghost use Rattle.path_plain.specs.Noting.{AreNoted};
ghost use Rattle.route_tree.specs.Tree.{IsTree, hops_of, parent_of};
ghost use Rattle.tree_search.specs.Marks.{hops_in, parents_in, values_in};
ghost use Rattle.tree_search.specs.Nearest.{AreNearest};
ghost use Rattle.tree_search.specs.Searching.{AreSettledOn, IsBlank, listed_after};

use crate::search::Search;
use crate::step::Step;
use halting::Halt;
use path_algebra::{PathAlgebra, laws_hold};
use road_graph::{Memory, OutGraph, Vertex};
use std::alloc::{AllocError, Global};
use std::marker::Model;

/// A search for the trees of a graph. Its lists of all vertices are made once.
///
/// Between two searches only what the first has reached is put back.
#[derive(Drop)]
pub struct TreeSearcher<A: PathAlgebra> {
    search: Search<A>,
    /// The vertices in the order in which they were settled.
    reached: Vec<Vertex>,
}

impl<A: PathAlgebra> Model for TreeSearcher<A> {
    ghost use Rattle.path_plain.specs.Noting.{AreNoted};
    ghost use Rattle.tree_search.specs.Marks.{hops_in, parents_in, values_in};
    ghost use Rattle.tree_search.specs.Searcher.{TreeSearcherState};

    ghost Value = { TreeSearcherState A.Value };

    ghost view = { λ s. record { roads = s.search.roads; reached = s.reached.items; labels = values_in s.search.marks; tree = record { hops = hops_in s.search.marks; parents = parents_in s.search.marks } } };

    ghost invariant = { λ s. AreNoted s.search.roads.vertices s.reached.items s.search.marks s.search.settled };
}

/// Puts the vertex of a step at the end of a list, if the step settled one.
fn note(reached: &mut Vec<Vertex>, step: &Step) -> Result<(), Memory>
    ensures { OnOk result (reached.new.items ≡ listed_after step.now reached.old.items) }
{
    if let Step::Settled(v) = step {
        reached.push(*v).map_err(AllocError::from)?;
    }
    Ok(())
}

/// Settles vertices from some sources on until none waits, which is true, or it is to give up, and
/// lists them in this order.
fn settle_all<A: PathAlgebra>(
    algebra: A,
    search: &mut Search<A>,
    graph: &OutGraph,
    sources: &[Vertex],
    reached: &mut Vec<Vertex>,
    halt: &mut Halt<'_>,
) -> Result<bool, Memory>
    requires algebra { search.old.algebra ≡ algebra }
    requires graph { search.old.roads ≡ graph.now }
    requires sources { All (HasVertex graph.now) sources.now }
    requires blank { IsBlank search.old }
    requires empty { reached.old.items ≡ [] }
    ensures roads { OnOk result (search.new.roads ≡ graph.now) }
    ensures reached { IfOk result (λ ended. IsTrue ended → AreNearest (A.meaning algebra) graph.now
        sources.now reached.new.items) }
    ensures labels { IfOk result (λ ended. IsTrue ended → AreBest (A.meaning algebra) graph.now
        sources.now (values_in search.new.marks)) }
    ensures tree { IfOk result (λ ended. IsTrue ended → IsTree (A.meaning algebra) graph.now
        sources.now (record {
          hops = hops_in search.new.marks;
          parents = parents_in
              search.new.marks;
        })) }
    ensures noted { IfOk result (λ ended. IsTrue ended → AreNoted graph.now.vertices
        reached.new.items search.new.marks search.new.settled) }
    ensures settled { IfOk result (λ ended. ended ≡ false → AreSettledOn graph.now
        search.new.settled reached.new.items) }
    ensures halts { IfOk result (λ ended. ended ≡ false → CanHalt halt.old) }
{
    laws_hold(algebra);
    graph.holds();
    search.start(sources)?;
    loop {
        let step = search.settle_next(graph)?;
        if step.is_end() {
            return Ok(true);
        }
        note(reached, &step)?;
        if halt.is_due() {
            return Ok(false);
        }
    }
}

/// Takes all entries off the queue, and lists their vertices too: then each vertex with a mark is
/// on the list.
fn list_waiting<A: PathAlgebra>(
    search: &mut Search<A>,
    reached: &mut Vec<Vertex>,
) -> Result<(), Memory>
    requires { AreSettledOn search.old.roads search.old.settled reached.old.items }
    ensures roads { search.new.roads ≡ search.old.roads }
    ensures noted { OnOk result (AreNoted search.old.roads.vertices reached.new.items
        search.new.marks search.new.settled) }
{
    loop {
        let step = search.forgo_next();
        if step.is_end() {
            return Ok(());
        }
        note(reached, &step)?;
    }
}

impl<A: PathAlgebra> TreeSearcher<A> {
    /// A searcher for the trees of this graph.
    pub fn new(alloc: Global, algebra: A, graph: &OutGraph) -> Result<Self, Memory>
        ensures { IfOk result (λ s. s.roads ≡ graph.now) }
    {
        let search = Search::new(alloc, algebra, graph)?;
        Ok(TreeSearcher {
            search,
            reached: Vec::new(alloc),
        })
    }

    /// Finds the vertices that are reached from some sources, the nearest first, with their labels
    /// and their tree, unless it is to give up before. With the searcher comes whether they are
    /// found. The only error is `Memory`; the searcher is lost with it.
    pub fn solve_unless(
        self,
        algebra: A,
        graph: &OutGraph,
        sources: &[Vertex],
        halt: &mut Halt<'_>,
    ) -> Result<(Self, bool), Memory>
        requires graph { graph.now ≡ self.roads }
        requires sources { All (HasVertex graph.now) sources.now }
        ensures roads { IfOk result (λ s. s.0.roads ≡ graph.now) }
        ensures reached { IfOk result (λ s. IsTrue s.1 → AreNearest (A.meaning algebra) graph.now
            sources.now s.0.reached) }
        ensures labels { IfOk result (λ s. IsTrue s.1 → AreBest (A.meaning algebra) graph.now
            sources.now s.0.labels) }
        ensures tree { IfOk result (λ s. IsTrue s.1 → IsTree (A.meaning algebra) graph.now sources.now
            s.0.tree) }
        ensures halts { IfOk result (λ s. s.1 ≡ false → CanHalt halt.old) }
    {
        let TreeSearcher {
            mut search,
            mut reached,
        } = self;
        search.clear(algebra, &reached);
        reached.clear();
        let is_found = settle_all(algebra, &mut search, graph, sources, &mut reached, halt)?;
        if !is_found {
            list_waiting(&mut search, &mut reached)?;
        }
        Ok((TreeSearcher { search, reached }, is_found))
    }

    /// The vertices that the last search reached, in the order in which it settled them.
    pub fn reached(&self) -> &[Vertex]
        ensures { result.now ≡ self.now.reached }
    {
        &self.reached
    }

    /// The label of a vertex.
    pub fn value(&self, v: Vertex) -> Option<A::Value>
        requires { HasVertex self.now.roads v }
        ensures { result ≡ label_of self.now.labels v }
    {
        self.search.value(v)
    }

    /// The hops of a vertex.
    pub fn hops(&self, v: Vertex) -> Option<u32>
        requires { HasVertex self.now.roads v }
        ensures { result ≡ hops_of self.now.tree v }
    {
        self.search.hops(v)
    }

    /// The parent of a vertex.
    pub fn parent(&self, v: Vertex) -> Option<Vertex>
        requires { HasVertex self.now.roads v }
        ensures { result ≡ parent_of self.now.tree v }
    {
        self.search.parent(v)
    }
}
