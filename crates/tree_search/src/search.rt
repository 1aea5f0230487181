//! A search from a list of sources: vertices are settled by value and then by hops, each once.

ghost use Rattle.std.specs.Prelude.{◌≡◌, ℕ, ◌+◌, ◌≤◌, All, length, OnOk, IfOk};
ghost use Rattle.road_graph.specs.GraphData.{HasVertex};
ghost use Rattle.path_algebra.specs.Walks.{label_of};
ghost use Rattle.path_plain.specs.Noting.{AreNoted};
ghost use Rattle.tree_search.specs.Marks.{hops_in, marked, marked_if, parents_in, unsettled, values_in};
ghost use Rattle.route_tree.specs.Tree.{IsLinked};
ghost use Rattle.tree_search.specs.Opening.{AreOpening};
ghost use Rattle.tree_search.specs.Searching.{Forgoes, IsBlank, IsSameSearch, Relaxes, Proceeds};

use crate::hops_and_place::HopsAndPlace;
use crate::mark::Mark;
use crate::step::Step;
use crate::table::{MarkTable, put_back};
use path_algebra::{Labels, PathAlgebra, laws_hold};
use ranked_queue::RankedQueue;
use road_graph::{Memory, OutGraph, Vertex};
use route_tree::Tree;
use std::alloc::Global;
use std::marker::Model;
use std::snapshot::Snapshot;

/// The mark of each vertex, whether it is settled, and the queue of those that are open.
#[derive(Drop)]
pub(crate) struct Search<A: PathAlgebra> {
    algebra: A,
    graph: Snapshot<OutGraph>,
    marks: MarkTable<A>,
    settled: Vec<bool>,
    queue: RankedQueue<A, HopsAndPlace>,
}

impl<A: PathAlgebra> Model for Search<A> {
    ghost use Rattle.std.specs.Prelude.{length};
    ghost use Rattle.tree_search.specs.Searching.{SearchState, IsSearch};

    ghost Value = { SearchState A A.Value };

    ghost view = { λ s. record { algebra = s.algebra; roads = s.graph.value; marks = s.marks; settled = s.settled.items; waiting = length s.queue } };

    ghost invariant = { λ s. IsSearch (λ o. (o.value, o.rank.hops)) (λ o. o.rank.place) A.order s.graph.value s.marks s.settled.items s.queue };
}

impl<A: PathAlgebra> Search<A> {
    /// A search in which no vertex has a mark.
    pub(crate) fn new(alloc: Global, algebra: A, graph: &OutGraph) -> Result<Self, Memory>
        ensures algebra { IfOk result (λ s. s.algebra ≡ algebra) }
        ensures graph { IfOk result (λ s. s.roads ≡ graph.now) }
        ensures blank { IfOk result IsBlank }
    {
        graph.holds();
        let n = graph.vertices() as usize;
        let marks = MarkTable::new(alloc, n)?;
        let settled: Vec<bool> = vec![in alloc; false; n]?;
        Ok(Search {
            algebra,
            graph: Snapshot::of(graph),
            marks,
            settled,
            queue: RankedQueue::new(alloc),
        })
    }

    /// Makes it a search by this algebra in which no vertex has a mark. Each vertex that has one,
    /// or is settled, is on the list.
    pub(crate) fn clear(&mut self, algebra: A, list: &[Vertex])
        requires { AreNoted self.old.roads.vertices list.now self.old.marks self.old.settled }
        ensures algebra { self.new.algebra ≡ algebra }
        ensures roads { self.new.roads ≡ self.old.roads }
        ensures blank { IsBlank self.new }
    {
        self.algebra = algebra;
        put_back(&mut self.marks, &mut self.settled, list);
        self.queue.clear();
    }

    /// Gives each source the origin, no hops and no parent. Sources may repeat.
    pub(crate) fn start(&mut self, sources: &[Vertex]) -> Result<(), Memory>
        requires blank { IsBlank self.old }
        requires sources { All (HasVertex self.old.roads) sources.now }
        ensures opening { OnOk result (AreOpening (A.meaning self.old.algebra).origin
            self.old.roads.vertices sources.now self.new.marks) }
        ensures same { OnOk result (IsSameSearch self.old self.new) }
    {
        let algebra = self.algebra;
        for source in sources {
            self.offer(*source, algebra.origin(), 0, 0)?;
        }
        Ok(())
    }

    /// Gives a vertex this value, hops and parent if they are better than its mark, and puts it
    /// into the queue if its key is better.
    fn offer(&mut self, v: Vertex, value: A::Value, hops: u32, parent: u32) -> Result<(), Memory>
        requires vertex { HasVertex self.old.roads v }
        requires hops { hops + unsettled self.old.settled ≤ self.old.roads.vertices }
        requires parent { parent ≤ self.old.roads.vertices }
        ensures marks { OnOk result (self.new.marks ≡ marked A.order self.old.marks v
            (record { value = value; hops = hops; parent = parent })) }
        ensures same { OnOk result (IsSameSearch self.old self.new) }
        ensures few { OnOk result (self.new.waiting ≤ self.old.waiting + 1) }
    {
        let i = v.0 as usize - 1;
        let new = Mark {
            value,
            hops,
            parent,
        };
        if self.marks.is_better(i, new) {
            let place = v.0 - 1;
            self.queue.push(value, HopsAndPlace { hops, place })?;
            self.marks.set(i, new);
        } else if self.marks.is_lesser(i, new) {
            self.marks.set(i, new);
        }
        Ok(())
    }

    /// Offers what an extension gave, if it was not refused.
    fn offer_if(
        &mut self,
        v: Vertex,
        extended: Option<A::Value>,
        hops: u32,
        parent: u32,
    ) -> Result<(), Memory>
        requires vertex { HasVertex self.old.roads v }
        requires hops { hops + unsettled self.old.settled ≤ self.old.roads.vertices }
        requires parent { parent ≤ self.old.roads.vertices }
        ensures marks { OnOk result (self.new.marks ≡ marked_if A.order self.old.marks v extended
            hops parent) }
        ensures same { OnOk result (IsSameSearch self.old self.new) }
        ensures few { OnOk result (self.new.waiting ≤ self.old.waiting + 1) }
    {
        match extended {
            Some(z) => self.offer(v, z, hops, parent),
            None => Ok(()),
        }
    }

    /// Extends x along each arc that leaves v, and offers the result, with one hop more and v as
    /// its parent, to the arc's head.
    fn relax(&mut self, graph: &OutGraph, v: Vertex, x: A::Value, hops: u32) -> Result<(), Memory>
        requires graph { graph.now ≡ self.old.roads }
        requires vertex { HasVertex self.old.roads v }
        requires hops { hops + 1 + unsettled self.old.settled ≤ self.old.roads.vertices }
        ensures relaxes { OnOk result (Relaxes (A.meaning self.old.algebra) self.old.roads v x hops
            self.old.marks self.new.marks) }
        ensures same { OnOk result (IsSameSearch self.old self.new) }
        ensures few { OnOk result (self.new.waiting ≤ self.old.waiting + length self.old.roads.arcs) }
    {
        let algebra = self.algebra;
        laws_hold(algebra);
        graph.holds();
        let next = hops + 1;
        for road in graph.roads_from(v) {
            self.offer_if(road.head, algebra.extend(x, road.weight), next, v.0)?;
        }
        Ok(())
    }

    /// Settles the vertex of the first entry, or drops the entry if its vertex is settled already.
    /// Ended if the queue is empty.
    pub(crate) fn settle_next(&mut self, graph: &OutGraph) -> Result<Step, Memory>
        requires { graph.now ≡ self.old.roads }
        ensures { IfOk result (λ step. Proceeds A.order (A.meaning self.old.algebra) step self.old
            self.new) }
    {
        let Some(top) = self.queue.pop() else {
            return Ok(Step::Ended);
        };
        let i = top.rank.place as usize;
        if self.settled[i] {
            return Ok(Step::Dropped);
        }
        self.settled[i] = true;
        let v = Vertex(top.rank.place + 1);
        self.relax(graph, v, top.value, top.rank.hops)?;
        Ok(Step::Settled(v))
    }

    /// Settles the vertex of the first entry as it is, or drops the entry if its vertex is settled
    /// already. Ended if the queue is empty.
    pub(crate) fn forgo_next(&mut self) -> Step
        ensures { Forgoes A.order (A.meaning self.old.algebra) result self.old self.new }
    {
        let Some(top) = self.queue.pop() else {
            return Step::Ended;
        };
        let i = top.rank.place as usize;
        if self.settled[i] {
            return Step::Dropped;
        }
        self.settled[i] = true;
        Step::Settled(Vertex(top.rank.place + 1))
    }

    /// The value of a vertex, if it has a mark.
    pub(crate) fn value(&self, v: Vertex) -> Option<A::Value>
        requires { HasVertex self.now.roads v }
        ensures { result ≡ label_of (values_in self.now.marks) v }
    {
        self.marks.value(v.0 as usize - 1)
    }

    /// The hops of a vertex, if it has a mark.
    pub(crate) fn hops(&self, v: Vertex) -> Option<u32>
        requires { HasVertex self.now.roads v }
        ensures { result ≡ label_of (hops_in self.now.marks) v }
    {
        self.marks.hops(v.0 as usize - 1)
    }

    /// The parent of a vertex, if it has a mark with one.
    pub(crate) fn parent(&self, v: Vertex) -> Option<Vertex>
        requires { HasVertex self.now.roads v }
        ensures { result ≡ label_of (parents_in self.now.marks) v }
    {
        match self.marks.parent(v.0 as usize - 1) {
            Some(parent) => Some(Vertex(parent)),
            None => None,
        }
    }

    /// The values as labels, the hops and parents as a tree.
    pub(crate) fn into_labels_and_tree(self) -> (Labels<A::Value>, Tree)
        requires { IsLinked (record { hops = hops_in self.marks; parents = parents_in self.marks }) }
        ensures labels { result.0 ≡ values_in self.marks }
        ensures tree { result.1 ≡ record {
          hops = hops_in self.marks;
          parents = parents_in
              self.marks;
        } }
    {
        self.marks.into_labels_and_tree()
    }
}
