//! A breadth-first search over tight arcs, level by level: from the vertices at k hops to those at
//! k + 1.

ghost use Rattle.std.specs.Prelude.{◌≡◌, ◌+◌, ◌≤◌, ◌<◌, All, IfErr, IfOk, None, OnOk, cond, eqb, length, replicate};
ghost use Rattle.road_graph.specs.GraphData.{HasVertex};
ghost use Rattle.path_algebra.specs.Walks.{label_of};
ghost use Rattle.halting.specs.Halting.{CanHalt};
ghost use Rattle.route_tree.specs.Levels.{IsMarked, hops_if, is_near, lesser, next_if, parents_if, unreached};
ghost use Rattle.route_tree.specs.BreadthFirst.{IsSameSearch, VisitsVertex, VisitsAll, VisitsLevel, passes_road};
ghost use Rattle.halting.specs.declared.unfinished.Unfinished.TheVariants.{Halted};

use crate::hops_and_parents::Tree;
use crate::region::Region;
use crate::slot::NumberSlot;
use crate::tightness::is_tight;
use halting::{Halt, Unfinished};
use path_algebra::{Labels, PathAlgebra};
use road_graph::{Memory, OutGraph, OutRoad, Vertex};
use std::alloc::{AllocError, Global};
use std::marker::Model;
use std::mem;

/// The search in progress. Vertices get their hops in ascending order of hops.
#[derive(Drop)]
pub(crate) struct BreadthFirst<'g, A: PathAlgebra> {
    algebra: A,
    graph: &'g OutGraph,
    labels: &'g Labels<A::Value>,
    region: &'g Region,
    hops: Vec<NumberSlot>,
    parents: Vec<NumberSlot>,
    /// The vertices that were found last, from which the search goes on.
    next: Vec<Vertex>,
    /// The hops of the vertices that are visited.
    level: u32,
}

impl<'g, A: PathAlgebra> Model for BreadthFirst<'g, A> {
    ghost use Rattle.route_tree.specs.BreadthFirst.{SearchState, IsSearch};

    ghost Value = { SearchState A A.Value };

    ghost view = { λ s. record { over = record { algebra = s.algebra; roads = s.graph.now; labels = s.labels.now }; region = s.region.now; hops = s.hops.items; parents = s.parents.items; next = s.next.items; level = s.level } };

    ghost invariant = { λ s. IsSearch s.graph.now s.labels.now s.hops.items s.parents.items s.next.items s.level };
}

/// The lesser of two parents, or the only one.
fn lesser(old: NumberSlot, new: Vertex) -> NumberSlot
    requires { new < 4294967295 }
    ensures { result ≡ lesser old new }
{
    match old.get() {
        Some(u) if u <= new.0 => old,
        _ => NumberSlot::some(new.0),
    }
}

impl<'g, A: PathAlgebra> BreadthFirst<'g, A> {
    /// A search whose first level is the sources. Sources may repeat. `blank` is room for the hops
    /// and the parents.
    pub(crate) fn open(
        alloc: Global,
        algebra: A,
        graph: &'g OutGraph,
        labels: &'g Labels<A::Value>,
        region: &'g Region,
        sources: &[Vertex],
        blank: Tree,
    ) -> Result<Self, Memory>
        requires sources { All (HasVertex graph.now) sources.now }
        requires labels { length labels.now ≡ graph.now.vertices }
        requires hops { blank.hops ≡ replicate graph.now.vertices None }
        requires parents { blank.parents ≡ replicate graph.now.vertices None }
        ensures over { IfOk result (λ s. s.over ≡ record {
          algebra = algebra;
          roads = graph.now;
          labels = labels.now;
        }) }
        ensures region { IfOk result (λ s. s.region ≡ region.now) }
        ensures level { IfOk result (λ s. s.level ≡ 0) }
        ensures marked { IfOk result (λ s. IsMarked graph.now.vertices sources.now sources.now
            s.hops s.next) }
        ensures parents { IfOk result (λ s. s.parents ≡ replicate graph.now.vertices None) }
    {
        graph.holds();
        let (hops, parents) = blank.into_parts();
        let next = Vec::new(alloc);
        let mut search = BreadthFirst {
            algebra,
            graph,
            labels,
            region,
            hops,
            parents,
            next,
            level: 0,
        };
        for s in sources {
            search.mark(*s)?;
        }
        Ok(search)
    }

    /// The hops of a vertex so far.
    fn hops(&self, v: Vertex) -> Option<u32>
        requires { HasVertex self.now.over.roads v }
        ensures { result ≡ label_of self.now.hops v }
    {
        self.hops[v.0 as usize - 1].get()
    }

    /// The hops of the vertices that are found from those that are visited.
    fn far(&self) -> u32
        ensures far { result ≡ self.now.level + 1 }
        ensures fits { result < 4294967295 }
    {
        self.level + 1
    }

    /// Gives a source 0 hops, and no parent, if it has no hops yet.
    fn mark(&mut self, v: Vertex) -> Result<(), Memory>
        requires { HasVertex self.old.over.roads v }
        ensures hops { OnOk result (self.new.hops ≡ hops_if 0 self.old.hops v
            (label_of self.old.hops v)) }
        ensures parents { OnOk result (self.new.parents ≡ self.old.parents) }
        ensures next { OnOk result (self.new.next ≡ next_if self.old.next v
            (label_of self.old.hops v)) }
        ensures same { OnOk result (IsSameSearch self.old self.new) }
    {
        if self.hops(v).is_none() {
            self.next.push(v).map_err(AllocError::from)?;
            self.hops[v.0 as usize - 1] = NumberSlot::some(0);
        }
        Ok(())
    }

    /// Whether a tight arc from a vertex that is visited could change the hops or the parent of
    /// this one.
    fn is_near(&self, v: Vertex) -> bool
        requires { HasVertex self.now.over.roads v }
        ensures { result ≡ is_near (label_of self.now.hops v) (self.now.level + 1) }
    {
        match self.hops(v) {
            Some(k) => k == self.far(),
            None => true,
        }
    }

    /// Notes a tight arc from `tail`, which is visited, to this vertex.
    fn reach(&mut self, v: Vertex, tail: Vertex) -> Result<(), Memory>
        requires head { HasVertex self.old.over.roads v }
        requires tail { HasVertex self.old.over.roads tail }
        ensures hops { OnOk result (self.new.hops ≡ hops_if (self.old.level + 1) self.old.hops v
            (label_of self.old.hops v)) }
        ensures parents { OnOk result (self.new.parents ≡ parents_if (self.old.level + 1)
            self.old.parents v tail (label_of self.old.hops v)) }
        ensures next { OnOk result (self.new.next ≡ next_if self.old.next v
            (label_of self.old.hops v)) }
        ensures same { OnOk result (IsSameSearch self.old self.new) }
        ensures size { OnOk result (unreached self.new.hops + length self.new.next ≡ unreached
            self.old.hops + length self.old.next) }
    {
        let i = v.0 as usize - 1;
        let far = self.far();
        match self.hops(v) {
            None => {
                self.next.push(v).map_err(AllocError::from)?;
                self.hops[i] = NumberSlot::some(far);
                self.parents[i] = NumberSlot::some(tail.0);
            }
            Some(k) if k == far => self.parents[i] = lesser(self.parents[i], tail),
            Some(_) => {}
        }
        Ok(())
    }

    /// Goes along a road from `tail`, whose label is `near`, if it is tight and leads into the
    /// region.
    fn try_road(
        &mut self,
        tail: Vertex,
        near: Option<A::Value>,
        road: OutRoad,
    ) -> Result<(), Memory>
        requires tail { HasVertex self.old.over.roads tail }
        requires head { HasVertex self.old.over.roads road.head }
        ensures hops { OnOk result
            (self.new.hops ≡ cond (passes_road (A.meaning self.old.over.algebra) self.old near
            road.head road.weight) (hops_if (self.old.level + 1) self.old.hops road.head
            (label_of self.old.hops road.head)) self.old.hops) }
        ensures parents { OnOk result
            (self.new.parents ≡ cond (passes_road (A.meaning self.old.over.algebra) self.old near
            road.head road.weight) (parents_if (self.old.level + 1) self.old.parents road.head tail
            (label_of self.old.hops road.head)) self.old.parents) }
        ensures next { OnOk result
            (self.new.next ≡ cond (passes_road (A.meaning self.old.over.algebra) self.old near
            road.head road.weight) (next_if self.old.next road.head
            (label_of self.old.hops road.head)) self.old.next) }
        ensures same { OnOk result (IsSameSearch self.old self.new) }
        ensures size { OnOk result (unreached self.new.hops + length self.new.next ≡ unreached
            self.old.hops + length self.old.next) }
    {
        if self.is_near(road.head)
            && self.region.has(road.head)
            && is_tight(self.algebra, near, road.weight, self.labels.of(road.head))
        {
            self.reach(road.head, tail)
        } else {
            Ok(())
        }
    }

    /// Visits a vertex: goes along the roads that leave it.
    fn visit(&mut self, v: Vertex) -> Result<(), Memory>
        requires { HasVertex self.old.over.roads v }
        ensures visits { OnOk result (VisitsVertex (A.meaning self.old.over.algebra) v self.old
            self.new) }
        ensures same { OnOk result (IsSameSearch self.old self.new) }
        ensures size { OnOk result (unreached self.new.hops + length self.new.next ≡ unreached
            self.old.hops + length self.old.next) }
    {
        let graph = self.graph;
        let near = self.labels.of(v);
        for road in graph.roads_from(v) {
            self.try_road(v, near, *road)?;
        }
        Ok(())
    }

    /// Visits each vertex of a list, each a step of what may be told to give up.
    fn visit_all(&mut self, list: &[Vertex], halt: &mut Halt<'_>) -> Result<(), Unfinished>
        requires { All (HasVertex self.old.over.roads) list.now }
        ensures visits { OnOk result (VisitsAll (A.meaning self.old.over.algebra) list.now self.old
            self.new) }
        ensures same { OnOk result (IsSameSearch self.old self.new) }
        ensures size { OnOk result (unreached self.new.hops + length self.new.next ≡ unreached
            self.old.hops + length self.old.next) }
        ensures halts { IfErr result (λ e. e ≡ Halted → CanHalt halt.old) }
        ensures kind { CanHalt halt.new → CanHalt halt.old }
    {
        for v in list {
            self.visit(*v)?;
            if halt.is_due() {
                return Err(Unfinished::Halted);
            }
        }
        Ok(())
    }

    /// Whether no vertex is left to visit.
    pub(crate) fn is_done(&self) -> bool
        ensures { result ≡ eqb (length self.now.next) 0 }
    {
        self.next.is_empty()
    }

    /// Visits the vertices that were found last; those that it finds are the next level.
    pub(crate) fn visit_level(
        &mut self,
        alloc: Global,
        halt: &mut Halt<'_>,
    ) -> Result<(), Unfinished>
        requires waiting { 1 ≤ length self.old.next }
        ensures visits { OnOk result (VisitsLevel (A.meaning self.old.over.algebra) self.old
            self.new) }
        ensures over { OnOk result (self.new.over ≡ self.old.over) }
        ensures region { OnOk result (self.new.region ≡ self.old.region) }
        ensures fewer { OnOk result (unreached self.new.hops + length self.new.next < unreached
            self.old.hops + length self.old.next) }
        ensures halts { IfErr result (λ e. e ≡ Halted → CanHalt halt.old) }
        ensures kind { CanHalt halt.new → CanHalt halt.old }
    {
        let level = mem::replace(&mut self.next, Vec::new(alloc));
        self.visit_all(&level, halt)?;
        self.level += 1;
        Ok(())
    }

    /// The hops and the parents.
    pub(crate) fn into_parts(self) -> (Vec<NumberSlot>, Vec<NumberSlot>)
        ensures hops { result.0.items ≡ self.entry.hops }
        ensures parents { result.1.items ≡ self.entry.parents }
    {
        (self.hops, self.parents)
    }
}
