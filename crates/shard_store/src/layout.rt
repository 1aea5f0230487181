//! What a part is made for, and what is counted before its tables are made.
ghost use Rattle.std.specs.Prelude.{◌≡◌, ◌≢◌, ◌↔◌, ℕ, ◌+◌, ◌<◌, ◌≤◌, ◌^◌, eqb, cond, List, [], ◌∷◌, ◌++◌, get_or, length, IsTrue, IfOk};
ghost use Rattle.road_graph.specs.GraphData.{HasVertex, ListsArcsFrom};
ghost use Rattle.shard_store.specs.Tables.{placed};
ghost use Rattle.shard_store.specs.Setup.{network_of, place_in, IsPlanned};
ghost use Rattle.shard_store.specs.Outgoing.{local_vertices, outgoing};
ghost use Rattle.shard_store.specs.Totals.{total};
ghost use Rattle.shard_store.specs.Layout.{is_first, IsExtent, AreOffsets, CountsAll};

use crate::counted_plan::CountedPlan;
use crate::local_vertices::LocalVertices;
use crate::plan::Plan;
use crate::shard::Shard;
use crate::tables::VertexTable;
use road_graph::{Graph, Vertex};
use std::alloc::{AllocError, Global};
use std::marker::Model;

/// The first and the last vertex of a shard, and how many it has. If it has none, these are 1 and
/// 0.
#[derive(Clone, Copy)]
struct Extent {
    first: Vertex,
    last: Vertex,
    count: u32,
}

impl Extent {
    /// With one more vertex after the others.
    fn up_to(self, v: Vertex) -> Extent
        requires { self.count < 2 ^ 26 }
        ensures { (vs : List ℕ) → IsExtent vs self → IsExtent (vs ++ v ∷ []) result }
    {
        Extent {
            first: if self.count == 0 { v } else { self.first },
            last: v,
            count: self.count + 1,
        }
    }

    /// Whether they are consecutive.
    fn is_run(self) -> bool
        requires { (self.first ≤ 2 ^ 26) × (self.last ≤ 2 ^ 26) × (self.count ≤ 2 ^ 26) }
        ensures { IsTrue result ↔ self.first + self.count ≡ self.last + 1 }
    {
        self.first.0 + self.count == self.last.0 + 1
    }
}

/// A shard of a diffusion, whatever its algebra.
#[derive(Debug, Drop)]
pub struct ShardLayout<'g> {
    pub graph: &'g Graph,
    pub plan: &'g Plan,
    pub source: Vertex,
    pub shard: Shard,
}

impl<'g> Model for ShardLayout<'g> {
    ghost use Rattle.shard_store.specs.Layout.{ShardLayoutData, layout_view};
    ghost use Rattle.shard_store.specs.Setup.{IsPlanned, setup_of};
    ghost use Rattle.shard_store.specs.declared.queue_order.QueueOrder.TheVariants.{Arrival};

    ghost Value = { ShardLayoutData };

    ghost view = { λ w. layout_view w.graph.now w.source w.plan.now w.shard };

    ghost invariant = { λ w. IsPlanned (setup_of (tt {0}) w.graph.now w.source w.plan.now Arrival) w.shard };
}

impl<'g> ShardLayout<'g> {
    /// Whether the source is a vertex of the shard.
    pub fn is_first(&self) -> bool
        ensures { result ≡ is_first self.now.setup self.now.shard }
    {
        self.plan.shard_of(self.source) == self.shard
    }

    /// What holds of every layout: the plan is for the graph and has the shard, and the source is a
    /// vertex of the graph.
    fn holds(&self)
        ensures { IsPlanned self.now.setup self.now.shard }
    {
        let _graph = self.graph; // the invariant is known of a value that is read
    }

    /// Whether a vertex is one of the shard.
    fn has(&self, v: Vertex) -> bool
        requires { HasVertex self.now.setup.diffusion.roads v }
        ensures { result ≡ eqb (place_in self.now.setup v) self.now.shard }
    {
        self.plan.shard_of(v) == self.shard
    }

    /// The first and the last vertex of the shard, and how many it has.
    fn extent(&self) -> Extent
        ensures extent { IsExtent (placed (place_in self.now.setup) self.now.shard 1
            self.now.setup.diffusion.roads.vertices) result }
        ensures within { (1 ≤ result.first) × (result.first ≤ 2 ^ 26) × (result.last ≤ 2 ^ 26) ×
            (result.count ≤ 2 ^ 26) }
    {
        let mut extent = Extent {
            first: Vertex(1),
            last: Vertex(0),
            count: 0,
        };
        for i in 0..self.graph.vertices() {
            let v = Vertex(i + 1);
            if self.has(v) {
                extent = extent.up_to(v);
            }
        }
        extent
    }

    /// The environment, then the vertices of the shard, ascending.
    pub fn own_vertices(&self, alloc: Global) -> Result<LocalVertices, AllocError>
        ensures { IfOk result (λ own. own ≡ local_vertices self.now.setup self.now.shard) }
    {
        let extent = self.extent();
        let Extent { first, count, .. } = extent;
        if extent.is_run() {
            return Ok(LocalVertices::run(first, count));
        }
        let own = self.list_own(alloc, count as usize + 1)?;
        Ok(LocalVertices::listed(own))
    }

    /// The list of them, made with this capacity.
    fn list_own(&self, alloc: Global, capacity: usize) -> Result<Vec<Vertex>, AllocError>
        ensures { IfOk result (λ own. own.items ≡ local_vertices self.now.setup self.now.shard) }
    {
        let mut own = Vec::with_capacity(alloc, capacity)?;
        own.push(Vertex(0))?;
        for i in 0..self.graph.vertices() {
            let v = Vertex(i + 1);
            if self.has(v) {
                own.push(v)?;
            }
        }
        Ok(own)
    }

    /// How many arcs leave a vertex; one leaves the environment.
    fn count_out(&self, v: Vertex) -> usize
        requires { v ≤ self.now.setup.diffusion.roads.vertices }
        ensures { result ≡ length (outgoing (network_of self.now.setup) v) }
    {
        if v.0 == 0 { 1 } else { self.graph.out(v).len() }
    }

    /// Writes where the arcs out of each own vertex begin, and returns how many arcs there are in
    /// all.
    pub fn write_starts<V: Copy>(&self, own: &LocalVertices, vertices: &mut VertexTable<V>) -> usize
        requires own { own.now ≡ local_vertices self.now.setup self.now.shard }
        requires long { length vertices.old.offsets ≡ length own.now }
        ensures rest { vertices.new ≡ record vertices.old { offsets = vertices.new.offsets } }
        ensures starts { AreOffsets (network_of self.now.setup) own.now vertices.new.offsets result }
        // The environment has one.
        ensures some { 1 ≤ result }
    {
        self.holds();
        let mut count = 0;
        for j in 0..own.len() {
            vertices.set_offset(j, count as u32);
            count += self.count_out(own.vertex(j));
        }
        count
    }

    /// How many arcs there are between the shard and each shard; for the shard itself, how many are
    /// within it.
    pub fn capacities(&self, alloc: Global, counted: &CountedPlan) -> Result<Vec<usize>, AllocError>
        requires { counted.now ≡ record {
          roads = self.now.setup.diffusion.roads;
          plan = self.now.setup.plan;
        } }
        ensures { IfOk result (λ capacities. CountsAll self.now capacities.items) }
    {
        self.holds();
        let shard = self.shard;
        let mut capacities = counted.row(alloc, shard)?;
        if self.is_first() {
            capacities[shard.0 as usize] += 1;
        }
        Ok(capacities)
    }
}

/// The sum of some numbers.
pub fn sum_of(numbers: &[usize]) -> usize
    requires { total (λ n. n) numbers.now ≤ 2 ^ 32 }
    ensures { result ≡ total (λ n. n) numbers.now }
{
    let mut sum = 0;
    for number in numbers {
        sum += *number;
    }
    sum
}
