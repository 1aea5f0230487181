//! Reads and writes of the tables, by vertex and arc with their places.
ghost use Rattle.std.specs.Prelude.{◌≡◌, ◌≢◌, suc, ◌+◌, ◌<◌, ◌≤◌, length, get_or, set, Option, Some, None, IsSome, IfSome, true, false};
ghost use Rattle.road_graph.specs.GraphData.{arc_of, road_of};
ghost use Rattle.scholten_core.specs.Deficit.{busy_out};
ghost use Rattle.shard_store.specs.Setup.{network_of, place_in};
ghost use Rattle.shard_part.specs.PartState.{state_in, IsArc};
ghost use Rattle.shard_store.specs.Outgoing.{outgoing};
ghost use Rattle.shard_part.specs.LocalInvariant.{IsClear};
ghost use Rattle.shard_part.specs.Moves.{IsPlace, IsArcRow};

use crate::state::PartState;
use path_algebra::PathAlgebra;
use road_graph::{ArcNo, OutRoad, Vertex};
use scholten_core::{head_of, tail_of};
use shard_store::{ArcPlace, Shard, VertexPlace};

impl<'g, A: PathAlgebra> PartState<'g, A> {
    /// A vertex with its place.
    pub(crate) fn place(&self, v: Vertex) -> VertexPlace
        requires within { v ≤ self.now.setup.diffusion.roads.vertices }
        requires here { v ≢ 0 → place_in self.now.setup v ≡ self.now.shard }
        ensures vertex { result.vertex ≡ v }
        ensures place { IsPlace self.now result.vertex result.at }
    {
        VertexPlace {
            vertex: v,
            at: self.tables.own.find(v),
        }
    }

    /// The arc a out of the vertex at a place, with its own place.
    pub(super) fn row_of(&self, v: VertexPlace, a: ArcNo) -> ArcPlace
        requires place { IsPlace self.now v.vertex v.at }
        requires arc { IsArc (network_of self.now.setup) a }
        requires tail { (network_of self.now.setup).tail a ≡ v.vertex }
        ensures arc { result.arc ≡ a }
        ensures row { IsArcRow self.now result.arc result.at }
    {
        let k = self.rank_of(a);
        ArcPlace {
            arc: a,
            at: self.row(v, k),
        }
    }

    /// The place of the k-th arc out of the vertex at a place.
    pub(super) fn row(&self, v: VertexPlace, k: usize) -> usize
        requires place { IsPlace self.now v.vertex v.at }
        requires arc { k < length (outgoing (network_of self.now.setup) v.vertex) }
        ensures { IsArcRow self.now (get_or (outgoing (network_of self.now.setup) v.vertex) k 0)
            result }
    {
        self.tables.vertices.offset(v.at) as usize + k
    }

    /// Where the arc a is among those out of its tail.
    pub(super) fn rank_of(&self, a: ArcNo) -> usize
        requires { IsArc (network_of self.now.setup) a }
        ensures inside { result < length (outgoing (network_of self.now.setup)
            ((network_of self.now.setup).tail a)) }
        ensures arc { get_or (outgoing (network_of self.now.setup) ((network_of self.now.setup).tail
            a)) result 0 ≡ a }
    {
        if a.0 == 0 {
            return 0;
        }
        self.graph.rank(a)
    }

    /// Head and weight of the k-th arc out of the vertex at a place.
    pub(super) fn road_at(&self, v: VertexPlace, k: usize) -> OutRoad
        requires place { IsPlace self.now v.vertex v.at }
        requires vertex { v.vertex ≢ 0 }
        requires inside { k < length (outgoing (network_of self.now.setup) v.vertex) }
        ensures { result ≡ road_of (arc_of self.now.setup.diffusion.roads
            (get_or (outgoing (network_of self.now.setup) v.vertex) k 0)) }
    {
        self.graph.roads_from(v.vertex)[k]
    }

    /// The vertex that an arc leads to.
    pub(super) fn head(&self, a: ArcNo) -> Vertex
        requires { IsArc (network_of self.now.setup) a }
        ensures head { result ≡ (network_of self.now.setup).head a }
        ensures low { 1 ≤ result }
        ensures within { result ≤ self.now.setup.diffusion.roads.vertices }
    {
        head_of(self.graph, self.source, a)
    }

    /// The vertex that an arc leaves.
    pub(super) fn tail(&self, a: ArcNo) -> Vertex
        requires { IsArc (network_of self.now.setup) a }
        ensures tail { result ≡ (network_of self.now.setup).tail a }
        ensures within { result ≤ self.now.setup.diffusion.roads.vertices }
    {
        tail_of(self.graph, a)
    }

    /// The shard of a vertex, and of the environment that of the source.
    pub(crate) fn shard_of(&self, v: Vertex) -> Shard
        requires { v ≤ self.now.setup.diffusion.roads.vertices }
        ensures { result ≡ place_in self.now.setup v }
    {
        let stands = if v.0 == 0 { self.source } else { v };
        self.plan.shard_of(stands)
    }

    /// The label of the vertex at a place.
    pub(crate) fn label_at(&self, v: VertexPlace) -> Option<A::Value>
        requires { IsPlace self.now v.vertex v.at }
        ensures { result ≡ (state_in self.now).label v.vertex }
    {
        self.tables.vertices.label(v.at)
    }

    /// Sets the label of the vertex at a place.
    pub(super) fn set_label(&mut self, v: VertexPlace, label: A::Value)
        requires { IsPlace self.old v.vertex v.at }
        ensures { self.new ≡ record self.old { labels = set self.old.labels v.vertex (Some label) } }
    {
        self.tables.vertices.set_label(v.at, label);
    }

    /// The engager of the vertex at a place.
    pub(crate) fn engager_at(&self, v: VertexPlace) -> Option<ArcNo>
        requires { IsPlace self.now v.vertex v.at }
        ensures { result ≡ (state_in self.now).engager v.vertex }
    {
        self.tables.vertices.engager(v.at)
    }

    /// Makes the arc a the engager of its head, the vertex at a place.
    pub(super) fn engage(&mut self, v: VertexPlace, a: ArcNo)
        requires place { IsPlace self.old v.vertex v.at }
        requires arc { IsArc (network_of self.old.setup) a }
        requires head { (network_of self.old.setup).head a ≡ v.vertex }
        requires clear { IsClear self.old a }
        ensures { self.new ≡ record self.old { engagers = set self.old.engagers v.vertex (Some a) } }
    {
        self.tables.vertices.set_engager(v.at, Some(a));
    }

    /// Makes the vertex at a place neutral.
    pub(super) fn release(&mut self, v: VertexPlace)
        requires place { IsPlace self.old v.vertex v.at }
        requires vertex { v.vertex ≢ 0 }
        requires engaged { IsSome ((state_in self.old).engager v.vertex) }
        ensures moved { self.new ≡ record self.old {
          engagers = set self.old.engagers v.vertex None;
        } }
        ensures clear { IfSome ((state_in self.old).engager v.vertex) (λ e. IsClear self.new e) }
        ensures arc { IfSome ((state_in self.old).engager v.vertex)
            (λ e. IsArc (network_of self.new.setup) e) }
        ensures made { IfSome ((state_in self.old).engager v.vertex) (λ e. place_in self.new.setup
            ((network_of self.new.setup).head e) ≡ self.new.shard) }
    {
        self.tables.vertices.set_engager(v.at, None);
    }

    /// How many arcs out of the vertex at a place are busy.
    pub(crate) fn deficit_at(&self, v: VertexPlace) -> u32
        requires { IsPlace self.now v.vertex v.at }
        ensures { result ≡ busy_out (network_of self.now.setup) v.vertex (state_in self.now)
            (suc (length self.now.setup.diffusion.roads.arcs)) }
    {
        self.tables.vertices.deficit(v.at)
    }

    /// Whether the arc at a place is busy.
    pub(crate) fn is_busy(&self, b: ArcPlace) -> bool
        requires { IsArcRow self.now b.arc b.at }
        ensures { result ≡ get_or self.now.busy b.arc false }
    {
        self.tables.arcs.is_busy(b.at)
    }

    /// Makes an idle arc busy.
    pub(super) fn occupy(&mut self, v: VertexPlace, b: ArcPlace)
        requires place { IsPlace self.old v.vertex v.at }
        requires row { IsArcRow self.old b.arc b.at }
        requires tail { (network_of self.old.setup).tail b.arc ≡ v.vertex }
        requires vertex { v.vertex ≢ 0 }
        requires idle { get_or self.old.busy b.arc false ≡ false }
        ensures moved { self.new ≡ record self.old { busy = set self.old.busy b.arc true } }
        ensures clear { IsClear self.new b.arc }
    {
        let deficit = self.tables.vertices.deficit(v.at);
        self.tables.arcs.set_busy(b.at, true);
        self.tables.vertices.set_deficit(v.at, deficit + 1);
    }

    /// Makes an arc idle whose signal was taken.
    pub(super) fn free(&mut self, v: VertexPlace, a: ArcPlace)
        requires place { IsPlace self.old v.vertex v.at }
        requires row { IsArcRow self.old a.arc a.at }
        requires tail { (network_of self.old.setup).tail a.arc ≡ v.vertex }
        requires here { place_in self.old.setup v.vertex ≡ self.old.shard }
        requires clear { IsClear self.old a.arc }
        ensures { self.new ≡ record self.old { busy = set self.old.busy a.arc false } }
    {
        let deficit = self.tables.vertices.deficit(v.at);
        self.tables.arcs.set_busy(a.at, false);
        self.tables.vertices.set_deficit(v.at, deficit - 1);
    }

    /// The label that the arc at a place was last offered.
    pub(super) fn last_offer(&self, b: ArcPlace) -> Option<A::Value>
        requires { IsArcRow self.now b.arc b.at }
        ensures { result ≡ (state_in self.now).told b.arc }
    {
        self.tables.arcs.last_offer(b.at)
    }

    /// Notes the label that the arc at a place was offered.
    pub(super) fn set_last_offer(&mut self, b: ArcPlace, label: Option<A::Value>)
        requires { IsArcRow self.old b.arc b.at }
        ensures { self.new ≡ record self.old { told = set self.old.told b.arc label } }
    {
        self.tables.arcs.set_last_offer(b.at, label);
    }
}
