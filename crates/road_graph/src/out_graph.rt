//! A graph with its arcs by tail alone.

ghost use Rattle.std.specs.Prelude.{◌≡◌, ℕ, ◌+◌, ◌-◌, ◌<◌, ◌≤◌, ◌↔◌, ◌^◌, List, length, IsTrue, IfOk, IfSome, MatchResult, None};
ghost use Rattle.road_graph.specs.GraphData.{IsGraph};
ghost use Rattle.road_graph.specs.Making.{AreRoadRows, AreNumbers, AreRowStarts};
ghost use Rattle.road_graph.specs.Changing.{graph_after, HaveEnds};

use crate::arcs::{ArcSource, Arcs};
use crate::bad_ends::first_bad;
use crate::rows::{range_of, road_rows_of};
use crate::weights::set_weights;
use crate::{GraphFault, Memory, OutRoad, RoadArc, Vertex};
use std::alloc::Global;
use std::fmt;
use std::marker::Model;
use std::snapshot::Snapshot;

/// A directed graph with its arcs by tail: heads and weights, and no number of an arc.
///
/// It takes 8 bytes for each arc and 4 for each vertex.
#[derive(Drop)]
pub struct OutGraph {
    vertices: u32,
    arcs: Snapshot<Arcs>,
    starts: Vec<u32>,
    roads: Vec<OutRoad>,
}

impl fmt::Debug for OutGraph {
    fn fmt<F: fmt::Write>(&self, f: &mut fmt::Formatter<F>) -> fmt::Result {
        f.debug_struct("OutGraph")
            .field("vertices", &self.vertices)
            .field("starts", &self.starts)
            .field("roads", &self.roads)
            .finish()
    }
}

impl Model for OutGraph {
    ghost use Rattle.road_graph.specs.GraphData.{GraphData, IsGraph};
    ghost use Rattle.road_graph.specs.Making.{AreRoadRows};

    ghost Value = { GraphData };

    ghost view = { λ g. record { vertices = g.vertices; arcs = g.arcs.value.list } };

    ghost invariant = { λ g.
        IsGraph (record { vertices = g.vertices; arcs = g.arcs.value.list })
        × AreRoadRows g.vertices g.arcs.value.list g.starts.items g.roads.items };
}

impl OutGraph {
    ghost use Rattle.road_graph.specs.Making.{AreRows, IsRefusal};
    ghost use Rattle.road_graph.specs.declared.Side.TheVariants.{Tail};
    ghost use Rattle.road_graph.specs.GraphData.{HasVertex, ListsRoadsFrom, roads_of};

    /// The graph of exactly these arcs on the vertices 1 to n.
    ///
    /// # Errors
    /// The arcs come back with the first arc that has an end outside 1 to n, or else with `Memory`.
    pub fn new(
        alloc: Global,
        n: u32,
        arcs: Vec<RoadArc>,
    ) -> Result<OutGraph, (GraphFault, Vec<RoadArc>)>
        requires few_vertices { n ≤ 2 ^ 25 }
        requires few_arcs { length arcs.items ≤ 2 ^ 27 }
        ensures { MatchResult result (λ g. g ≡ record { vertices = n; arcs = arcs.items })
            (λ e. IsRefusal n arcs.items e.0 × (e.1.items ≡ arcs.items)) }
    {
        if let Some(a) = first_bad(n, &arcs) {
            return Err((GraphFault::BadEnd(a), arcs));
        }
        match OutGraph::make(alloc, n, &arcs) {
            Ok(graph) => Ok(graph),
            Err(_) => Err((GraphFault::Memory, arcs)),
        }
    }

    /// The graph of exactly these arcs, which are known to join the vertices 1 to n.
    ///
    /// # Errors
    /// Out of memory.
    pub fn of_arcs(alloc: Global, n: u32, arcs: Vec<RoadArc>) -> Result<OutGraph, Memory>
        requires { IsGraph (record { vertices = n; arcs = arcs.items }) }
        ensures { IfOk result (λ g. g ≡ record { vertices = n; arcs = arcs.items }) }
    {
        OutGraph::make(alloc, n, &arcs)
    }

    /// The graph after changes of weights, one after the other: each gives all arcs from its tail to
    /// its head its weight. None if there is no such arc for one of them.
    ///
    /// It takes a copy of the roads, and a look through the row of a tail for each change.
    pub fn with_weights(
        &self,
        alloc: Global,
        changes: &Vec<RoadArc>,
    ) -> Result<Option<OutGraph>, Memory>
        ensures changed { IfOk result (λ found. IfSome found (λ g.
            g ≡ graph_after changes.now.items self.now)) }
        ensures known { IfOk result (λ found. IfSome found (λ _.
            HaveEnds self.now changes.now.items)) }
        ensures unknown { IfOk result (λ found. found ≡ None →
            HaveEnds self.now changes.now.items → ⊥) }
    {
        self.holds();
        let starts = self.starts.to_vec(alloc)?;
        let mut roads = self.roads.to_vec(alloc)?;
        for k in 0..changes.len() {
            let change = changes[k];
            if !self.has(change.tail) {
                return Ok(None);
            }
            let (start, end) = range_of(&starts, change.tail);
            if !set_weights(&mut roads, start, end, change) {
                return Ok(None);
            }
        }
        let source = ArcSource::Changed(Snapshot::of(&self.arcs), Snapshot::of(changes));
        Ok(Some(OutGraph {
            vertices: self.vertices,
            arcs: Snapshot::of(&Arcs { source }),
            starts,
            roads,
        }))
    }

    /// Borrows the arcs, so that `new` can give them back.
    fn make(alloc: Global, n: u32, arcs: &Vec<RoadArc>) -> Result<OutGraph, Memory>
        requires { IsGraph (record { vertices = n; arcs = arcs.now.items }) }
        ensures { IfOk result (λ g. g ≡ record { vertices = n; arcs = arcs.now.items }) }
    {
        let rows = road_rows_of(alloc, n, arcs)?;
        Ok(OutGraph::of_rows(n, arcs, rows.starts, rows.roads))
    }

    /// The graph of arcs whose rows these are.
    pub(crate) fn of_rows(
        n: u32,
        arcs: &Vec<RoadArc>,
        starts: Vec<u32>,
        roads: Vec<OutRoad>,
    ) -> OutGraph
        requires roads { IsGraph (record { vertices = n; arcs = arcs.now.items }) }
        requires rows { AreRoadRows n arcs.now.items starts.items roads.items }
        ensures { result ≡ record { vertices = n; arcs = arcs.now.items } }
    {
        let source = ArcSource::Given(Snapshot::of(arcs));
        OutGraph {
            vertices: n,
            arcs: Snapshot::of(&Arcs { source }),
            starts,
            roads,
        }
    }

    /// How many vertices there are.
    pub fn vertices(&self) -> u32
        ensures count { result ≡ self.now.vertices }
        // What holds of every graph, for callers that rely on it.
        ensures roads { IsGraph self.now }
    {
        self.vertices
    }

    /// What holds of every graph: its arcs join its vertices, and it keeps the limits. Nothing is
    /// computed.
    #[inline]
    pub fn holds(&self)
        ensures { IsGraph self.now }
    {
        // The invariant is known where a field is used.
        let _ = &self.vertices;
    }

    /// How many arcs there are.
    pub fn arcs(&self) -> usize
        ensures { result ≡ length self.now.arcs }
    {
        self.roads.len()
    }

    /// Whether v is a vertex of this graph.
    pub fn has(&self, v: Vertex) -> bool
        ensures { IsTrue result ↔ HasVertex self.now v }
    {
        1 <= v.0 && v.0 <= self.vertices
    }

    /// The heads and weights of the arcs that leave a vertex, in ascending order of the arcs'
    /// numbers.
    #[inline]
    pub fn roads_from(&self, v: Vertex) -> &[OutRoad]
        requires { HasVertex self.now v }
        ensures { ListsRoadsFrom self.now v result.now }
    {
        let (start, end) = range_of(&self.starts, v);
        &self.roads[start..end]
    }

    /// Where the row of each vertex starts, and the end of the last.
    #[inline]
    pub(crate) fn starts(&self) -> &[u32]
        ensures some { AreRowStarts Tail self.now result.now }
        ensures all { (numbers : List ℕ) → AreNumbers Tail self.now numbers →
            AreRows Tail self.now.vertices self.now.arcs result.now numbers }
    {
        self.starts.as_slice()
    }

    /// The heads and weights of all arcs, row after row.
    #[inline]
    pub(crate) fn roads(&self) -> &[OutRoad]
        ensures { (numbers : List ℕ) → AreNumbers Tail self.now numbers → result.now ≡ roads_of
            self.now numbers }
    {
        self.roads.as_slice()
    }
}
