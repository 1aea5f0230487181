//! The graph in compressed sparse rows: its arcs by number and by tail.

ghost use Rattle.std.specs.Prelude.{◌≡◌, ◌≤◌, ◌↔◌, ◌^◌, length, IsTrue, IfOk, MatchResult};
ghost use Rattle.road_graph.specs.GraphData.{IsGraph};

use crate::bad_ends::first_bad;
use crate::index::{IndexEntry, entries_of};
use crate::lookup::{out_in, rank_in, road_in};
use crate::out_graph::OutGraph;
use crate::rows::{roads_at, rows_of, tails_of};
use crate::{ArcNo, GraphFault, Memory, OutRoad, RoadArc, Side, Vertex};
use std::alloc::Global;
use std::marker::Model;

/// How the ends of an arc are found by its number.
#[derive(Debug, Drop)]
enum Ends {
    /// By its tail alone: the head is looked up in the row of that tail.
    Tails(Vec<Vertex>),
    /// By an entry for each arc: the graph is indexed.
    Index(Vec<IndexEntry>),
}

/// A directed graph with its arcs by number and by tail.
///
/// It takes 16 bytes for each arc and 4 for each vertex: heads and weights are kept once, in the
/// order of the outgoing rows. Once indexed it takes 4 bytes more for each arc, and one load gives
/// the tail of an arc and its index among the arcs that leave that tail.
#[derive(Debug, Drop)]
pub struct Graph {
    out: OutGraph,
    out_numbers: Vec<ArcNo>,
    ends: Ends,
}

impl Model for Graph {
    ghost use Rattle.road_graph.specs.GraphData.{GraphData, IsGraph};
    ghost use Rattle.road_graph.specs.Making.{AreNumbers, IsEnds};
    ghost use Rattle.road_graph.specs.declared.Side.TheVariants.{Tail};

    ghost Value = { GraphData };

    ghost view = { λ g. g.out };

    ghost invariant = { λ g.
        IsGraph g.out
        × AreNumbers Tail g.out g.out_numbers.items
        × IsEnds g.out g.ends };
}

impl Graph {
    ghost use Rattle.road_graph.specs.Making.{IsRefusal};
    ghost use Rattle.road_graph.specs.GraphData.{GraphData, HasVertex, HasArc, arc_of, road_of};
    ghost use Rattle.road_graph.specs.GraphData.{IsRank, ListsArcsFrom, ListsRoadsFrom};

    /// The graph of exactly these arcs on the vertices 1 to n.
    ///
    /// # Errors
    /// The arcs come back with the first arc that has an end outside 1 to n, or else with `Memory`.
    pub fn new(
        alloc: Global,
        n: u32,
        arcs: Vec<RoadArc>,
    ) -> Result<Graph, (GraphFault, Vec<RoadArc>)>
        requires few_vertices { n ≤ 2 ^ 25 }
        requires few_arcs { length arcs.items ≤ 2 ^ 27 }
        ensures { MatchResult result (λ g. g ≡ record { vertices = n; arcs = arcs.items })
            (λ e. IsRefusal n arcs.items e.0 × (e.1.items ≡ arcs.items)) }
    {
        if let Some(a) = first_bad(n, &arcs) {
            return Err((GraphFault::BadEnd(a), arcs));
        }
        match Graph::make(alloc, n, &arcs) {
            Ok(graph) => Ok(graph),
            Err(_) => Err((GraphFault::Memory, arcs)),
        }
    }

    /// The graph of exactly these arcs, which are known to join the vertices 1 to n.
    ///
    /// # Errors
    /// Out of memory.
    pub fn of_arcs(alloc: Global, n: u32, arcs: Vec<RoadArc>) -> Result<Graph, Memory>
        requires { IsGraph (record { vertices = n; arcs = arcs.items }) }
        ensures { IfOk result (λ g. g ≡ record { vertices = n; arcs = arcs.items }) }
    {
        Graph::make(alloc, n, &arcs)
    }

    /// Borrows the arcs, so that `new` can give them back.
    fn make(alloc: Global, n: u32, arcs: &Vec<RoadArc>) -> Result<Graph, Memory>
        requires { IsGraph (record { vertices = n; arcs = arcs.now.items }) }
        ensures { IfOk result (λ g. g ≡ record { vertices = n; arcs = arcs.now.items }) }
    {
        let out_rows = rows_of(alloc, n, arcs, Side::Tail)?;
        let roads = roads_at(alloc, arcs, &out_rows.numbers)?;
        let tails = tails_of(alloc, arcs)?;
        Ok(Graph {
            out: OutGraph::of_rows(n, arcs, out_rows.starts, roads),
            out_numbers: out_rows.numbers,
            ends: Ends::Tails(tails),
        })
    }

    /// Indexes the arcs: from then on `tail` and `rank` read one entry of the index, and `head`,
    /// `road` and `arc` find their road by it, in place of a search.
    ///
    /// # Errors
    /// If memory is refused, the graph is as it was.
    pub fn index(&mut self, alloc: Global) -> Result<(), Memory>
        ensures { self.new ≡ self.old }
    {
        if let Ends::Tails(tails) = &self.ends {
            self.ends = Ends::Index(entries_of(alloc, &self.out, &self.out_numbers, tails)?);
        }
        Ok(())
    }

    /// How many vertices there are.
    pub fn vertices(&self) -> u32
        ensures count { result ≡ self.now.vertices }
        // What holds of every graph, for callers that rely on it.
        ensures roads { IsGraph self.now }
    {
        self.out.vertices()
    }

    /// What holds of every graph: its arcs join its vertices, and it keeps the limits. Nothing is
    /// computed.
    #[inline]
    pub fn holds(&self)
        ensures { IsGraph self.now }
    {
        self.out.holds();
    }

    /// How many arcs there are.
    pub fn arcs(&self) -> usize
        ensures { result ≡ length self.now.arcs }
    {
        self.out.arcs()
    }

    /// Whether v is a vertex of this graph.
    pub fn has(&self, v: Vertex) -> bool
        ensures { IsTrue result ↔ HasVertex self.now v }
    {
        self.out.has(v)
    }

    /// The arc of a number.
    pub fn arc(&self, a: ArcNo) -> RoadArc
        requires { HasArc self.now a }
        ensures { result ≡ arc_of self.now a }
    {
        let tail = self.tail(a);
        let road = self.road(a);
        RoadArc {
            tail,
            head: road.head,
            weight: road.weight,
        }
    }

    /// The vertex that an arc leaves.
    pub fn tail(&self, a: ArcNo) -> Vertex
        requires { HasArc self.now a }
        ensures { result ≡ (arc_of self.now a).tail }
    {
        match &self.ends {
            Ends::Tails(tails) => tails[a.0 as usize - 1],
            Ends::Index(entries) => entries[a.0 as usize - 1].tail,
        }
    }

    /// The vertex that an arc enters.
    pub fn head(&self, a: ArcNo) -> Vertex
        requires { HasArc self.now a }
        ensures { result ≡ (arc_of self.now a).head }
    {
        self.road(a).head
    }

    /// The head and the weight of an arc.
    pub fn road(&self, a: ArcNo) -> OutRoad
        requires { HasArc self.now a }
        ensures { result ≡ road_of (arc_of self.now a) }
    {
        match &self.ends {
            Ends::Tails(_) => road_in(&self.out, &self.out_numbers, self.tail(a), a),
            Ends::Index(entries) => {
                let entry = entries[a.0 as usize - 1];
                self.roads_from(entry.tail)[entry.rank as usize]
            }
        }
    }

    /// The index of an arc among those that leave its tail, in what `out` and `roads_from` give for
    /// that tail.
    pub fn rank(&self, a: ArcNo) -> usize
        requires { HasArc self.now a }
        ensures { IsRank self.now a result }
    {
        match &self.ends {
            Ends::Tails(_) => rank_in(&self.out, &self.out_numbers, self.tail(a), a),
            Ends::Index(entries) => entries[a.0 as usize - 1].rank as usize,
        }
    }

    /// The arcs that leave a vertex, in ascending order.
    pub fn out(&self, v: Vertex) -> &[ArcNo]
        requires { HasVertex self.now v }
        ensures { ListsArcsFrom self.now v result.now }
    {
        out_in(&self.out, &self.out_numbers, v)
    }

    /// The heads and weights of the arcs that leave a vertex, in the order of `out`.
    pub fn roads_from(&self, v: Vertex) -> &[OutRoad]
        requires { HasVertex self.now v }
        ensures { ListsRoadsFrom self.now v result.now }
    {
        self.out.roads_from(v)
    }

    /// The same graph with its arcs by tail alone.
    pub fn outgoing(&self) -> &OutGraph
        ensures { result.now ≡ self.now }
    {
        &self.out
    }
}
