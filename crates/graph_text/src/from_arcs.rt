//! Graphs that are built from their arcs.
ghost use Rattle.std.specs.Prelude.{◌≡◌, IfOk};
ghost use Rattle.road_graph.specs.GraphData.{IsGraph, GraphData};

use road_graph::{Graph, Memory, OutGraph, RoadArc};
use std::alloc::Global;

/// A type of graph that is built from arcs.
pub trait FromArcs: Drop {
    // The graph as plain data.
    ghost roads: { Self → GraphData };

    /// The graph of exactly these arcs, which are known to join the vertices 1 to n.
    ///
    /// # Errors
    /// Out of memory.
    fn from_arcs(alloc: Global, n: u32, arcs: Vec<RoadArc>) -> Result<Self, Memory>
        requires { IsGraph (record { vertices = n; arcs = arcs.items }) }
        ensures { IfOk result (λ g. roads g ≡ record { vertices = n; arcs = arcs.items }) };

    /// How many vertices there are.
    fn count_vertices(&self) -> u32
        ensures count { result ≡ (roads self.now).vertices }
        ensures roads { IsGraph (roads self.now) };
}

impl FromArcs for Graph {
    ghost roads = { λ g. g };

    fn from_arcs(alloc: Global, n: u32, arcs: Vec<RoadArc>) -> Result<Graph, Memory> {
        Graph::of_arcs(alloc, n, arcs)
    }

    fn count_vertices(&self) -> u32 {
        self.vertices()
    }
}

impl FromArcs for OutGraph {
    ghost roads = { λ g. g };

    fn from_arcs(alloc: Global, n: u32, arcs: Vec<RoadArc>) -> Result<OutGraph, Memory> {
        OutGraph::of_arcs(alloc, n, arcs)
    }

    fn count_vertices(&self) -> u32 {
        self.vertices()
    }
}
