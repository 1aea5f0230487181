//! What the plain solver keeps between two questions.
ghost use Rattle.std.specs.Prelude.{◌≡◌, All};
ghost use Rattle.std.specs.Option.{ForSome};

use crate::pair_solver::PairSolver;
use crate::searched::Searched;
use path_algebra::PathAlgebra;
use road_graph::{InGraph, OutGraph};
use std::alloc::Global;

/// Solves each question by one search on one thread, several side by side. A pair's search stops at
/// its target, and goes on from there for the next pair of its source; its lists stay for other
/// pairs, also of those that are solved side by side. A question that was solved just before needs
/// no new search. No worker is started and no gate is asked.
#[derive(Drop)]
pub struct PlainSolver<A: PathAlgebra> {
    pub(crate) graph: OutGraph,
    /// The rows of the graph's arcs by head, made once, when the first batch of pairs begins.
    pub(crate) by_head: Option<InGraph>,
    /// What solves pairs, as many as are solved side by side, each made when it is needed.
    pub(crate) pool: Vec<PairSolver<A>>,
    /// What was solved ahead of its turn, the next one last.
    pub(crate) searched: Vec<Searched<A::Value>>,
    ghost rows: { ForSome by_head (λ by_head. by_head ≡ graph) },
    ghost own: { All (λ s. s.searcher.roads ≡ graph) pool.items },
}

impl<A: PathAlgebra> PlainSolver<A> {
    ghost use Rattle.road_graph.specs.GraphData.{IsGraph};

    /// The solver over a graph.
    pub fn new(alloc: Global, graph: OutGraph) -> Self
        ensures { result.graph ≡ graph }
    {
        PlainSolver {
            graph,
            by_head: None,
            pool: Vec::new(alloc),
            searched: Vec::new(alloc),
        }
    }

    /// How many vertices the graph has.
    pub fn vertices(&self) -> u32
        ensures count { result ≡ self.now.graph.vertices }
        ensures graph { IsGraph self.now.graph }
    {
        self.graph.holds();
        self.graph.vertices()
    }
}
