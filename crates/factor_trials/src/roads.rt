//! A factored graph with what asks it for trees and routes, which are asked for again if memory was
//! refused.

ghost use Rattle.std.specs.Prelude.{◌≤◌};

use factor_routes::{Pair, RoadFactors, RouteAsker, Unfactored};
use path_algebra::{Labels, PathAlgebra};
use path_trials::is_found;
use road_graph::{Graph, InGraph, Memory, Vertex};
use route_tree::{Found, Tree};
use std::marker::Model;
use std::process::Abort;

/// The code of a vertex's value, its hops, and its parent or 0.
pub(crate) type Reached = (u64, u32, u32);

/// A factored graph, and what asks it.
#[derive(Drop)]
pub(crate) struct Roads<A: PathAlgebra> {
    algebra: A,
    rows: InGraph,
    factors: RoadFactors,
    asker: RouteAsker,
}

impl<A: PathAlgebra> Model for Roads<A> {
    ghost use Rattle.std.specs.Prelude.{◌≡◌, ℕ};
    ghost use Rattle.path_algebra.specs.Carried.{IsCarried};
    ghost use Rattle.path_algebra.specs.Counted.{cost_of};

    ghost Value = { ℕ };

    ghost view = { λ r. r.rows.vertices };

    ghost invariant = { λ r. (r.rows ≡ r.factors.roads) × (r.asker.factors ≡ r.factors) × IsCarried (A.meaning r.algebra) (cost_of r.factors.algebra.cost) };
}

impl<A: PathAlgebra> Roads<A> {
    /// A graph that is factored for an algebra that has factors.
    pub(crate) fn new(
        rt: &(impl Abort + AllocGlobal),
        algebra: A,
        graph: &Graph,
    ) -> Result<Self, Unfactored> {
        let alloc = rt.alloc();
        let graph = graph.outgoing();
        let Some(cost) = algebra.cost() else {
            panic!(rt; "an algebra without factors");
        };
        let rows = match InGraph::of(alloc, graph) {
            Ok(rows) => rows,
            Err(Memory) => return Err(Unfactored::Memory),
        };
        let factors = RoadFactors::of(alloc, cost, graph, &rows, &None)?;
        let asker = match factors.asker(alloc) {
            Ok(asker) => asker,
            Err(Memory) => return Err(Unfactored::Memory),
        };
        Ok(Roads {
            algebra,
            rows,
            factors,
            asker,
        })
    }

    /// The vertex of a number, which there is.
    fn vertex(&self, rt: &impl Abort, v: u32) -> Vertex
        ensures low { 1 ≤ result }
        ensures high { result ≤ self.now }
    {
        assert!(rt; 1 <= v && v <= self.rows.vertices());
        Vertex(v)
    }

    /// The labels and the tree from a source.
    fn tree(
        &self,
        rt: &(impl Abort + AllocGlobal),
        source: u32,
    ) -> Result<(Labels<A::Value>, Tree), Memory> {
        let sources = [self.vertex(rt, source)];
        self.factors
            .solve_with_tree(rt.alloc(), self.algebra, &self.rows, &sources)
    }

    /// What is found of a pair.
    fn ask(
        &mut self,
        rt: &(impl Abort + AllocGlobal),
        source: u32,
        target: u32,
    ) -> Result<Option<Found>, Memory> {
        let pair = Pair {
            source: self.vertex(rt, source),
            target: self.vertex(rt, target),
        };
        let (alloc, algebra) = (rt.alloc(), self.algebra);
        self.factors
            .find(alloc, algebra, &self.rows, &mut self.asker, pair)
    }
}

/// What the labels and the tree tell of a vertex.
fn reached<A: PathAlgebra>(
    rt: &impl Abort,
    algebra: A,
    (labels, tree): (&Labels<A::Value>, &Tree),
    v: Vertex,
) -> Option<Reached> {
    assert!(rt; 1 <= v.0 && v.0 as usize <= labels.vertices() && v.0 as usize <= tree.vertices());
    let code = labels.of(v).map(|value| algebra.code(value))?;
    let parent = tree.parent(v).map_or(0, |u| u.0);
    Some((code, tree.hops(v)?, parent))
}

/// Asserts what is told of each vertex from a source.
pub(crate) fn assert_tree<A: PathAlgebra>(
    rt: &(impl Abort + AllocGlobal),
    roads: &Roads<A>,
    source: u32,
    wanted: &[Option<Reached>],
) {
    let (labels, tree) = match roads.tree(rt, source) {
        Ok(found) => found,
        Err(_) => roads.tree(rt, source).expect(rt, "memory"),
    };
    let mut v = Vertex(0);
    for row in wanted {
        v = Vertex(v.0.saturating_add(1));
        assert!(rt; reached(rt, roads.algebra, (&labels, &tree), v) == *row);
    }
}

/// Asserts the code and the route of a pair, or that it has none.
pub(crate) fn assert_pair<A: PathAlgebra>(
    rt: &(impl Abort + AllocGlobal),
    roads: &mut Roads<A>,
    (source, target): (u32, u32),
    code: u64,
    route: &[u32],
) {
    let found = match roads.ask(rt, source, target) {
        Ok(found) => found,
        Err(_) => roads.ask(rt, source, target).expect(rt, "memory"),
    };
    assert!(rt; is_found(&found, code, route));
}
