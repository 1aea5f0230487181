//! The elimination: one vertex after the other becomes an element.
ghost use Rattle.std.specs.Prelude.{◌≡◌, IfErr, IsSome};
ghost use Rattle.halting.specs.declared.unfinished.Unfinished.TheVariants.{Halted};

use crate::assembly_tree::TreeNode;
use crate::counts::{Counts, half_of_work, is_too_dense};
use crate::degree_lists::{DegreeLists, Turn};
use crate::hash_buckets::HashBuckets;
use crate::levels::Levels;
use crate::lists::stored;
use crate::neighbours::Neighbours;
use crate::pivot::Pivot;
use crate::quotient_graph::QuotientGraph;
use halting::{Stop, Unfinished, look_at};
use road_graph::{Memory, OutGraph};
use std::alloc::{AllocError, Global};

/// A graph in the course of elimination.
#[derive(Drop)]
pub(crate) struct Elimination {
    pub(crate) graph: QuotientGraph,
    pub(crate) degrees: DegreeLists,
    pub(crate) levels: Levels,
    pub(crate) buckets: HashBuckets,
    pub(crate) counts: Counts,
    /// How many arcs the graph has.
    arcs: u32,
    /// The vertices in the order in which they went: each before the one that it was merged into,
    /// and each element before the one that absorbed it.
    pub(crate) eliminated: Vec<u32>,
    pub(crate) tree: Vec<TreeNode>,
    /// How many vertices are left.
    pub(crate) left: u32,
}

impl Elimination {
    /// Nothing is eliminated yet.
    pub(crate) fn open(
        alloc: Global,
        graph: &OutGraph,
        turn: Turn,
        stop: &Option<Stop>,
    ) -> Result<Self, Unfinished>
        ensures halts { IfErr result (λ e. e ≡ Halted → IsSome stop.now) }
    {
        let neighbours = Neighbours::of(alloc, graph, stop)?;
        let arcs = stored(graph.arcs());
        let graph = QuotientGraph::open(alloc, neighbours, stop)?;
        let n = graph.vertices();
        let mut degrees = DegreeLists::new(alloc, n as usize, turn)?;
        let mut left = 0u32;
        for v in 0..n {
            let node = graph.node(v);
            if node.size > 0 {
                degrees.insert(v, node.degree);
                left = left.saturating_add(1);
            }
        }
        let mut elimination = Elimination {
            graph,
            degrees,
            levels: Levels::new(Vec::new(alloc)),
            buckets: HashBuckets::new(alloc, n as usize)?,
            counts: Counts::new(),
            arcs,
            eliminated: Vec::with_capacity(alloc, n as usize)?,
            tree: vec![in alloc; TreeNode::new(); n as usize]?,
            left,
        };
        elimination.count_dense();
        Ok(elimination)
    }

    /// Puts a vertex into the list of its degree, if it is of the present level.
    #[inline]
    pub(crate) fn enter(&mut self, v: u32, degree: u32) {
        if self.levels.is_present(v) {
            self.degrees.insert(v, degree);
        }
    }

    /// Takes a vertex out of the list of its degree, if it is of the present level.
    #[inline]
    pub(crate) fn leave(&mut self, v: u32, degree: u32) {
        if self.levels.is_present(v) {
            self.degrees.remove(v, degree);
        }
    }

    /// Lets a vertex go with another, which stands for it too.
    pub(crate) fn merge(&mut self, v: u32, principal: u32) -> Result<(), Memory> {
        self.graph.node_mut(v).size = 0;
        if let Some(node) = self.tree.get_mut(v as usize) {
            node.principal = principal;
        }
        self.eliminated.push(v).map_err(AllocError::from)?;
        Ok(())
    }

    /// An element is absorbed by that of another vertex.
    pub(crate) fn absorb(&mut self, element: u32, parent: u32) {
        self.graph.node_mut(element).degree = 0;
        if let Some(node) = self.tree.get_mut(element as usize) {
            node.parent = parent;
        }
    }

    /// Counts the links of the vertices that a pivot eliminates: to the members of its element, to
    /// those of them that go after it, and to each dense row.
    fn count(&mut self, pivot: Pivot) {
        let dense = self.graph.dense.len() as u64;
        let others = u64::from(pivot.degree).saturating_add(dense);
        for k in 0..pivot.eliminated {
            self.counts.add_vertex(others.saturating_add(u64::from(k)));
        }
    }

    /// Counts the links of the dense rows, of each to those that go after it.
    fn count_dense(&mut self) {
        for k in 0..self.graph.dense.len() {
            self.counts.add_vertex(k as u64);
        }
    }

    /// Makes a vertex an element, and brings the degrees of its members up to date.
    fn eliminate(&mut self, vertex: u32) -> Result<(), Memory> {
        let mut pivot = self.begin(vertex)?;
        if pivot.members.len() == 1 {
            self.end_lone(pivot);
        } else {
            self.find_outside(pivot);
            self.update_members(&mut pivot)?;
            self.merge_members(pivot)?;
            self.end(pivot);
        }
        self.eliminated.push(vertex).map_err(AllocError::from)?;
        self.count(pivot);
        Ok(())
    }

    /// Whether the graph is too dense, by what was counted.
    pub(crate) fn is_too_dense(&self) -> bool {
        is_too_dense(self.graph.vertices(), self.arcs, self.counts)
    }

    /// The work that flows may take.
    pub(crate) fn work_of_flows(&self) -> u64 {
        half_of_work(self.graph.vertices(), self.arcs)
    }

    /// Eliminates each vertex of the present level that comes to a degree up to the most, unless
    /// the graph is too dense.
    pub(crate) fn run(&mut self, most: u32, stop: &Option<Stop>) -> Result<(), Unfinished>
        ensures halts { IfErr result (λ e. e ≡ Halted → IsSome stop.now) }
    {
        for _ in 0..self.left {
            look_at(stop)?;
            if self.left == 0 || self.is_too_dense() {
                return Ok(());
            }
            let Some(vertex) = self.degrees.first() else {
                return Ok(());
            };
            if self.graph.node(vertex).degree > most {
                return Ok(());
            }
            self.eliminate(vertex)?;
        }
        Ok(())
    }
}
