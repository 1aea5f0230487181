//! A quotient graph: the vertices that are left, and the elements that the others have become.
ghost use Rattle.std.specs.Prelude.{◌≡◌, IfErr, IsSome};
ghost use Rattle.halting.specs.declared.unfinished.Unfinished.TheVariants.{Halted};

use crate::lists::{Span, at, put, stored};
use crate::neighbours::Neighbours;
use crate::node::Node;
use halting::{Stop, Unfinished, look_at};
use road_graph::Memory;
use std::alloc::{AllocError, Global};

/// The nodes of a quotient graph, and their lists.
#[derive(Drop)]
pub(crate) struct QuotientGraph {
    nodes: Vec<Node>,
    /// The node of a number that is no vertex.
    other: Node,
    /// The lists of all. That of a new element is added at the end.
    pub(crate) lists: Vec<u32>,
    /// The vertices with dense rows.
    pub(crate) dense: Vec<u32>,
    /// The mark that was used last.
    mark: u32,
}

impl QuotientGraph {
    /// The node of a vertex.
    #[inline]
    pub(crate) fn node(&self, v: u32) -> Node {
        match self.nodes.get(v as usize) {
            Some(node) => *node,
            None => self.other,
        }
    }

    /// The node of a vertex, to be changed.
    #[inline]
    pub(crate) fn node_mut(&mut self, v: u32) -> &mut Node {
        match self.nodes.get_mut(v as usize) {
            Some(node) => node,
            None => &mut self.other,
        }
    }

    /// The vertex or element at a place of the lists.
    #[inline]
    pub(crate) fn listed(&self, k: usize) -> u32 {
        at(&self.lists, k)
    }

    /// Writes a vertex or element into the lists, and says which place comes next.
    #[inline]
    pub(crate) fn write(&mut self, k: usize, v: u32) -> usize {
        put(&mut self.lists, k, v);
        k.saturating_add(1)
    }

    /// A mark that no node has.
    #[inline]
    pub(crate) fn new_mark(&mut self) -> u32 {
        self.mark = self.mark.wrapping_add(1);
        self.mark
    }

    /// How many vertices there are.
    pub(crate) fn vertices(&self) -> u32 {
        stored(self.nodes.len())
    }

    /// Makes a row the list of a vertex, with each neighbour once, from a place on. Says where it
    /// ends.
    fn take_row(&mut self, v: u32, row: Span, start: usize) -> usize {
        let mark = self.new_mark();
        let mut end = start;
        for k in row.start..row.end {
            let u = self.listed(k);
            let node = self.node_mut(u);
            if node.mark != mark {
                node.mark = mark;
                end = self.write(end, u);
            }
        }
        let list = Span { start, end };
        let node = self.node_mut(v);
        node.set_list(list);
        node.degree = stored(list.len());
        end
    }

    /// Makes the row of each vertex its list.
    fn take_rows(&mut self, ends: &[u32], stop: &Option<Stop>) -> Result<(), Unfinished>
        ensures halts { IfErr result (λ e. e ≡ Halted → IsSome stop.now) }
    {
        let mut start = 0;
        let mut end = 0;
        for (i, row_end) in ends.iter().enumerate() {
            look_at(stop)?;
            let row = Span {
                start,
                end: *row_end as usize,
            };
            end = self.take_row(stored(i), row, end);
            start = row.end;
        }
        self.lists.truncate(end);
        Ok(())
    }

    /// Takes a vertex with a dense row out, to be eliminated last.
    fn remove_dense(&mut self, v: u32) -> Result<(), Memory> {
        let node = self.node_mut(v);
        node.size = 0;
        let row = node.vertices();
        for k in row.start..row.end {
            let u = self.listed(k);
            let neighbour = self.node_mut(u);
            neighbour.degree = neighbour.degree.saturating_sub(1);
        }
        self.dense.push(v).map_err(AllocError::from)?;
        Ok(())
    }

    /// Takes each vertex with a dense row out: with more than 16 neighbours, and more than 10 times
    /// the root of n.
    fn remove_all_dense(&mut self) -> Result<(), Memory> {
        let n = self.vertices();
        let square = u64::from(n).saturating_mul(100);
        for v in 0..n {
            let degree = self.node(v).vertices().len() as u64;
            if degree > 16 && degree.saturating_mul(degree) > square {
                self.remove_dense(v)?;
            }
        }
        Ok(())
    }

    /// The quotient graph of a graph of which nothing is eliminated.
    pub(crate) fn open(
        alloc: Global,
        neighbours: Neighbours,
        stop: &Option<Stop>,
    ) -> Result<Self, Unfinished>
        ensures halts { IfErr result (λ e. e ≡ Halted → IsSome stop.now) }
    {
        let ends = neighbours.ends;
        let mut graph = QuotientGraph {
            nodes: vec![in alloc; Node::new(); ends.len()]?,
            other: Node::new(),
            lists: neighbours.list,
            dense: Vec::new(alloc),
            mark: 0,
        };
        graph.take_rows(&ends, stop)?;
        graph.remove_all_dense()?;
        Ok(graph)
    }
}
