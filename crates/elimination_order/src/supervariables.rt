//! Supervariables: indistinguishable vertices, which have the same list, are merged.

use crate::elimination::Elimination;
use crate::lists::NONE;
use crate::node::Node;
use crate::pivot::Pivot;
use road_graph::Memory;

impl Elimination {
    /// Marks the list of a vertex.
    fn mark(&mut self, node: Node) -> u32 {
        let mark = self.graph.new_mark();
        let list = node.list();
        for k in list.start..list.end {
            let u = self.graph.listed(k);
            self.graph.node_mut(u).mark = mark;
        }
        mark
    }

    /// Whether each entry of a vertex's list has this mark.
    fn is_marked(&self, node: Node, mark: u32) -> bool {
        let list = node.list();
        for k in list.start..list.end {
            let u = self.graph.listed(k);
            if self.graph.node(u).mark != mark {
                return false;
            }
        }
        true
    }

    /// Merges the vertices of a bucket from one on into `v` whose lists are the same as its own.
    fn merge_alike(&mut self, v: u32, from: u32, most: usize) -> Result<(), Memory> {
        let mut node = self.graph.node(v);
        if node.size == 0 {
            return Ok(());
        }
        let mut mark = None;
        let mut u = from;
        for _ in 0..most {
            if u == NONE {
                return Ok(());
            }
            self.counts.add_work(1);
            let other = self.graph.node(u);
            if other.size > 0 && node.may_equal(other) && self.levels.are_alike(u, v) {
                let marked = match mark {
                    Some(marked) => marked,
                    None => self.mark(node),
                };
                mark = Some(marked);
                if self.is_marked(other, marked) {
                    node.size = node.size.saturating_add(other.size);
                    self.graph.node_mut(v).size = node.size;
                    self.merge(u, v)?;
                }
            }
            u = self.buckets.after(u);
        }
        Ok(())
    }

    /// Merges the vertices of a bucket that have the same list.
    fn merge_bucket(&mut self, first: u32, most: usize) -> Result<(), Memory> {
        let mut v = first;
        for _ in 0..most {
            if v == NONE {
                return Ok(());
            }
            let after = self.buckets.after(v);
            if after != NONE {
                self.merge_alike(v, after, most)?;
            }
            v = after;
        }
        Ok(())
    }

    /// Merges the members that have the same list.
    pub(crate) fn merge_members(&mut self, pivot: Pivot) -> Result<(), Memory> {
        for k in pivot.members.start..pivot.members.end {
            let v = self.graph.listed(k);
            let node = self.graph.node(v);
            if node.size > 0 {
                let first = self.buckets.take(node.hash);
                self.merge_bucket(first, pivot.members.len())?;
            }
        }
        Ok(())
    }
}
