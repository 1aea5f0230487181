//! The degrees of the members of a new element, and their lists, are brought up to date.

use crate::elimination::Elimination;
use crate::lists::Span;
use crate::node::Node;
use crate::pivot::Pivot;
use road_graph::Memory;

/// The entries of a member's list that stay.
#[derive(Clone, Copy)]
struct Kept {
    /// Where the next one is written.
    end: usize,
    /// How many vertices they lead to outside the new element, at most.
    degree: u32,
    /// The hash of the list.
    hash: u32,
}

impl Elimination {
    /// Finds how many vertices each element of a member has outside the new one: as many as before,
    /// less the member.
    fn leave_elements(&mut self, mark: u32, node: Node) {
        let elements = node.elements();
        for j in elements.start..elements.end {
            let e = self.graph.listed(j);
            let element = self.graph.node_mut(e);
            if element.degree > 0 {
                if element.mark != mark {
                    element.mark = mark;
                    element.outside = element.degree;
                }
                element.outside = element.outside.saturating_sub(node.size);
            }
        }
    }

    /// Finds how many vertices the other elements have outside the new one.
    pub(crate) fn find_outside(&mut self, pivot: Pivot) {
        for k in pivot.members.start..pivot.members.end {
            let v = self.graph.listed(k);
            let node = self.graph.node(v);
            self.leave_elements(pivot.mark, node);
        }
    }

    /// Keeps the neighbours of a member that are left and no members.
    fn keep_vertices(&mut self, pivot: Pivot, vertices: Span) -> Kept {
        let mut kept = Kept {
            end: vertices.start,
            degree: 0,
            hash: pivot.vertex,
        };
        for k in vertices.start..vertices.end {
            let u = self.graph.listed(k);
            let node = self.graph.node(u);
            if node.size > 0 && node.mark != pivot.mark {
                kept.degree = kept.degree.saturating_add(node.size);
                kept.hash = kept.hash.wrapping_add(u);
                kept.end = self.graph.write(kept.end, u);
            }
        }
        kept
    }

    /// Keeps the elements of a member that have vertices outside the new one, which absorbs the
    /// others.
    fn keep_elements(&mut self, pivot: Pivot, elements: Span, kept: &mut Kept) {
        for k in elements.start..elements.end {
            let e = self.graph.listed(k);
            let element = self.graph.node(e);
            if element.degree > 0 {
                if element.outside == 0 {
                    self.absorb(e, pivot.vertex);
                } else {
                    kept.degree = kept.degree.saturating_add(element.outside);
                    kept.hash = kept.hash.wrapping_add(e);
                    kept.end = self.graph.write(kept.end, e);
                }
            }
        }
    }

    /// Brings the list and the degree of a member up to date. One with no neighbours but the other
    /// members is eliminated with the pivot.
    fn update(&mut self, pivot: &mut Pivot, v: u32) -> Result<(), Memory> {
        let node = self.graph.node(v);
        self.counts.add_work(node.list().len());
        let vertices = node.vertices();
        let mut kept = self.keep_vertices(*pivot, vertices);
        let count = kept.end.saturating_sub(vertices.start);
        let middle = kept.end;
        self.keep_elements(*pivot, node.elements(), &mut kept);
        if kept.degree == 0 && self.levels.is_present(v) {
            pivot.eliminated = pivot.eliminated.saturating_add(node.size);
            pivot.degree = pivot.degree.saturating_sub(node.size);
            return self.merge(v, pivot.vertex);
        }
        let end = self.graph.write(kept.end, pivot.vertex);
        let member = self.graph.node_mut(v);
        member.set_counts(count, end.saturating_sub(middle));
        member.degree = member.degree.min(kept.degree);
        member.hash = kept.hash;
        self.buckets.insert(v, kept.hash);
        Ok(())
    }

    /// Brings each member up to date.
    pub(crate) fn update_members(&mut self, pivot: &mut Pivot) -> Result<(), Memory> {
        for k in pivot.members.start..pivot.members.end {
            let v = self.graph.listed(k);
            self.update(pivot, v)?;
        }
        Ok(())
    }
}
