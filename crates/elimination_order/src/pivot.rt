//! A pivot: the vertex that becomes an element, with the members of the element.

use crate::elimination::Elimination;
use crate::lists::Span;
use road_graph::Memory;
use std::alloc::AllocError;

/// The vertex that is eliminated, and its element.
#[derive(Clone, Copy)]
pub(crate) struct Pivot {
    pub(crate) vertex: u32,
    /// What the members are marked with.
    pub(crate) mark: u32,
    /// Where the members are.
    pub(crate) members: Span,
    /// How many vertices the members stand for.
    pub(crate) degree: u32,
    /// How many vertices are eliminated with it, itself too.
    pub(crate) eliminated: u32,
}

impl Elimination {
    /// Makes the vertices of a list that are left members of the newest element. Says how many the
    /// new ones stand for.
    fn gather(&mut self, list: Span, mark: u32) -> Result<u32, Memory> {
        let mut degree = 0u32;
        for k in list.start..list.end {
            let v = self.graph.listed(k);
            let node = self.graph.node_mut(v);
            if node.size > 0 && node.mark != mark {
                node.mark = mark;
                degree = degree.saturating_add(node.size);
                let old = node.degree;
                self.leave(v, old);
                self.graph.lists.push(v).map_err(AllocError::from)?;
            }
        }
        Ok(degree)
    }

    /// Begins with a vertex: gathers its neighbours, and absorbs the elements that it is a member
    /// of.
    pub(crate) fn begin(&mut self, vertex: u32) -> Result<Pivot, Memory> {
        let mark = self.graph.new_mark();
        let node = self.graph.node(vertex);
        self.leave(vertex, node.degree);
        let pivot = self.graph.node_mut(vertex);
        pivot.size = 0;
        pivot.mark = mark;
        let start = self.graph.lists.len();
        let mut degree = self.gather(node.vertices(), mark)?;
        let elements = node.elements();
        for k in elements.start..elements.end {
            let e = self.graph.listed(k);
            let element = self.graph.node(e);
            if element.degree > 0 {
                let more = self.gather(element.vertices(), mark)?;
                degree = degree.saturating_add(more);
                self.absorb(e, vertex);
            }
        }
        Ok(Pivot {
            vertex,
            mark,
            members: Span {
                start,
                end: self.graph.lists.len(),
            },
            degree,
            eliminated: node.size,
        })
    }

    /// Puts a member back into the degree lists, with a bound of its degree: of that outside the
    /// element and in it, and of the vertices that are left.
    fn restore(&mut self, pivot: Pivot, v: u32) {
        let left = self.left;
        let node = self.graph.node_mut(v);
        let most = node.degree.saturating_add(pivot.degree).min(left);
        node.degree = most.saturating_sub(node.size);
        let degree = node.degree;
        self.enter(v, degree);
    }

    /// Ends with the members that are left.
    pub(crate) fn end(&mut self, pivot: Pivot) {
        self.left = self.left.saturating_sub(pivot.eliminated);
        let start = pivot.members.start;
        let mut end = start;
        for k in start..pivot.members.end {
            let v = self.graph.listed(k);
            if self.graph.node(v).size > 0 {
                self.restore(pivot, v);
                end = self.graph.write(end, v);
            }
        }
        self.graph.lists.truncate(end);
        let element = self.graph.node_mut(pivot.vertex);
        element.set_list(Span { start, end });
        element.degree = pivot.degree;
    }

    /// Ends with a lone member, whose list is not looked at: only its degree falls.
    pub(crate) fn end_lone(&mut self, pivot: Pivot) {
        self.left = self.left.saturating_sub(pivot.eliminated);
        let left = self.left;
        let start = pivot.members.start;
        let v = self.graph.listed(start);
        let node = self.graph.node_mut(v);
        let most = left.saturating_sub(node.size);
        node.degree = node.degree.saturating_sub(pivot.eliminated).min(most);
        let degree = node.degree;
        self.enter(v, degree);
        self.graph.lists.truncate(start);
        self.absorb(pivot.vertex, v);
    }
}
