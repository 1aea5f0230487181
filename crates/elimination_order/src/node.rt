//! A vertex of a quotient graph.

use crate::lists::{Span, stored};

/// A vertex that is left, a supervariable, or an element.
///
/// Its list lies in one array for all: the vertices that are its neighbours by edges of the graph,
/// and then the elements that it is a member of. The list of an element has its members alone.
#[derive(Clone, Copy)]
pub(crate) struct Node {
    start: u32,
    vertices: u32,
    elements: u32,
    /// How many vertices it stands for; 0 once it is eliminated or merged.
    pub(crate) size: u32,
    /// A bound of its degree; of an element how many vertices its members stand for, and 0 once it
    /// is absorbed.
    pub(crate) degree: u32,
    /// When it was last met.
    pub(crate) mark: u32,
    /// The hash of its list.
    pub(crate) hash: u32,
    /// Of an element, how many vertices its members outside the newest element stand for.
    pub(crate) outside: u32,
}

impl Node {
    /// A vertex with no neighbours.
    pub(crate) fn new() -> Self {
        Node {
            start: 0,
            vertices: 0,
            elements: 0,
            size: 1,
            degree: 0,
            mark: 0,
            hash: 0,
            outside: 0,
        }
    }

    /// Where its neighbours by edges of the graph are; of an element its members.
    #[inline]
    pub(crate) fn vertices(&self) -> Span {
        Span::new(self.start as usize, self.vertices as usize)
    }

    /// Where the elements are that it is a member of.
    #[inline]
    pub(crate) fn elements(&self) -> Span {
        Span::new(self.vertices().end, self.elements as usize)
    }

    /// Where its list is.
    #[inline]
    pub(crate) fn list(&self) -> Span {
        Span {
            start: self.start as usize,
            end: self.elements().end,
        }
    }

    /// Whether its list may have the same entries as another's.
    #[inline]
    pub(crate) fn may_equal(&self, other: Node) -> bool {
        self.hash == other.hash
            && self.vertices == other.vertices
            && self.elements == other.elements
    }

    /// Its list is there.
    pub(crate) fn set_list(&mut self, vertices: Span) {
        self.start = stored(vertices.start);
        self.set_counts(vertices.len(), 0);
    }

    /// Its list has so many entries.
    #[inline]
    pub(crate) fn set_counts(&mut self, vertices: usize, elements: usize) {
        self.vertices = stored(vertices);
        self.elements = stored(elements);
    }
}
