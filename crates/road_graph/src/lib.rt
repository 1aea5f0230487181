//! A directed road graph in compact form: its arcs by number and by tail, or by head.
//!
//! Vertices and arcs are numbered from 1. One list has the numbers of the arcs, vertex by vertex,
//! and a list of offsets says where the row of each vertex starts. Heads and weights are in the
//! order of these rows too, for callers that go along all of them: with the offsets they are a
//! graph by themselves, `OutGraph`. `InGraph` has the rows by head, for those that ask for them.
#![tactic(auto)]

mod arcs;
mod bad_ends;
mod graph;
mod in_graph;
mod index;
mod lookup;
mod out_graph;
mod rows;
mod weights;

pub use graph::Graph;
pub use in_graph::InGraph;
pub use out_graph::OutGraph;
use std::alloc::AllocError;
use std::marker::Model;

/// A vertex, numbered from 1.
#[derive(Clone, Copy, Debug, PartialEq, Eq, PartialOrd, Ord, Hash)]
pub struct Vertex(pub u32);

impl Model for Vertex {
    ghost use Rattle.std.specs.Prelude.{ℕ};

    ghost Value = { ℕ };

    ghost view = { λ v. v.0 };

    ghost inverse = { λ n. record { 0 = n } };
}

/// An arc, numbered from 1 in the order in which the arcs were given.
#[derive(Clone, Copy, Debug, PartialEq, Eq, PartialOrd, Ord, Hash)]
pub struct ArcNo(pub u32);

impl Model for ArcNo {
    ghost use Rattle.std.specs.Prelude.{ℕ};

    ghost Value = { ℕ };

    ghost view = { λ a. a.0 };

    ghost inverse = { λ n. record { 0 = n } };
}

/// What it costs to go along an arc, a whole number without a unit.
pub type Weight = u32;

/// A one-way road from one vertex to another, or to the same one.
#[derive(Clone, Copy, Debug, PartialEq, Eq)]
pub struct RoadArc {
    pub tail: Vertex,
    pub head: Vertex,
    pub weight: Weight,
}

/// An arc as it is seen from its tail.
#[derive(Clone, Copy, Debug, PartialEq, Eq)]
pub struct OutRoad {
    pub head: Vertex,
    pub weight: Weight,
}

/// Memory was refused.
#[derive(Clone, Copy, Debug, PartialEq, Eq)]
pub struct Memory;

impl From<AllocError> for Memory {
    fn from(_error: AllocError) -> Self {
        Memory
    }
}

/// Why a graph was not made.
#[derive(Clone, Copy, Debug, PartialEq, Eq)]
pub enum GraphFault {
    /// The first arc with an end that is no vertex.
    BadEnd(ArcNo),
    /// Memory was refused.
    Memory,
}

/// An end of an arc, by which arcs are put into rows.
#[derive(Clone, Copy, Debug, PartialEq, Eq)]
pub enum Side {
    Tail,
    Head,
}
