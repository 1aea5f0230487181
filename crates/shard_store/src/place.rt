//! Vertices and arcs with their places in the tables of a part.

use road_graph::{ArcNo, Vertex};
use std::marker::Model;

/// A vertex of a part, and its place among the part's own vertices.
#[derive(Clone, Copy, Debug)]
pub struct VertexPlace {
    pub vertex: Vertex,
    pub at: usize,
}

impl Model for VertexPlace {
    ghost use Rattle.shard_store.specs.Places.{VertexAt};

    ghost Value = { VertexAt };

    ghost view = { λ v. record { vertex = v.vertex; at = v.at } };

    ghost inverse = { λ v. record { vertex = v.vertex; at = v.at } };
}

/// An arc out of a vertex of a part, and its place among all these arcs.
#[derive(Clone, Copy, Debug)]
pub struct ArcPlace {
    pub arc: ArcNo,
    pub at: usize,
}

impl Model for ArcPlace {
    ghost use Rattle.shard_store.specs.Places.{ArcAt};

    ghost Value = { ArcAt };

    ghost view = { λ b. record { arc = b.arc; at = b.at } };

    ghost inverse = { λ b. record { arc = b.arc; at = b.at } };
}
