//! What is found of a pair.

use road_graph::Vertex;

/// What is found of a pair that some walk joins.
#[derive(Debug, Drop)]
pub struct Found {
    /// The code of the best value.
    pub code: u64,
    /// The number of arcs of the route: the least hops of its target.
    pub hops: u32,
    /// The vertices of the route, source and target included: each is the least parent of the next.
    pub route: Vec<Vertex>,
}

/// What a search that gives up early finds of a pair.
#[derive(Debug, Drop)]
pub enum Nearby {
    /// The pair is decided; none if no walk joins it.
    Decided(Option<Found>),
    /// The search gave up before it had come past the target.
    Undecided,
}
