//! Answers, in memory.

use path_algebra::AlgebraName;
use road_files::Kind;
use road_graph::Vertex;
use route_tree::Found;

/// The answer for a vertex that some walk reaches.
#[derive(Clone, Copy, Debug, PartialEq, Eq)]
pub struct Reached {
    /// The code of the best value.
    pub code: u64,
    /// The least number of arcs of a walk that has the best value all along.
    pub hops: u32,
    /// The vertex before this one on such a walk, the least there is; 0 at a source.
    pub parent: u32,
}

/// The answer to one question. Entry `i` of `lines` is that of vertex `i + 1`: `None` if no walk to
/// it has a value.
#[derive(Debug, Drop)]
pub enum Answer {
    Source {
        source: Vertex,
        lines: Vec<Option<Reached>>,
    },
    Pair {
        source: Vertex,
        target: Vertex,
        found: Option<Found>,
    },
    Multi {
        sources: Vec<Vertex>,
        lines: Vec<Option<Reached>>,
    },
}

/// The answers to all questions of a file.
#[derive(Debug, Drop)]
pub struct Answers {
    /// The algebra that was used.
    pub name: AlgebraName,
    pub kind: Kind,
    /// The number of vertices of the graph.
    pub n: u32,
    /// One answer for each question, in order.
    pub list: Vec<Answer>,
}
