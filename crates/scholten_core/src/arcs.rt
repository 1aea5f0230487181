//! The arcs of a diffusion: those of the graph, and before them the one from the environment to the
//! source.
ghost use Rattle.std.specs.Prelude.{◌≡◌, ◌≤◌, length};
ghost use Rattle.road_graph.specs.GraphData.{HasVertex};
ghost use Rattle.scholten_core.specs.Network.{tail_of as tail_in, head_of as head_in};

use crate::laws::roads_hold;
use road_graph::{ArcNo, Graph, Vertex};

/// The arc from the environment to the source.
pub const ENTRY: ArcNo = ArcNo(0);

/// The vertex that an arc leaves: the environment, vertex 0, for arc 0.
pub fn tail_of(graph: &Graph, a: ArcNo) -> Vertex
    requires { a ≤ length graph.now.arcs }
    ensures tail { result ≡ tail_in graph.now a }
    ensures within { result ≤ graph.now.vertices }
{
    roads_hold(graph);
    if a == ENTRY { Vertex(0) } else { graph.tail(a) }
}

/// The vertex that an arc enters: the source, for arc 0.
pub fn head_of(graph: &Graph, source: Vertex, a: ArcNo) -> Vertex
    requires arc { a ≤ length graph.now.arcs }
    requires source { HasVertex graph.now source }
    ensures head { result ≡ head_in graph.now source a }
    ensures low { 1 ≤ result }
    ensures within { result ≤ graph.now.vertices }
{
    roads_hold(graph);
    if a == ENTRY { source } else { graph.head(a) }
}
