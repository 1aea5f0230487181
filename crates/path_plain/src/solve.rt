//! Best values from a list of sources.

ghost use Rattle.std.specs.Prelude.{◌∷◌, [], All, IfOk, IfSome};
ghost use Rattle.road_graph.specs.GraphData.{HasVertex};
ghost use Rattle.path_algebra.specs.Walks.{AreBest};
ghost use Rattle.path_plain.specs.UpTo.{AreBestAsFar, AreBestUpTo};

use crate::search::Search;
use crate::touched::Touched;
use path_algebra::{Labels, PathAlgebra};
use road_graph::{Graph, Memory, OutGraph, Vertex};
use std::alloc::Global;

/// Best values as far as the target, or everywhere if there is none.
fn solve_as_far<A: PathAlgebra>(
    alloc: Global,
    algebra: A,
    graph: &OutGraph,
    sources: &[Vertex],
    target: Option<Vertex>,
) -> Result<Labels<A::Value>, Memory>
    requires sources { All (HasVertex graph.now) sources.now }
    requires target { IfSome target (HasVertex graph.now) }
    ensures { IfOk result (λ labels. AreBestAsFar (A.meaning algebra) graph.now sources.now target
        labels) }
{
    let mut search = Search::new(alloc, algebra, graph, Touched::unnoted())?;
    search.start(sources)?;
    search.run(graph, target)?;
    Ok(search.into_labels())
}

/// The best value of each vertex over all walks from some source of the list, and none if no walk
/// has a value. Sources may repeat.
///
/// Vertices are settled best first, each once; an entry of the queue that has become stale is
/// dropped when it comes up.
pub fn solve_outgoing<A: PathAlgebra>(
    alloc: Global,
    algebra: A,
    graph: &OutGraph,
    sources: &[Vertex],
) -> Result<Labels<A::Value>, Memory>
    requires { All (HasVertex graph.now) sources.now }
    ensures { IfOk result (λ labels. AreBest (A.meaning algebra) graph.now sources.now labels) }
{
    solve_as_far(alloc, algebra, graph, sources, None)
}

/// The same as far as the target: the search stops once each value that waits is worse than the
/// target's.
///
/// Vertices with a value as good as the target's are settled too, since a tight arc to the target
/// may come from them.
pub fn solve_to<A: PathAlgebra>(
    alloc: Global,
    algebra: A,
    graph: &OutGraph,
    sources: &[Vertex],
    target: Vertex,
) -> Result<Labels<A::Value>, Memory>
    requires sources { All (HasVertex graph.now) sources.now }
    requires target { HasVertex graph.now target }
    ensures { IfOk result (λ labels. AreBestUpTo (A.meaning algebra) graph.now sources.now target
        labels) }
{
    solve_as_far(alloc, algebra, graph, sources, Some(target))
}

/// The best value of each vertex over all walks from the source, and none if no walk has a value.
pub fn solve_one<A: PathAlgebra>(
    alloc: Global,
    algebra: A,
    graph: &Graph,
    source: Vertex,
) -> Result<Labels<A::Value>, Memory>
    requires { HasVertex graph.now source }
    ensures { IfOk result (λ labels. AreBest (A.meaning algebra) graph.now (source ∷ []) labels) }
{
    solve_outgoing(alloc, algebra, graph.outgoing(), &[source])
}
