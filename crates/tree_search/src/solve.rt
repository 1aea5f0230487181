//! Best values from a list of sources, with their hops and parents.

ghost use Rattle.std.specs.Prelude.{◌≡◌, All, IfOk, IfSome, None};
ghost use Rattle.road_graph.specs.GraphData.{HasVertex};
ghost use Rattle.path_algebra.specs.Walks.{AreBest};
ghost use Rattle.halting.specs.Halting.{CanHalt};
ghost use Rattle.route_tree.specs.Tree.{IsTree};

use crate::search::Search;
use halting::Halt;
use path_algebra::{Labels, PathAlgebra, laws_hold};
use path_plain::solve_outgoing;
use road_graph::{Memory, OutGraph, Vertex};
use route_tree::{Tree, tree_outgoing};
use std::alloc::Global;

/// Labels and tree by one search, which finds hops and parents with the values; none if it is to
/// give up before. The only error is `Memory`.
pub fn solve_with_tree_unless<A: PathAlgebra>(
    alloc: Global,
    algebra: A,
    graph: &OutGraph,
    sources: &[Vertex],
    halt: &mut Halt<'_>,
) -> Result<Option<(Labels<A::Value>, Tree)>, Memory>
    requires { All (HasVertex graph.now) sources.now }
    ensures labels { IfOk result (λ found. IfSome found (λ s. AreBest (A.meaning algebra) graph.now
        sources.now s.0)) }
    ensures tree { IfOk result (λ found. IfSome found (λ s. IsTree (A.meaning algebra) graph.now
        sources.now s.1)) }
    ensures halts { IfOk result (λ found. found ≡ None → CanHalt halt.old) }
{
    laws_hold(algebra);
    graph.holds();
    let mut search = Search::new(alloc, algebra, graph)?;
    search.start(sources)?;
    loop {
        let step = search.settle_next(graph)?;
        if step.is_end() {
            return Ok(Some(search.into_labels_and_tree()));
        }
        if halt.is_due() {
            return Ok(None);
        }
    }
}

/// Labels by a search, and their tree by a pass over the tight arcs.
fn solve_in_two_passes<A: PathAlgebra>(
    alloc: Global,
    algebra: A,
    graph: &OutGraph,
    sources: &[Vertex],
) -> Result<(Labels<A::Value>, Tree), Memory>
    requires { All (HasVertex graph.now) sources.now }
    ensures labels { IfOk result (λ s. AreBest (A.meaning algebra) graph.now sources.now s.0) }
    ensures tree { IfOk result (λ s. IsTree (A.meaning algebra) graph.now sources.now s.1) }
{
    let labels = solve_outgoing(alloc, algebra, graph, sources)?;
    let tree = tree_outgoing(alloc, algebra, graph, sources, &labels)?;
    Ok((labels, tree))
}

/// The best value of each vertex over all walks from some source of the list, and none if no walk
/// has a value; with the tree of these values. Sources may repeat. The only error is `Memory`.
///
/// One search finds both, unless `ties_mostly` says that most values tie: a heap that orders by
/// hops too then costs more than a pass over the arcs. Besides the labels and the tree it takes a
/// byte a vertex, and the queue.
pub fn solve_with_tree<A: PathAlgebra>(
    alloc: Global,
    algebra: A,
    graph: &OutGraph,
    sources: &[Vertex],
) -> Result<(Labels<A::Value>, Tree), Memory>
    requires { All (HasVertex graph.now) sources.now }
    ensures labels { IfOk result (λ s. AreBest (A.meaning algebra) graph.now sources.now s.0) }
    ensures tree { IfOk result (λ s. IsTree (A.meaning algebra) graph.now sources.now s.1) }
{
    if algebra.ties_mostly() {
        return solve_in_two_passes(alloc, algebra, graph, sources);
    }
    match solve_with_tree_unless(alloc, algebra, graph, sources, &mut Halt::Never)? {
        Some(solved) => Ok(solved),
        None => unreachable!(),
    }
}
