//! The arcs of a route, step by step.

ghost use Rattle.std.specs.Prelude.{◌≡◌, ◌∷◌, [], ℕ, length};
ghost use Rattle.path_algebra.specs.Walks.{IsBestCode, IsParentChain};
ghost use Rattle.arc_numbers.specs.RouteArcs.{AreRouteArcs};

use crate::rows::NumberRows;
use path_algebra::{PathAlgebra, laws_hold};
use road_graph::{OutGraph, Vertex};

/// Writes the arcs of a route, counted from 0: `rest` has the vertices after the source.
pub(crate) fn write_arcs<A: PathAlgebra>(
    algebra: A,
    graph: &OutGraph,
    numbers: &NumberRows,
    source: Vertex,
    rest: &[u32],
    arcs: &mut [u32],
)
    requires graph { graph.now ≡ numbers.now.roads }
    requires route { (t : ℕ) × IsParentChain (A.meaning algebra) graph.now (source ∷ []) source
        rest.now t }
    requires room { length arcs.old ≡ length rest.now }
    ensures { (t code : ℕ) →
        IsParentChain (A.meaning algebra) graph.now (source ∷ []) source rest.now t →
        IsBestCode (A.meaning algebra) graph.now (source ∷ []) t code →
        AreRouteArcs (A.meaning algebra) numbers.now.numbered (source ∷ rest.now) arcs.new code }
{
    laws_hold(algebra);
    graph.holds();
    numbers.holds();
    let mut at = source;
    let mut value = algebra.origin();
    for i in 0..rest.len() {
        let next = Vertex(rest[i]);
        let Some(step) = numbers.best_step(algebra, graph, (at, next), value) else {
            // A route has a step to each of its vertices.
            return;
        };
        arcs[i] = step.0.0 - 1;
        at = next;
        value = step.1;
    }
}
