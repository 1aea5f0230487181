//! The best of the roads out of a vertex that lead to another one.

ghost use Rattle.std.specs.Prelude.{◌≡◌, length, MatchOption};
ghost use Rattle.arc_numbers.specs.BestRoad.{IsBestRoadOrNone, LeadsTo, better_road};

use path_algebra::{PathAlgebra, laws_hold};
use road_graph::{OutRoad, Vertex};

/// The value x extended by a road, if the road leads to v and is not refused.
fn extended<A: PathAlgebra>(algebra: A, x: A::Value, road: OutRoad, v: Vertex) -> Option<A::Value>
    ensures { MatchOption result
        ((y : A.Value) → LeadsTo (A.meaning algebra) x v road y → ⊥)
        (LeadsTo (A.meaning algebra) x v road) }
{
    if road.head == v {
        algebra.extend(x, road.weight)
    } else {
        None
    }
}

/// The best road after one more, whose extension this is: of two that tie the first.
fn better<A: PathAlgebra>(
    best: Option<(usize, A::Value)>,
    index: usize,
    extended: Option<A::Value>,
) -> Option<(usize, A::Value)>
    ensures { result ≡ better_road A.order best index extended }
{
    let Some(y) = extended else {
        return best;
    };
    match best {
        Some(first) if A::no_worse(first.1, y) => Some(first),
        _ => Some((index, y)),
    }
}

/// The index of the first of the roads to v that extend the value x best, and the best value; none
/// if none of them extends it.
pub(crate) fn best_road<A: PathAlgebra>(
    algebra: A,
    roads: &[OutRoad],
    v: Vertex,
    x: A::Value,
) -> Option<(usize, A::Value)>
    ensures { IsBestRoadOrNone (A.meaning algebra) x v roads.now (length roads.now) result }
{
    laws_hold(algebra);
    let mut best = None;
    for i in 0..roads.len() {
        best = better::<A>(best, i, extended(algebra, x, roads[i], v));
    }
    best
}
