//! Theorems over numbers that carry hops: the sum of a walk times 2^k and its arcs. The least such
//! number is the least sum and, among those, the fewest arcs, so one number stands for a vertex's
//! value and hops, and its parent is the least tail whose number and arc add up to it.
ghost use Rattle.std.specs.Prelude.{ℕ, List, All};
ghost use Rattle.road_graph.specs.GraphData.{HasVertex};
ghost use Rattle.path_algebra.specs.Counted.{CarryHops, CarryHopsWithin, CountsFit, cost_of, Weight, One};
ghost use Rattle.path_algebra.specs.Given.{hops, shortest};

use road_graph::Graph;

/// If the numbers fit, the best of them are best values with their hops and parents: for
/// `Shortest`, for `Within` at every limit by the same numbers, and for `Hops`.
pub fn best_numbers_carry_hops(graph: &Graph)
    ensures shortest { (sources : List ℕ) (k : ℕ) → All (HasVertex graph.now) sources →
        CountsFit graph.now (cost_of Weight) k → CarryHops shortest graph.now (cost_of Weight) k sources }
    ensures within { (sources : List ℕ) (k limit : ℕ) → All (HasVertex graph.now) sources →
        CountsFit graph.now (cost_of Weight) k → CarryHopsWithin limit graph.now k sources }
    ensures hops { (sources : List ℕ) (k : ℕ) → All (HasVertex graph.now) sources →
        CountsFit graph.now (cost_of One) k → CarryHops hops graph.now (cost_of One) k sources }
{
    graph.holds();
}
