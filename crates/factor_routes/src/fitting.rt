//! How many low bits of a number hold the hops, if the sums fit above them.
ghost use Rattle.std.specs.Prelude.{◌≡◌, ℕ, ◌<◌, ◌≤◌, ◌^◌, IfSome, IfNone};
ghost use Rattle.road_graph.specs.GraphData.{HasVertex};
ghost use Rattle.path_algebra.specs.Counted.{cost_of, sum_to, CountsFit};
ghost use Rattle.factor_routes.specs.Greatest.{greatest_into};

use path_algebra::{Cost, CountedSums};
use road_graph::{InGraph, Vertex};

/// What an arc of weight `w` costs.
fn cost_of(cost: Cost, w: u32) -> u32
    ensures { result ≡ cost_of cost w }
{
    match cost {
        Cost::Weight => w,
        Cost::One => 1,
    }
}

/// The greatest cost among the arcs that enter a vertex; 0 if none does.
fn greatest_into(cost: Cost, by_head: &InGraph, v: Vertex) -> u32
    requires { HasVertex by_head.now v }
    ensures { result ≡ greatest_into (cost_of cost) v by_head.now.arcs }
{
    let mut greatest = 0u32;
    for road in by_head.roads_into(v) {
        greatest = greatest.max(cost_of(cost, road.weight));
    }
    greatest
}

/// The sum of the greatest costs into each vertex.
fn sum_of_greatest(cost: Cost, by_head: &InGraph) -> u64
    ensures sum { result ≡ sum_to (λ v. greatest_into (cost_of cost) v by_head.now.arcs)
        by_head.now.vertices }
    ensures low { result < 2 ^ 58 }
{
    by_head.holds();
    let mut sum = 0u64;
    for i in 0..by_head.vertices() {
        sum += u64::from(greatest_into(cost, by_head, Vertex(i + 1)));
    }
    sum
}

/// The least number of bits in which n can be written.
fn bits_of(n: u32) -> u32
    ensures enough { n < 2 ^ result }
    ensures least { (k : ℕ) → n < 2 ^ k → result ≤ k }
    ensures few { result ≤ 32 }
{
    u32::BITS - n.leading_zeros()
}

/// Sums of costs with as few low bits for the hops as hold them; none if no number of low bits
/// leaves room for the sums.
pub(crate) fn fitting_sums(cost: Cost, by_head: &InGraph) -> Option<CountedSums>
    ensures cost { IfSome result (λ sums. sums.cost ≡ cost) }
    ensures fits { IfSome result (λ sums. CountsFit by_head.now (cost_of cost) sums.bits) }
    ensures none { IfNone result ((k : ℕ) → CountsFit by_head.now (cost_of cost) k → ⊥) }
{
    by_head.holds();
    let bits = bits_of(by_head.vertices());
    if bits < 32 && sum_of_greatest(cost, by_head) < 1u64 << (63 - bits) {
        CountedSums::new(cost, bits)
    } else {
        None
    }
}
