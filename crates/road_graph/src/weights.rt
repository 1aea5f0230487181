//! Other weights for the roads of a graph.
ghost use Rattle.std.specs.Prelude.{◌≡◌, ℕ, ◌<◌, ◌≤◌, ◌⊎◌, ◌^◌, length, IsTrue, false};
ghost use Rattle.road_graph.specs.Changing.{road_after, road_at};

use crate::{OutRoad, RoadArc};

/// Gives each road of a row to the head of a change its weight. Whether there is one.
pub(crate) fn set_weights(roads: &mut [OutRoad], start: usize, end: usize, change: RoadArc) -> bool
    requires { end ≤ length roads.old }
    ensures fits { change.weight < 2 ^ 32 }
    ensures count { length roads.new ≡ length roads.old }
    ensures there { (k : ℕ) → start ≤ k → k < end → road_at roads.new k ≡ road_after change
        (road_at roads.old k) }
    ensures elsewhere { (k : ℕ) → (k < start) ⊎ (end ≤ k) → road_at roads.new k ≡ road_at roads.old k }
    ensures found { IsTrue result → (k : ℕ) × (start ≤ k) × (k < end) ×
        ((road_at roads.old k).head ≡ change.head) }
    ensures missed { result ≡ false → (k : ℕ) → start ≤ k → k < end →
        (road_at roads.old k).head ≡ change.head → ⊥ }
{
    // Reading the weight gives the proof that it fits its type.
    let weight = change.weight;
    let mut found = false;
    for k in start..end {
        if roads[k].head == change.head {
            roads[k].weight = weight;
            found = true;
        }
    }
    found
}
