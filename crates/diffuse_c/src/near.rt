//! The call that answers what is reached from the nearest of some sources.
ghost use Rattle.std.specs.Prelude.{◌≡◌, ◌↔◌, ◌∷◌, [], pos, All, IsSome, None};
ghost use Rattle.road_graph.specs.GraphData.{HasVertex};
ghost use Rattle.path_algebra.specs.Choices.{OfAlgebra};
ghost use Rattle.answer_lists.specs.Answers.{IsFound, IsOneOf, ReportsRefusals};
ghost use Rattle.answer_lists.specs.Near.{AreNearLists, IsReachedCount};
ghost use Rattle.diffuse_c.specs.Holding.{OfGraph};
ghost use Rattle.diffuse_c.specs.Keeping.{KeepsHeld};
ghost use Rattle.diffuse_c.specs.Rooms.{FillsNear, near_places};

use crate::handle::{DiffuseGraph, put, take};
use crate::owners::Owner;
use crate::status::CLOSED;
use answer_lists::{AlgebraNumber, NearLists, answer_near};
use std::alloc::Global;

/// The vertices that are reached from the nearest of some sources, the best first, by the algebra
/// of a number: how many there are, and of each the best value, as a code, the least hops and the
/// least parent.
///
/// A list without places is not wanted. If a list is too short, the count is still written.
#[unsafe(no_mangle)]
pub extern "C" fn diffuse_graph_near(
    alloc: Global,
    handle: &mut DiffuseGraph,
    algebra: u32,
    limit: u64,
    sources: &[u32],
    vertices: &mut [u32],
    codes: &mut [u64],
    hops: &mut [u32],
    parents: &mut [u32],
    count: &mut usize,
) -> i32
    ensures kept { KeepsHeld handle.old.held handle.new.held }
    ensures count { OfGraph handle.old.held.shared (λ g. IsFound result → OfAlgebra algebra limit
        (λ V A. IsReachedCount A g sources.now count.new)) }
    ensures near { OfGraph handle.old.held.shared (λ g. result ≡ pos 0 → OfAlgebra algebra limit
        (λ V A. AreNearLists A g sources.now count.new vertices.new codes.new hops.new
        parents.new)) }
    ensures places { FillsNear
        (near_places vertices.old codes.old hops.old parents.old count.old)
        (near_places vertices.new codes.new hops.new parents.new count.new) result }
    ensures refusals { OfGraph handle.old.held.shared
        (λ g. ReportsRefusals (All (HasVertex g) sources.now) algebra limit result) }
    ensures closed { (result ≡ pos 4) ↔ (handle.old.held.shared ≡ None) }
    ensures stopped { result ≡ pos 45 → IsSome handle.old.held.stop }
    ensures status { IsOneOf (0 ∷ 2 ∷ 3 ∷ 4 ∷ 17 ∷ 43 ∷ 45 ∷ []) result }
{
    let Some(mut owner) = take(alloc, handle) else {
        return CLOSED;
    };
    let Owner { shared, stop, .. } = &mut *owner;
    let by = AlgebraNumber { algebra, limit };
    let mut lists = NearLists {
        vertices,
        codes,
        hops,
        parents,
        count,
    };
    let status = answer_near(by, shared, stop, sources, &mut lists);
    put(handle, owner);
    status
}
