//! The calls that factor a graph.
ghost use Rattle.std.specs.Prelude.{◌≡◌, ◌↔◌, ◌∷◌, [], pos, IsSome, None};
ghost use Rattle.path_algebra.specs.Choices.{IsAlgebra, OfAlgebra};
ghost use Rattle.answer_lists.specs.Answers.{IsOneOf};
ghost use Rattle.answer_lists.specs.Factoring.{IsDense, IsTooHeavy, OfCost, ReportsFactoring, ReportsPlaces};
ghost use Rattle.diffuse_c.specs.Holding.{OfGraph, OfShared};
ghost use Rattle.diffuse_c.specs.Keeping.{KeepsUnlessFactored};

use crate::handle::{DiffuseGraph, put, take};
use crate::owners::Owner;
use crate::status::CLOSED;
use answer_lists::{factor_graph, factor_graph_by};
use std::alloc::Global;

/// Factors the graph for the algebra of a number, at every limit. Routes, trees and tables that are
/// asked for afterwards, by this handle and those opened from it later, use the factors. They are
/// answered the same.
#[unsafe(no_mangle)]
pub extern "C" fn diffuse_graph_factor(
    alloc: Global,
    handle: &mut DiffuseGraph,
    algebra: u32,
) -> i32
    ensures kept { KeepsUnlessFactored handle.old.held handle.new.held result }
    ensures factored { OfShared handle.old.held.shared (λ old. OfShared handle.new.held.shared
        (λ new. OfCost algebra (ReportsFactoring old new result))) }
    ensures heavy { OfGraph handle.old.held.shared (λ g. result ≡ pos 8 → OfAlgebra algebra 0
        (λ V A. IsTooHeavy A g)) }
    ensures dense { OfGraph handle.old.held.shared (λ g. result ≡ pos 7 → OfAlgebra algebra 0
        (λ V A. IsDense A g)) }
    ensures algebra { OfGraph handle.old.held.shared
        (λ g. (result ≡ pos 43) ↔ (IsAlgebra algebra 0 → ⊥)) }
    ensures closed { (result ≡ pos 4) ↔ (handle.old.held.shared ≡ None) }
    ensures stopped { result ≡ pos 45 → IsSome handle.old.held.stop }
    ensures status { IsOneOf (0 ∷ 3 ∷ 4 ∷ 7 ∷ 8 ∷ 9 ∷ 43 ∷ 45 ∷ []) result }
{
    let Some(mut owner) = take(alloc, handle) else {
        return CLOSED;
    };
    let Owner { shared, stop, .. } = &mut *owner;
    let status = factor_graph(algebra, shared, stop);
    put(handle, owner);
    status
}

/// Factors the graph for the algebra of a number, at every limit, by an order of elimination: the
/// place of each vertex in it, counted from 0. Factors that it had for the algebra go; other handles
/// keep theirs. What is asked afterwards is answered the same, whatever the order.
#[unsafe(no_mangle)]
pub extern "C" fn diffuse_graph_factor_by(
    alloc: Global,
    handle: &mut DiffuseGraph,
    algebra: u32,
    places: &[u32],
) -> i32
    ensures kept { KeepsUnlessFactored handle.old.held handle.new.held result }
    ensures factored { OfShared handle.old.held.shared (λ old. OfShared handle.new.held.shared
        (λ new. OfCost algebra (ReportsFactoring old new result))) }
    ensures places { OfGraph handle.old.held.shared (λ g. ReportsPlaces g.vertices places.now
        result) }
    ensures heavy { OfGraph handle.old.held.shared (λ g. result ≡ pos 8 → OfAlgebra algebra 0
        (λ V A. IsTooHeavy A g)) }
    ensures algebra { OfGraph handle.old.held.shared
        (λ g. (result ≡ pos 43) ↔ (IsAlgebra algebra 0 → ⊥)) }
    ensures closed { (result ≡ pos 4) ↔ (handle.old.held.shared ≡ None) }
    ensures stopped { result ≡ pos 45 → IsSome handle.old.held.stop }
    ensures status { IsOneOf (0 ∷ 2 ∷ 3 ∷ 4 ∷ 8 ∷ 9 ∷ 43 ∷ 45 ∷ 48 ∷ []) result }
{
    let Some(mut owner) = take(alloc, handle) else {
        return CLOSED;
    };
    let Owner { shared, stop, .. } = &mut *owner;
    let status = factor_graph_by(algebra, shared, stop, places);
    put(handle, owner);
    status
}
