//! Factors of a graph by an order that the caller gives.
ghost use Rattle.std.specs.Prelude.{◌≡◌, ◌↔◌, ◌≢◌, ◌∷◌, [], length, pos, IfErr, IfOk, IsSome};
ghost use Rattle.elimination_order.specs.Orders.{HasEachPlace};
ghost use Rattle.path_algebra.specs.Choices.{IsAlgebra, OfAlgebra, Under, arc_cost_of};
ghost use Rattle.answer_lists.specs.Answers.{IsOneOf};
ghost use Rattle.answer_lists.specs.Factoring.{IsTooHeavy, OfCost, ReportsFactoring, ReportsPlaces};

use crate::shared_graph::SharedGraph;
use crate::status::{DONE, HEAVY, MEMORY, NO_ALGEBRA, NO_FACTORS, NO_ORDER, NO_ROOM, STOPPED};
use elimination_order::Order;
use factor_routes::Unfactored;
use halting::Stop;
use path_algebra::{AlgebraChoice, PathAlgebra, with_algebra};
use road_graph::Memory;

/// The order by these places, or the status that says why it is none.
fn order_of(shared: &SharedGraph, places: &[u32]) -> Result<Order, i32>
    ensures long { IfOk result (λ order. length order.vertices.items ≡ shared.now.roads.vertices) }
    ensures places { IfOk result (λ _. (length places.now ≡ shared.now.roads.vertices) ×
        HasEachPlace places.now) }
    ensures short { IfErr result (λ e. e ≡ pos 2 → length places.now ≢ shared.now.roads.vertices) }
    ensures refused { IfErr result (λ e. e ≡ pos 48 → HasEachPlace places.now → ⊥) }
    ensures status { IfErr result (IsOneOf (2 ∷ 3 ∷ 48 ∷ [])) }
{
    let n = shared.graph().vertices() as usize;
    if places.len() != n {
        return Err(NO_ROOM);
    }
    match Order::of_places(shared.alloc(), places) {
        Ok(Some(order)) => Ok(order),
        Ok(None) => Err(NO_ORDER),
        Err(Memory) => Err(MEMORY),
    }
}

/// Factors a graph for an algebra by these places.
fn factor_by<A: PathAlgebra>(
    algebra: A,
    shared: &mut SharedGraph,
    stop: &Option<Stop>,
    places: &[u32],
) -> i32
    ensures graph { shared.new.roads ≡ shared.old.roads }
    ensures kept { (result ≡ pos 0 → ⊥) → shared.new ≡ shared.old }
    ensures factored { ReportsFactoring shared.old shared.new result (A.arc_cost algebra) }
    ensures places { ReportsPlaces shared.old.roads.vertices places.now result }
    ensures heavy { result ≡ pos 8 → IsTooHeavy (A.meaning algebra) shared.old.roads }
    ensures stopped { result ≡ pos 45 → IsSome stop.now }
    ensures status { IsOneOf (0 ∷ 2 ∷ 3 ∷ 8 ∷ 9 ∷ 45 ∷ 48 ∷ []) result }
{
    let Some(cost) = algebra.cost() else {
        return NO_FACTORS;
    };
    let order = match order_of(shared, places) {
        Ok(order) => order,
        Err(status) => return status,
    };
    match shared.factor_by(cost, &order, stop) {
        Ok(()) => DONE,
        Err(Unfactored::Memory) => MEMORY,
        Err(Unfactored::Heavy) => HEAVY,
        Err(Unfactored::Stopped) => STOPPED,
        Err(Unfactored::Dense(_)) => unreachable!(),
    }
}

/// Factors a graph for the algebra of a number, at every limit, by the place of each vertex in an
/// order of elimination, counted from 0. Factors that it had for the algebra go.
///
/// What is asked afterwards has the same answers, whatever the order; a good one makes fewer links.
#[tactic(auto, using(path_algebra::proofs::Chosen::of_numbered, crate::proofs::Costs::cost_of_numbered))]
pub fn factor_graph_by(
    number: u32,
    shared: &mut SharedGraph,
    stop: &Option<Stop>,
    places: &[u32],
) -> i32
    ensures graph { shared.new.roads ≡ shared.old.roads }
    ensures kept { (result ≡ pos 0 → ⊥) → shared.new ≡ shared.old }
    ensures factored { OfCost number (ReportsFactoring shared.old shared.new result) }
    ensures places { ReportsPlaces shared.old.roads.vertices places.now result }
    ensures heavy { result ≡ pos 8 → OfAlgebra number 0 (λ V A. IsTooHeavy A shared.old.roads) }
    ensures algebra { (result ≡ pos 43) ↔ (IsAlgebra number 0 → ⊥) }
    ensures stopped { result ≡ pos 45 → IsSome stop.now }
    ensures status { IsOneOf (0 ∷ 2 ∷ 3 ∷ 8 ∷ 9 ∷ 43 ∷ 45 ∷ 48 ∷ []) result }
{
    let Some(chosen) = AlgebraChoice::numbered(number, 0) else {
        return NO_ALGEBRA;
    };
    with_algebra!(chosen, |algebra| factor_by(algebra, shared, stop, places))
}
