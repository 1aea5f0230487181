//! Factors of a graph, made for the answers that are asked for later.
ghost use Rattle.std.specs.Prelude.{◌≡◌, ◌↔◌, ◌∷◌, [], pos, IsSome};
ghost use Rattle.path_algebra.specs.Choices.{IsAlgebra, OfAlgebra, Under, arc_cost_of};
ghost use Rattle.answer_lists.specs.Answers.{IsOneOf};
ghost use Rattle.answer_lists.specs.Factoring.{IsDense, IsTooHeavy, OfCost, ReportsFactoring};

use crate::shared_graph::SharedGraph;
use crate::status::{DENSE, DONE, HEAVY, MEMORY, NO_ALGEBRA, NO_FACTORS, STOPPED};
use factor_routes::Unfactored;
use halting::Stop;
use path_algebra::{AlgebraChoice, PathAlgebra, with_algebra};

/// Factors a graph for an algebra.
fn factor<A: PathAlgebra>(algebra: A, shared: &mut SharedGraph, stop: &Option<Stop>) -> i32
    ensures graph { shared.new.roads ≡ shared.old.roads }
    ensures kept { (result ≡ pos 0 → ⊥) → shared.new ≡ shared.old }
    ensures factored { ReportsFactoring shared.old shared.new result (A.arc_cost algebra) }
    ensures heavy { result ≡ pos 8 → IsTooHeavy (A.meaning algebra) shared.old.roads }
    ensures dense { result ≡ pos 7 → IsDense (A.meaning algebra) shared.old.roads }
    ensures stopped { result ≡ pos 45 → IsSome stop.now }
    ensures status { IsOneOf (0 ∷ 3 ∷ 7 ∷ 8 ∷ 9 ∷ 45 ∷ []) result }
{
    let Some(cost) = algebra.cost() else {
        return NO_FACTORS;
    };
    match shared.factor(cost, stop) {
        Ok(()) => DONE,
        Err(Unfactored::Memory) => MEMORY,
        Err(Unfactored::Dense(_)) => DENSE,
        Err(Unfactored::Heavy) => HEAVY,
        Err(Unfactored::Stopped) => STOPPED,
    }
}

/// Factors a graph for the chosen algebra.
fn factor_chosen(chosen: AlgebraChoice, shared: &mut SharedGraph, stop: &Option<Stop>) -> i32
    ensures graph { shared.new.roads ≡ shared.old.roads }
    ensures kept { (result ≡ pos 0 → ⊥) → shared.new ≡ shared.old }
    ensures factored { ReportsFactoring shared.old shared.new result (arc_cost_of chosen) }
    ensures heavy { result ≡ pos 8 → Under chosen (λ V A. IsTooHeavy A shared.old.roads) }
    ensures dense { result ≡ pos 7 → Under chosen (λ V A. IsDense A shared.old.roads) }
    ensures stopped { result ≡ pos 45 → IsSome stop.now }
    ensures status { IsOneOf (0 ∷ 3 ∷ 7 ∷ 8 ∷ 9 ∷ 45 ∷ []) result }
{
    with_algebra!(chosen, |algebra| factor(algebra, shared, stop))
}

/// Factors a graph for the algebra of a number, at every limit, if there is such an algebra.
///
/// What is asked afterwards has the same answers, whether there are factors or not.
#[tactic(auto, using(path_algebra::proofs::Chosen::of_numbered, crate::proofs::Costs::cost_of_numbered))]
pub fn factor_graph(number: u32, shared: &mut SharedGraph, stop: &Option<Stop>) -> i32
    ensures graph { shared.new.roads ≡ shared.old.roads }
    ensures kept { (result ≡ pos 0 → ⊥) → shared.new ≡ shared.old }
    ensures factored { OfCost number (ReportsFactoring shared.old shared.new result) }
    ensures heavy { result ≡ pos 8 → OfAlgebra number 0 (λ V A. IsTooHeavy A shared.old.roads) }
    ensures dense { result ≡ pos 7 → OfAlgebra number 0 (λ V A. IsDense A shared.old.roads) }
    ensures algebra { (result ≡ pos 43) ↔ (IsAlgebra number 0 → ⊥) }
    ensures stopped { result ≡ pos 45 → IsSome stop.now }
    ensures status { IsOneOf (0 ∷ 3 ∷ 7 ∷ 8 ∷ 9 ∷ 43 ∷ 45 ∷ []) result }
{
    let Some(chosen) = AlgebraChoice::numbered(number, 0) else {
        return NO_ALGEBRA;
    };
    factor_chosen(chosen, shared, stop)
}
