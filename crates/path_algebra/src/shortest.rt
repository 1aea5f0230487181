//! Least sums of weights.
use crate::algebra::PathAlgebra;
use crate::counted_sums::Cost;
use crate::name::AlgebraName;

/// The greatest value.
const GREATEST: u64 = 1 << 63;

/// The sum of a walk's weights, less is better. Sums are held at 2^63, which no best value within
/// the limits of a graph comes near.
#[derive(Clone, Copy, Debug, PartialEq, Eq)]
pub struct Shortest;

impl PathAlgebra for Shortest {
    ghost use Rattle.std.specs.Prelude.{refl, Some};
    ghost use Rattle.path_algebra.specs.Counted.{Weight};
    ghost use Rattle.path_algebra.specs.Given.{shortest};
    ghost use Rattle.path_algebra.specs.Laws.{less_is_better, shortest_laws};

    type Value = u64;

    ghost order = { shortest.no_worse };

    ghost meaning = { λ _. shortest };

    ghost arc_cost = { λ _. Some Weight };

    ghost one_order = { λ _. refl };

    ghost ordered = { less_is_better };

    ghost lawful = { λ _. shortest_laws };

    fn is_value(self, v: u64) -> bool {
        v <= GREATEST
    }

    fn origin(self) -> u64 {
        0
    }

    fn extend(self, v: u64, w: u32) -> Option<u64> {
        Some(v.saturating_add(u64::from(w)).min(GREATEST))
    }

    fn no_worse(a: u64, b: u64) -> bool {
        a <= b
    }

    fn code(self, v: u64) -> u64 {
        v
    }

    fn value_of(self, code: u64) -> Option<u64> {
        if code <= GREATEST { Some(code) } else { None }
    }

    fn name(self) -> AlgebraName {
        AlgebraName::Shortest
    }

    fn cost(self) -> Option<Cost> {
        Some(Cost::Weight)
    }
}
