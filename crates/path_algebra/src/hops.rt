//! Least numbers of arcs.
use crate::algebra::PathAlgebra;
use crate::counted_sums::Cost;
use crate::name::AlgebraName;

/// The greatest value.
const GREATEST: u64 = 1 << 63;

/// The number of a walk's arcs, whatever their weights, less is better. It is held at 2^63.
#[derive(Clone, Copy, Debug, PartialEq, Eq)]
pub struct Hops;

impl PathAlgebra for Hops {
    ghost use Rattle.std.specs.Prelude.{refl, Some};
    ghost use Rattle.path_algebra.specs.Counted.{One};
    ghost use Rattle.path_algebra.specs.Given.{hops};
    ghost use Rattle.path_algebra.specs.Laws.{less_is_better, hops_laws};

    type Value = u64;

    ghost order = { hops.no_worse };

    ghost meaning = { λ _. hops };

    ghost arc_cost = { λ _. Some One };

    ghost one_order = { λ _. refl };

    ghost ordered = { less_is_better };

    ghost lawful = { λ _. hops_laws };

    fn is_value(self, v: u64) -> bool {
        v <= GREATEST
    }

    fn origin(self) -> u64 {
        0
    }

    fn extend(self, v: u64, _w: u32) -> Option<u64> {
        Some(v.saturating_add(1).min(GREATEST))
    }

    fn no_worse(a: u64, b: u64) -> bool {
        a <= b
    }

    fn code(self, v: u64) -> u64 {
        v
    }

    fn value_of(self, code: u64) -> Option<u64> {
        if code <= GREATEST { Some(code) } else { None }
    }

    fn name(self) -> AlgebraName {
        AlgebraName::Hops
    }

    fn cost(self) -> Option<Cost> {
        Some(Cost::One)
    }
}
