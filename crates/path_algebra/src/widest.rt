//! Greatest widths.
use crate::algebra::PathAlgebra;
use crate::counted_sums::Cost;
use crate::name::AlgebraName;

/// The greatest value, wider than every arc.
const WIDEST: u64 = 1 << 32;

/// The least weight on a walk, more is better: how wide a thing can be that passes all its arcs.
/// The walk of no arcs has 2^32, more than any weight.
#[derive(Clone, Copy, Debug, PartialEq, Eq)]
pub struct Widest;

impl PathAlgebra for Widest {
    ghost use Rattle.std.specs.Prelude.{refl, None};
    ghost use Rattle.path_algebra.specs.Given.{widest};
    ghost use Rattle.path_algebra.specs.Laws.{more_is_better, widest_laws};

    type Value = u64;

    ghost order = { widest.no_worse };

    ghost meaning = { λ _. widest };

    ghost arc_cost = { λ _. None };

    ghost one_order = { λ _. refl };

    ghost ordered = { more_is_better };

    ghost lawful = { λ _. widest_laws };

    fn is_value(self, v: u64) -> bool {
        v <= WIDEST
    }

    fn origin(self) -> u64 {
        WIDEST
    }

    fn extend(self, v: u64, w: u32) -> Option<u64> {
        Some(v.min(u64::from(w)))
    }

    fn no_worse(a: u64, b: u64) -> bool {
        b <= a
    }

    fn code(self, v: u64) -> u64 {
        v
    }

    fn value_of(self, code: u64) -> Option<u64> {
        if code <= WIDEST { Some(code) } else { None }
    }

    fn name(self) -> AlgebraName {
        AlgebraName::Widest
    }

    fn cost(self) -> Option<Cost> {
        None
    }

    fn ties_mostly(self) -> bool {
        true
    }
}
