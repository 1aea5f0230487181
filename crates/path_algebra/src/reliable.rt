//! Greatest chances.
use crate::algebra::PathAlgebra;
use crate::counted_sums::Cost;
use crate::name::AlgebraName;

/// Certainty, for a walk.
const SURE: u64 = 1_000_000_000_000;

/// Certainty, for an arc.
const SURE_ARC: u64 = 1_000_000;

/// The chance that all arcs of a walk hold, in parts of 10^12, more is better. A weight is the
/// chance of its arc in parts of 10^6, a greater one counts as certain, and each product is rounded
/// down.
#[derive(Clone, Copy, Debug, PartialEq, Eq)]
pub struct Reliable;

impl PathAlgebra for Reliable {
    ghost use Rattle.std.specs.Prelude.{refl, None};
    ghost use Rattle.path_algebra.specs.Given.{reliable};
    ghost use Rattle.path_algebra.specs.Laws.{more_is_better, reliable_laws};

    type Value = u64;

    ghost order = { reliable.no_worse };

    ghost meaning = { λ _. reliable };

    ghost arc_cost = { λ _. None };

    ghost one_order = { λ _. refl };

    ghost ordered = { more_is_better };

    ghost lawful = { λ _. reliable_laws };

    fn is_value(self, v: u64) -> bool {
        v <= SURE
    }

    fn origin(self) -> u64 {
        SURE
    }

    fn extend(self, v: u64, w: u32) -> Option<u64> {
        let product = v.min(SURE) * u64::from(w).min(SURE_ARC);
        Some(product / SURE_ARC)
    }

    fn no_worse(a: u64, b: u64) -> bool {
        b <= a
    }

    fn code(self, v: u64) -> u64 {
        v
    }

    fn value_of(self, code: u64) -> Option<u64> {
        if code <= SURE { Some(code) } else { None }
    }

    fn name(self) -> AlgebraName {
        AlgebraName::Reliable
    }

    fn cost(self) -> Option<Cost> {
        None
    }
}
