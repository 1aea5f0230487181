//! An algebra of one's own: its operations, each proved to be that of the meaning in
//! `specs/Stops.antt`.
use path_algebra::{AlgebraName, Cost, PathAlgebra};

/// The greatest value.
const GREATEST: u64 = 1 << 63;

/// The time of a walk: each arc takes its weight, and then a stop of two. Less is better, held at
/// 2^63.
#[derive(Clone, Copy, Debug, PartialEq, Eq)]
pub struct Stops;

impl PathAlgebra for Stops {
    ghost use Rattle.std.specs.Prelude.{refl, None};
    ghost use Rattle.path_algebra.specs.Laws.{less_is_better};
    ghost use Rattle.tour.specs.Stops.{stops, stops_laws};

    type Value = u64;

    ghost order = { stops.no_worse };

    ghost meaning = { λ _. stops };

    ghost arc_cost = { λ _. None };

    ghost one_order = { λ _. refl };

    ghost ordered = { less_is_better };

    ghost lawful = { λ _. stops_laws };

    fn is_value(self, v: u64) -> bool {
        v <= GREATEST
    }

    fn origin(self) -> u64 {
        0
    }

    fn extend(self, v: u64, w: u32) -> Option<u64> {
        Some(v.saturating_add(u64::from(w) + 2).min(GREATEST))
    }

    fn no_worse(a: u64, b: u64) -> bool {
        a <= b
    }

    fn code(self, v: u64) -> u64 {
        v
    }

    fn value_of(self, code: u64) -> Option<u64> {
        if code <= GREATEST { Some(code) } else { None }
    }

    fn name(self) -> AlgebraName {
        AlgebraName::Own
    }

    fn cost(self) -> Option<Cost> {
        None
    }
}
