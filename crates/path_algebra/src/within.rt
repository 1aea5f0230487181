//! Least sums of weights up to a limit.
ghost use Rattle.std.specs.Prelude.{◌≤◌, ◌^◌};

use crate::algebra::PathAlgebra;
use crate::counted_sums::Cost;
use crate::name::AlgebraName;

/// The greatest limit.
const GREATEST: u64 = 1 << 63;

/// The sum of a walk's weights, less is better. A walk whose sum would pass the limit has no value:
/// the arc that passes it is refused.
#[derive(Clone, Copy, Debug, PartialEq, Eq)]
pub struct Within {
    /// The greatest sum, at most 2^63.
    pub limit: u64,
    pub ghost fits: { limit ≤ 2 ^ 63 },
}

impl Within {
    ghost use Rattle.std.specs.Prelude.{◌≡◌, ◌≤◌, ◌^◌, ◌↔◌, IsSome, IfSome};

    /// The algebra of walks within a limit; none if the limit is above 2^63.
    pub fn new(limit: u64) -> Option<Within>
        ensures fits { IsSome result ↔ (limit ≤ 2 ^ 63) }
        ensures limit { IfSome result (λ within. within.limit ≡ limit) }
    {
        if limit <= GREATEST {
            Some(Within { limit })
        } else {
            None
        }
    }
}

impl PathAlgebra for Within {
    ghost use Rattle.std.specs.Prelude.{refl, Some};
    ghost use Rattle.path_algebra.specs.Counted.{Weight};
    ghost use Rattle.path_algebra.specs.Given.{within};
    ghost use Rattle.path_algebra.specs.Laws.{less_is_better, within_laws};

    type Value = u64;

    ghost order = { (within 0).no_worse };

    ghost meaning = { λ w. within w.limit };

    ghost arc_cost = { λ _. Some Weight };

    ghost one_order = { λ _. refl };

    ghost ordered = { less_is_better };

    ghost lawful = { λ w. within_laws w.limit w.fits };

    fn is_value(self, v: u64) -> bool {
        v <= self.limit
    }

    fn origin(self) -> u64 {
        0
    }

    fn extend(self, v: u64, w: u32) -> Option<u64> {
        match v.checked_add(u64::from(w)) {
            Some(sum) if sum <= self.limit => Some(sum),
            _ => None,
        }
    }

    fn no_worse(a: u64, b: u64) -> bool {
        a <= b
    }

    fn code(self, v: u64) -> u64 {
        v
    }

    fn value_of(self, code: u64) -> Option<u64> {
        if code <= self.limit { Some(code) } else { None }
    }

    fn name(self) -> AlgebraName {
        AlgebraName::Within
    }

    fn cost(self) -> Option<Cost> {
        Some(Cost::Weight)
    }
}
