//! Sums of weights that carry hops: one number for a value and its arcs.
ghost use Rattle.std.specs.Prelude.{◌<◌};

use crate::algebra::PathAlgebra;
use crate::composing::ComposingAlgebra;
use crate::name::AlgebraName;

/// The greatest value.
const GREATEST: u64 = (1 << 63) - 1;

/// What an arc costs.
#[derive(Clone, Copy, Debug, PartialEq, Eq)]
pub enum Cost {
    /// Its weight.
    Weight,
    /// One, whatever its weight.
    One,
}

/// The sum of what a walk's arcs cost times 2^bits and the number of the arcs, less is better. A
/// number of 2^63 or more is refused. If `CountsFit`, no best one is.
#[derive(Clone, Copy, Debug, PartialEq, Eq)]
pub struct CountedSums {
    /// What is summed.
    pub cost: Cost,
    /// How many low bits hold the number of arcs.
    pub bits: u32,
    pub ghost fits: { bits < 32 },
}

impl CountedSums {
    ghost use Rattle.std.specs.Prelude.{◌≡◌, ◌<◌, ◌↔◌, IsSome, IfSome};
    ghost use Rattle.path_algebra.specs.Counted.{cost_of, counted_cost};

    /// The algebra of sums with so many low bits for the arcs; none if there are 32 or more.
    pub fn new(cost: Cost, bits: u32) -> Option<CountedSums>
        ensures fits { IsSome result ↔ (bits < 32) }
        ensures bits { IfSome result (λ sums. (sums.cost ≡ cost) × (sums.bits ≡ bits)) }
    {
        if bits < 32 {
            Some(CountedSums { cost, bits })
        } else {
            None
        }
    }

    /// What an arc of weight `w` adds.
    pub fn added(self, w: u32) -> u64
        ensures { result ≡ counted_cost (cost_of self.cost) self.bits w }
    {
        let cost = match self.cost {
            Cost::Weight => u64::from(w),
            Cost::One => 1,
        };
        (cost << self.bits) + 1
    }
}

impl PathAlgebra for CountedSums {
    ghost use Rattle.std.specs.Prelude.{refl, None};
    ghost use Rattle.path_algebra.specs.Counted.{counted, cost_of};
    ghost use Rattle.path_algebra.specs.CountedWalks.{counted_laws};
    ghost use Rattle.path_algebra.specs.Laws.{less_is_better};

    type Value = u64;

    ghost order = { (counted (λ w. w) 0).no_worse };

    ghost meaning = { λ c. counted (cost_of c.cost) c.bits };

    ghost arc_cost = { λ _. None };

    ghost one_order = { λ _. refl };

    ghost ordered = { less_is_better };

    ghost lawful = { λ c. counted_laws (cost_of c.cost) c.bits };

    fn is_value(self, v: u64) -> bool {
        v <= GREATEST
    }

    fn origin(self) -> u64 {
        0
    }

    fn extend(self, v: u64, w: u32) -> Option<u64> {
        self.apply(v, self.added(w))
    }

    fn no_worse(a: u64, b: u64) -> bool {
        a <= b
    }

    fn code(self, v: u64) -> u64 {
        v
    }

    fn value_of(self, code: u64) -> Option<u64> {
        if code <= GREATEST { Some(code) } else { None }
    }

    fn name(self) -> AlgebraName {
        AlgebraName::Own
    }

    fn cost(self) -> Option<Cost> {
        None
    }
}

impl ComposingAlgebra for CountedSums {
    ghost use Rattle.path_algebra.specs.Counted.{cost_of};
    ghost use Rattle.path_algebra.specs.CountedWalks.{counted_walks, counted_composes};

    type Walk = u64;

    ghost walks = { λ c. counted_walks (cost_of c.cost) c.bits };

    ghost composes = { λ c. counted_composes (cost_of c.cost) c.bits };

    fn of_arc(self, w: u32) -> u64 {
        self.added(w)
    }

    fn no_walk(self) -> u64 {
        u64::MAX
    }

    fn compose(self, a: u64, b: u64) -> u64 {
        a.saturating_add(b)
    }

    fn apply(self, v: u64, a: u64) -> Option<u64> {
        let sum = v.saturating_add(a);
        if sum <= GREATEST { Some(sum) } else { None }
    }

    fn no_worse_walk(self, a: u64, b: u64) -> bool {
        a <= b
    }
}
