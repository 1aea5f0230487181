//! What numbers carry, and what an arc adds to them.
ghost use Rattle.std.specs.Prelude.{◌≡◌, ◌≤◌, ◌%◌, ◌<◌, ◌^◌, Some};
ghost use Rattle.path_algebra.specs.Carried.{carried_value};
ghost use Rattle.path_algebra.specs.Counted.{cost_of, counted_cost};

use crate::road_factors::RoadFactors;
use path_algebra::PathAlgebra;

impl RoadFactors {
    /// What an arc of weight `w` adds to a number.
    pub(crate) fn added(&self, w: u32) -> u64
        ensures sum { result ≡ counted_cost (cost_of self.now.algebra.cost) self.now.algebra.bits w }
        ensures low { result ≤ 2 ^ 63 }
    {
        self.sums.added(w)
    }

    /// The value that a number carries; none if its code is that of no value.
    pub(crate) fn value_in<A: PathAlgebra>(&self, algebra: A, number: u64) -> Option<A::Value>
        ensures { result ≡ carried_value (A.meaning algebra) self.now.algebra.bits (Some number) }
    {
        algebra.value_of(number >> self.sums.bits)
    }

    /// The hops that a number carries.
    pub(crate) fn hops_in(&self, number: u64) -> u32
        ensures hops { result ≡ number % 2 ^ self.now.algebra.bits }
        ensures few { result < 2 ^ 31 }
    {
        (number % (1u64 << self.sums.bits)) as u32
    }
}
