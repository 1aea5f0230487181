//! Whether there is a walk at all.
use crate::algebra::PathAlgebra;
use crate::counted_sums::Cost;
use crate::name::AlgebraName;

/// One value for every walk: a vertex has it, or no walk leads there.
#[derive(Clone, Copy, Debug, PartialEq, Eq)]
pub struct Reach;

impl PathAlgebra for Reach {
    ghost use Rattle.std.specs.Prelude.{refl, None};
    ghost use Rattle.path_algebra.specs.Given.{reach};
    ghost use Rattle.path_algebra.specs.Laws.{one_value_is_best, reach_laws};

    type Value = ();

    ghost order = { reach.no_worse };

    ghost meaning = { λ _. reach };

    ghost arc_cost = { λ _. None };

    ghost one_order = { λ _. refl };

    ghost ordered = { one_value_is_best };

    ghost lawful = { λ _. reach_laws };

    fn is_value(self, _v: ()) -> bool {
        true
    }

    fn origin(self) -> () {
        ()
    }

    fn extend(self, _v: (), _w: u32) -> Option<()> {
        Some(())
    }

    fn no_worse(_a: (), _b: ()) -> bool {
        true
    }

    fn code(self, _v: ()) -> u64 {
        0
    }

    fn value_of(self, code: u64) -> Option<()> {
        if code == 0 { Some(()) } else { None }
    }

    fn name(self) -> AlgebraName {
        AlgebraName::Reach
    }

    fn cost(self) -> Option<Cost> {
        None
    }

    fn ties_mostly(self) -> bool {
        true
    }
}
