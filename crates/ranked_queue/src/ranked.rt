//! A value with a rank.
ghost use Rattle.std.specs.Prelude.{◌≡◌, refl};
ghost use Rattle.std.specs.Cmp.{partial_order_from_total, partial_equiv_from_equiv, eq_by_cmp_equiv};
ghost use Rattle.std.specs.Ordering.{eq_by_cmp, as_partial_cmp};
ghost use Rattle.ranked_queue.specs.Order.{ranked_order, ranked_order_total};

use crate::rank::Rank;
use path_algebra::PathAlgebra;
use std::cmp::Ordering;

/// A value with a rank.
///
/// Better values are greater, and if values tie lesser ranks are: only an entry with the same two
/// is equal.
#[derive(Drop)]
pub struct Ranked<A: PathAlgebra, K: Rank> {
    pub value: A::Value,
    pub rank: K,
}

impl<A: PathAlgebra, K: Rank> Ord for Ranked<A, K> {
    ghost cmp = { ranked_order K.number A.order };

    ghost total = { ranked_order_total K.number A.order A.ordered };

    ghost matches_partial_cmp = { λ x y. refl };

    ghost matches_eq = { λ x y. refl };

    fn cmp(&self, other: &Self) -> Ordering {
        let (a, b) = (self.value, other.value);
        let (i, j) = (self.rank.number(), other.rank.number());
        let (above, below) = (A::no_worse(a, b), A::no_worse(b, a));
        let ties = above & below;
        // Without a branch: no predictor can foresee which value is better.
        let is_less = if ties { i > j } else { !above };
        let is_greater = if ties { i < j } else { !below };
        if is_less {
            Ordering::Less
        } else if is_greater {
            Ordering::Greater
        } else {
            Ordering::Equal
        }
    }
}

impl<A: PathAlgebra, K: Rank> PartialOrd for Ranked<A, K> {
    ghost partial_cmp = { as_partial_cmp (ranked_order K.number A.order) };

    ghost laws = { partial_order_from_total (ranked_order_total K.number A.order A.ordered) };

    fn partial_cmp(&self, other: &Self) -> Option<Ordering> {
        Some(self.cmp(other))
    }
}

impl<A: PathAlgebra, K: Rank> PartialEq for Ranked<A, K> {
    ghost eq = { eq_by_cmp (ranked_order K.number A.order) };

    ghost laws = { partial_equiv_from_equiv (eq_by_cmp_equiv (ranked_order_total K.number A.order A.ordered)) };

    fn eq(&self, other: &Self) -> bool {
        self.cmp(other).is_eq()
    }
}

impl<A: PathAlgebra, K: Rank> Eq for Ranked<A, K> {
    ghost laws = { eq_by_cmp_equiv (ranked_order_total K.number A.order A.ordered) };
}
