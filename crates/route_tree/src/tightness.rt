//! Which arcs are tight, by the labels of their ends.

ghost use Rattle.std.specs.Prelude.{◌≡◌};
ghost use Rattle.path_algebra.specs.Walks.{is_tight_between};

use path_algebra::PathAlgebra;

/// Whether an arc of this weight is tight between the labels of its ends: the first, extended, is
/// no worse than the second.
pub(crate) fn is_tight<A: PathAlgebra>(
    algebra: A,
    near: Option<A::Value>,
    weight: u32,
    far: Option<A::Value>,
) -> bool
    ensures { result ≡ is_tight_between (A.meaning algebra) near weight far }
{
    match (near, far) {
        (Some(x), Some(y)) => match algebra.extend(x, weight) {
            Some(z) => A::no_worse(z, y),
            None => false,
        },
        _ => false,
    }
}
