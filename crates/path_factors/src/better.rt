//! The better of two walks.
ghost use Rattle.std.specs.Prelude.{◌≡◌};
ghost use Rattle.path_factors.specs.Edges.{better_walk};

use path_algebra::ComposingAlgebra;

/// The better of two walks, the first if both are as good.
pub(crate) fn better_of_walks<A: ComposingAlgebra>(algebra: A, a: A::Walk, b: A::Walk) -> A::Walk
    ensures { result ≡ better_walk (A.walks algebra) a b }
{
    if algebra.no_worse_walk(a, b) { a } else { b }
}
