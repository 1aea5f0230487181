//! What a path algebra is.
ghost use Rattle.std.specs.Prelude.{◌≡◌, Bool, Option, IfSome};
ghost use Rattle.path_algebra.specs.Algebra.{Algebra, IsOrder, IsLawful};
ghost use Rattle.path_algebra.specs.Carried.{IsCarried};
ghost use Rattle.path_algebra.specs.Counted.{Cost, cost_of};

use crate::counted_sums::Cost;
use crate::name::AlgebraName;

/// The values of walks, how one more arc changes a value, and which of two values is no worse.
///
/// An implementation says by `meaning` what its calls compute, and proves the laws below the last
/// call. Nothing else is required of it, and every solver, engine and checker over it is then
/// right.
pub trait PathAlgebra: Copy + Send + Sync {
    /// What a walk is worth. `is_value` says which values of the type occur.
    type Value: Copy + Send + Sync;

    /// Which of two values is no worse, whatever the algebra's parameters.
    ghost order: { Self.Value → Self.Value → Bool };

    /// The operations and the name, as one record.
    ghost meaning: { Self → Algebra Self.Value };

    /// What an arc costs, if the best values are the least sums of what arcs cost; otherwise none.
    ghost arc_cost: { Self → Option Cost };

    /// Whether `v` is a value of this algebra.
    fn is_value(self, v: Self::Value) -> bool
        ensures { result ≡ (meaning self).is_value v };

    /// The value of the walk of no arcs.
    fn origin(self) -> Self::Value
        ensures { result ≡ (meaning self).origin };

    /// The value of a walk of value `v` and one more arc of weight `w`; none if the arc may not
    /// be taken from there.
    fn extend(self, v: Self::Value, w: u32) -> Option<Self::Value>
        ensures { result ≡ (meaning self).extend v w };

    /// Whether `a` is no worse than `b`.
    fn no_worse(a: Self::Value, b: Self::Value) -> bool
        ensures { result ≡ order a b };

    /// The number that stands for a value in answer texts.
    fn code(self, v: Self::Value) -> u64
        ensures { result ≡ (meaning self).code v };

    /// The value that a number stands for, if there is one.
    fn value_of(self, code: u64) -> Option<Self::Value>
        ensures { result ≡ (meaning self).value_of code };

    /// The name that answer texts give this algebra.
    fn name(self) -> AlgebraName
        ensures { result ≡ (meaning self).name };

    /// Whether the values of most walks tie, as if there are few values. A hint, on which no
    /// promise rests: solvers choose by it between ways to the same answer.
    fn ties_mostly(self) -> bool {
        false
    }

    /// What an arc costs, if the best values are the least sums of what arcs cost; otherwise none.
    /// Such values are carried by counted numbers, and a graph can be factored for them.
    fn cost(self) -> Option<Cost>
        ensures exactly { result ≡ arc_cost self }
        ensures carried { IfSome result (λ cost. IsCarried (meaning self) (cost_of cost)) };

    /// The order is that of the meaning.
    ghost one_order: { (a : Self) → (meaning a).no_worse ≡ order };

    /// The order is total, transitive and antisymmetric, over the whole type.
    ghost ordered: { IsOrder order };

    /// The laws of the operations, over what `is_value` allows.
    ghost lawful: { (a : Self) → IsLawful (meaning a) };
}
