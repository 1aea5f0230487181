//! Algebras whose walks compose.
ghost use Rattle.std.specs.Prelude.{◌≡◌, Bool};
ghost use Rattle.path_algebra.specs.Composition.{Composition, IsComposition};

use crate::algebra::PathAlgebra;

/// An algebra in which a walk is worth something to any value before it, and two walks, one after
/// the other, what their worths compose to. So a graph can be factored once, for all sources.
pub trait ComposingAlgebra: PathAlgebra {
    /// What a walk does to the values before it.
    type Walk: Copy + Send + Sync;

    /// The operations on walks, as one record.
    ghost walks: { Self → Composition Self.Value Self.Walk };

    /// The walk of one arc of weight `w`.
    fn of_arc(self, w: u32) -> Self::Walk
        ensures { result ≡ (walks self).of_arc w };

    /// What stands for no walk: every value refuses it.
    fn no_walk(self) -> Self::Walk
        ensures { result ≡ (walks self).no_walk };

    /// The walk `a` and, after it, the walk `b`.
    fn compose(self, a: Self::Walk, b: Self::Walk) -> Self::Walk
        ensures { result ≡ (walks self).compose a b };

    /// The value of a walk of value `v` and, after it, the walk `a`; none if it may not be taken
    /// from there.
    fn apply(self, v: Self::Value, a: Self::Walk) -> Option<Self::Value>
        ensures { result ≡ (walks self).apply v a };

    /// Whether the walk `a` is no worse than `b`, whatever the value before them.
    fn no_worse_walk(self, a: Self::Walk, b: Self::Walk) -> bool
        ensures { result ≡ (walks self).no_worse a b };

    /// Walks act on values as their arcs do, one after the other.
    ghost composes: { (a : Self) → IsComposition (Self.meaning a) (walks a) };
}

/// The walks of an algebra keep the laws of composition. Nothing is computed.
pub fn composition_holds<A: ComposingAlgebra>(_algebra: A)
    ensures { IsComposition (A.meaning _algebra) (A.walks _algebra) }
{}
