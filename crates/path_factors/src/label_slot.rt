//! Labels in the room of a value.
ghost use Rattle.std.specs.Prelude.{◌≡◌, ◌<◌, Option, Some, None, IfOk, length, replicate, slice_set};
ghost use Rattle.path_algebra.specs.Composition.{applied};
ghost use Rattle.path_algebra.specs.Walks.{better_label};
ghost use Rattle.path_factors.specs.Substituting.{at};

use path_algebra::{ComposingAlgebra, CountedSums};
use road_graph::Memory;
use std::alloc::{AllocError, Global};
use std::marker::Model;

/// The greatest sum: each greater number stands for no label.
const GREATEST: u64 = (1 << 63) - 1;

/// An algebra whose labels, values or none, are kept in less room than an `Option` takes.
pub trait CompactAlgebra: ComposingAlgebra {
    /// What a label is kept as.
    type Slot: Copy + Send + Sync;

    // The label that it stands for.
    ghost label: { Self.Slot → Option Self.Value };

    /// No label.
    fn no_label() -> Self::Slot
        ensures { label result ≡ None };

    /// The label of a source.
    fn origin_label(self) -> Self::Slot
        ensures { label result ≡ Some (Self.meaning self).origin };

    /// The value, if there is one.
    fn label_of(slot: Self::Slot) -> Option<Self::Value>
        ensures { result ≡ label slot };

    /// The better of a label and what a walk makes of another.
    fn better_after(self, best: Self::Slot, other: Self::Slot, walk: Self::Walk) -> Self::Slot
        ensures { label result ≡ better_label (Self.meaning self).no_worse (label best)
            (applied (Self.walks self) (label other) walk) };
}

impl CompactAlgebra for CountedSums {
    ghost use Rattle.path_factors.specs.Slots.{label_in};

    type Slot = u64;

    ghost label = { label_in };

    fn no_label() -> u64 {
        u64::MAX
    }

    fn origin_label(self) -> u64 {
        0
    }

    fn label_of(slot: u64) -> Option<u64> {
        if slot <= GREATEST { Some(slot) } else { None }
    }

    fn better_after(self, best: u64, other: u64, walk: u64) -> u64 {
        let sum = other.saturating_add(walk);
        if best <= sum { best } else { sum }
    }
}

/// The label of a place: a value, or none.
#[derive(Drop)]
pub(crate) struct LabelSlot<A: CompactAlgebra>(A::Slot);

impl<A: CompactAlgebra> Model for LabelSlot<A> {
    ghost use Rattle.std.specs.Prelude.{Option};

    ghost Value = { Option A.Value };

    ghost view = { λ s. A.label s.0 };
}

impl<A: CompactAlgebra> LabelSlot<A> {
    /// No label.
    pub(crate) fn none() -> Self
        ensures { result ≡ None }
    {
        LabelSlot(A::no_label())
    }

    /// The label of a source.
    pub(crate) fn origin(algebra: A) -> Self
        ensures { result ≡ Some (A.meaning algebra).origin }
    {
        LabelSlot(algebra.origin_label())
    }

    /// The same label once more.
    pub(crate) fn again(&self) -> Self
        ensures { result ≡ self.now }
    {
        LabelSlot(self.0)
    }

    /// The value, if there is one.
    pub(crate) fn get(&self) -> Option<A::Value>
        ensures { result ≡ self.now }
    {
        A::label_of(self.0)
    }

    /// The better of this label and what a walk makes of another.
    pub(crate) fn better_after(&self, algebra: A, other: &Self, walk: A::Walk) -> Self
        ensures { result ≡ better_label (A.meaning algebra).no_worse self.now
            (applied (A.walks algebra) other.now walk) }
    {
        LabelSlot(algebra.better_after(self.0, other.0, walk))
    }
}

/// The label of a place.
pub(crate) fn label_at<A: CompactAlgebra>(labels: &[LabelSlot<A>], place: u32) -> Option<A::Value>
    requires { place < length labels.now }
    ensures { result ≡ at labels.now place }
{
    labels[place as usize].get()
}

/// Leaves a place the better of its label and what a walk makes of another.
pub(crate) fn offer<A: CompactAlgebra>(
    algebra: A,
    labels: &mut [LabelSlot<A>],
    i: usize,
    other: &LabelSlot<A>,
    walk: A::Walk,
)
    requires { i < length labels.old }
    ensures { labels.new ≡ slice_set labels.old i (better_label (A.meaning algebra).no_worse
        (at labels.old i) (applied (A.walks algebra) other.now walk)) }
{
    labels[i] = labels[i].better_after(algebra, other, walk);
}

/// No label at n places.
pub(crate) fn no_labels<A: CompactAlgebra>(
    alloc: Global,
    n: usize,
) -> Result<Vec<LabelSlot<A>>, Memory>
    ensures { IfOk result (λ labels. labels.items ≡ replicate n None) }
{
    let mut labels = Vec::with_capacity(alloc, n)?;
    for _ in 0..n {
        labels.push(LabelSlot::none()).map_err(AllocError::from)?;
    }
    Ok(labels)
}
