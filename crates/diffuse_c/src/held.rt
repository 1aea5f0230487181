//! A graph that C keeps as a pointer.
ghost use Rattle.std.specs.Prelude.{◌≡◌, Option, Some, None, true};
ghost use Rattle.halting.specs.declared.stop.Stop.{Stop};
ghost use Rattle.arc_numbers.specs.Numbering.{Numbering};
ghost use Rattle.answer_lists.specs.Sharing.{Shared};
ghost use Rattle.diffuse_c.specs.Holding.{has_graph};

use crate::box_pointer::BoxPointer;
use crate::owners::Owner;
use std::alloc::Global;
use std::marker::{Model, Send};
use std::ptr::null_mut;

/// Nothing, or an owner in a block of the heap: of this graph and its factors, with this stop and
/// these numbers of arcs. It cannot be dropped, so the owner is not lost.
#[repr(C)]
pub struct Held {
    at: *mut u8,
    pub ghost shared: { Option Shared },
    pub ghost stop: { Option Stop },
    pub ghost numbers: { Option Numbering },
}

impl Model for Held {
    ghost use Rattle.diffuse_c.specs.Holding.{held_at};

    ghost also_owns = { λ h. held_at h.at h.shared h.stop h.numbers };
}

// What it owns may move to another thread, so it may too.
unsafe impl Send for Held {}

/// Holds nothing.
pub(crate) fn nothing() -> Held
    ensures { (result.shared ≡ None) × (result.stop ≡ None) × (result.numbers ≡ None) }
{
    Held { at: null_mut() }
}

/// Holds an owner of a graph.
pub(crate) fn hold(owner: BoxPointer<Owner, Global>) -> Held
    ensures { (result.shared ≡ Some owner.value.shared) × (result.stop ≡ owner.value.stop)
        × (result.numbers ≡ owner.value.numbers) }
{
    let BoxPointer { at, alloc: _ } = owner;
    Held { at: at as *mut u8 }
}

/// Gives the owner back.
pub(crate) fn release(alloc: Global, held: Held) -> BoxPointer<Owner, Global>
    requires { has_graph held.shared ≡ true }
    ensures { (held.shared ≡ Some result.value.shared) × (held.stop ≡ result.value.stop)
        × (held.numbers ≡ result.value.numbers) }
{
    let Held { at } = held;
    BoxPointer {
        at: at as *mut Owner,
        alloc,
    }
}

/// Drops a `Held` that holds nothing.
pub(crate) fn discard(held: Held)
    requires { held.shared ≡ None }
{
    let Held { at: _ } = held;
}
