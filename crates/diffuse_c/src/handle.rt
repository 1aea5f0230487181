//! The handle that C keeps.
ghost use Rattle.std.specs.Prelude.{◌≡◌, Some, None, IfSome, MatchOption, true, false};
ghost use Rattle.diffuse_c.specs.Holding.{AreNumbersOf, has_graph};

use crate::box_pointer::BoxPointer;
use crate::held::{Held, discard, hold, nothing, release};
use crate::owners::Owner;
use std::alloc::Global;
use std::mem;

/// A handle: closed, or open with a graph. C begins with one that is all zero, and changes nothing
/// in it.
#[repr(C)]
pub struct DiffuseGraph {
    pub(crate) held: Held,
    pub(crate) is_open: bool,
    ghost agrees: { has_graph held.shared ≡ is_open },
    ghost unstopped: { held.shared ≡ None → held.stop ≡ None },
    ghost numbered: { AreNumbersOf held.shared held.numbers },
}

/// A closed handle.
pub(crate) fn closed() -> DiffuseGraph
    ensures roads { result.held.shared ≡ None }
    ensures stop { result.held.stop ≡ None }
    ensures numbers { result.held.numbers ≡ None }
{
    DiffuseGraph {
        held: nothing(),
        is_open: false,
    }
}

/// An open handle with this owner.
fn opened(owner: Box<Owner>) -> DiffuseGraph
    requires { AreNumbersOf (Some owner.value.shared) owner.value.numbers }
    ensures roads { result.held.shared ≡ Some owner.value.shared }
    ensures stop { result.held.stop ≡ owner.value.stop }
    ensures numbers { result.held.numbers ≡ owner.value.numbers }
{
    DiffuseGraph {
        held: hold(BoxPointer::of(owner)),
        is_open: true,
    }
}

/// Takes the owner out, if there is one. The handle is closed afterwards.
pub(crate) fn take(alloc: Global, handle: &mut DiffuseGraph) -> Option<Box<Owner>>
    ensures graph { MatchOption result (handle.old.held.shared ≡ None)
        (λ b. handle.old.held.shared ≡ Some b.value.shared) }
    ensures stop { MatchOption result (handle.old.held.stop ≡ None) (λ b. handle.old.held.stop ≡
        b.value.stop) }
    ensures numbers { MatchOption result (handle.old.held.numbers ≡ None)
        (λ b. handle.old.held.numbers ≡ b.value.numbers) }
    ensures numbered { IfSome result (λ b. AreNumbersOf (Some b.value.shared) b.value.numbers) }
    ensures closed { handle.new.held.shared ≡ None }
    ensures unstopped { handle.new.held.stop ≡ None }
    ensures unnumbered { handle.new.held.numbers ≡ None }
{
    let DiffuseGraph { held, is_open } = mem::replace(handle, closed());
    if is_open {
        Some(release(alloc, held).into_box())
    } else {
        discard(held);
        None
    }
}

/// Puts an owner into a closed handle.
pub(crate) fn put(handle: &mut DiffuseGraph, owner: Box<Owner>)
    requires closed { handle.old.held.shared ≡ None }
    requires numbers { AreNumbersOf (Some owner.value.shared) owner.value.numbers }
    ensures roads { handle.new.held.shared ≡ Some owner.value.shared }
    ensures stop { handle.new.held.stop ≡ owner.value.stop }
    ensures numbers { handle.new.held.numbers ≡ owner.value.numbers }
{
    let DiffuseGraph { held, is_open: _ } = mem::replace(handle, opened(owner));
    discard(held);
}
