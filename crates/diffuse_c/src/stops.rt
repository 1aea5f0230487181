//! The calls that make, set and free a stop, and give it to handles.
ghost use Rattle.std.specs.Prelude.{◌≡◌, ◌≢◌, ◌↔◌, ◌∷◌, [], pos, IfOk, IsSome, None, true};
ghost use Rattle.answer_lists.specs.Answers.{IsOneOf};
ghost use Rattle.diffuse_c.specs.Holding.{has_graph};
ghost use Rattle.diffuse_c.specs.Keeping.{KeepsHeld};

use crate::handle::{DiffuseGraph, put, take};
use crate::opening::owner_of;
use crate::owners::stop_again;
use crate::status::{CLOSED, OPEN};
use answer_lists::{DONE, MEMORY};
use halting::Stop;
use std::alloc::{AllocError, Global};

/// A stop that C keeps. It is the handle of a graph without vertices, and only its stop is used: so
/// what is proved of pointers serves both.
#[repr(C)]
pub struct DiffuseStop {
    pub(crate) handle: DiffuseGraph,
}

/// Opens a closed stop. It is not set.
#[unsafe(no_mangle)]
pub extern "C" fn diffuse_stop_new(alloc: Global, stop: &mut DiffuseStop) -> i32
    ensures stop { result ≡ pos 0 → IsSome stop.new.handle.held.stop }
    ensures kept { result ≢ pos 0 → stop.new.handle.held.stop ≡ stop.old.handle.held.stop }
    ensures open { (result ≡ pos 5) ↔ (has_graph stop.old.handle.held.shared ≡ true) }
    ensures status { IsOneOf (0 ∷ 3 ∷ 5 ∷ []) result }
{
    if stop.handle.is_open {
        return OPEN;
    }
    let Ok(mut owner) = owner_of(alloc, 0, &[]) else {
        return MEMORY;
    };
    let Ok(made) = Stop::new(alloc) else {
        return MEMORY;
    };
    owner.stop = Some(made);
    put(&mut stop.handle, owner);
    DONE
}

/// Sets or clears a stop.
fn turn(alloc: Global, stop: &mut DiffuseStop, is_set: bool) -> i32
    ensures kept { KeepsHeld stop.old.handle.held stop.new.handle.held }
    ensures closed { (result ≡ pos 4) ↔ (stop.old.handle.held.shared ≡ None) }
    ensures status { IsOneOf (0 ∷ 4 ∷ []) result }
{
    let Some(owner) = take(alloc, &mut stop.handle) else {
        return CLOSED;
    };
    if let Some(flag) = &owner.stop {
        flag.set(is_set);
    }
    put(&mut stop.handle, owner);
    DONE
}

/// Sets a stop: the searches of the handles that have it end soon, without an answer.
#[unsafe(no_mangle)]
pub extern "C" fn diffuse_stop_set(alloc: Global, stop: &mut DiffuseStop) -> i32
    ensures kept { KeepsHeld stop.old.handle.held stop.new.handle.held }
    ensures closed { (result ≡ pos 4) ↔ (stop.old.handle.held.shared ≡ None) }
    ensures status { IsOneOf (0 ∷ 4 ∷ []) result }
{
    turn(alloc, stop, true)
}

/// Clears a stop: the handles that have it search again.
#[unsafe(no_mangle)]
pub extern "C" fn diffuse_stop_clear(alloc: Global, stop: &mut DiffuseStop) -> i32
    ensures kept { KeepsHeld stop.old.handle.held stop.new.handle.held }
    ensures closed { (result ≡ pos 4) ↔ (stop.old.handle.held.shared ≡ None) }
    ensures status { IsOneOf (0 ∷ 4 ∷ []) result }
{
    turn(alloc, stop, false)
}

/// Closes a stop. Handles that have it keep it as it is.
#[unsafe(no_mangle)]
pub extern "C" fn diffuse_stop_free(alloc: Global, stop: &mut DiffuseStop)
    ensures stop { stop.new.handle.held.stop ≡ None }
    ensures roads { stop.new.handle.held.shared ≡ None }
{
    let _owner = take(alloc, &mut stop.handle);
}

/// Gives a handle a stop, in place of the one that it had. With a closed stop it has none
/// afterwards.
#[unsafe(no_mangle)]
pub extern "C" fn diffuse_graph_stop_by(
    alloc: Global,
    handle: &mut DiffuseGraph,
    stop: &mut DiffuseStop,
) -> i32
    ensures kept { handle.new.held.shared ≡ handle.old.held.shared }
    ensures numbers { handle.new.held.numbers ≡ handle.old.held.numbers }
    ensures given { result ≡ pos 0 → (IsSome handle.new.held.stop ↔
        IsSome stop.old.handle.held.stop) }
    ensures unchanged { result ≢ pos 0 → handle.new.held.stop ≡ handle.old.held.stop }
    ensures stop { KeepsHeld stop.old.handle.held stop.new.handle.held }
    ensures closed { (result ≡ pos 4) ↔ (handle.old.held.shared ≡ None) }
    ensures status { IsOneOf (0 ∷ 3 ∷ 4 ∷ []) result }
{
    let Some(mut owner) = take(alloc, handle) else {
        return CLOSED;
    };
    let status = match again(alloc, stop) {
        Ok(stop) => {
            owner.stop = stop;
            DONE
        }
        Err(AllocError) => MEMORY,
    };
    put(handle, owner);
    status
}

/// One more owner of a stop; none if it is closed.
fn again(alloc: Global, stop: &mut DiffuseStop) -> Result<Option<Stop>, AllocError>
    ensures again { IfOk result (λ again. IsSome again ↔ IsSome stop.old.handle.held.stop) }
    ensures kept { KeepsHeld stop.old.handle.held stop.new.handle.held }
{
    let Some(owner) = take(alloc, &mut stop.handle) else {
        return Ok(None);
    };
    let again = stop_again(&owner.stop);
    put(&mut stop.handle, owner);
    again
}
