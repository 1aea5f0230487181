//! The calls that open and close handles, and report the size of a graph.
ghost use Rattle.std.specs.Prelude.{◌≡◌, ◌↔◌, ◌∷◌, [], length, pos, MatchOption, Some, None, true};
ghost use Rattle.answer_lists.specs.Answers.{IsOneOf};
ghost use Rattle.answer_lists.specs.Sharing.{unfactored};
ghost use Rattle.diffuse_c.specs.Holding.{has_graph};
ghost use Rattle.diffuse_c.specs.Keeping.{KeepsHeld, KeepsUnlessOpened, OpensSecond};
ghost use Rattle.diffuse_c.specs.Lent.{lent};
ghost use Rattle.diffuse_c.specs.Refusals.{ReportsArcs, ReportsHandles};

use crate::arcs::DiffuseArc;
use crate::handle::{DiffuseGraph, put, take};
use crate::opening::owner_of;
use crate::owners::{Owner, try_clone};
use crate::status::{CLOSED, OPEN};
use answer_lists::{DONE, MEMORY};
use road_graph::Memory;
use std::alloc::Global;

/// Opens a closed handle with the graph of these arcs. They may be changed or freed afterwards.
#[unsafe(no_mangle)]
pub extern "C" fn diffuse_graph_open(
    alloc: Global,
    vertices: u32,
    arcs: &[DiffuseArc],
    handle: &mut DiffuseGraph,
) -> i32
    ensures graph { result ≡ pos 0 → handle.new.held.shared ≡
        Some (unfactored (lent vertices arcs.now)) }
    ensures kept { KeepsUnlessOpened handle.old.held handle.new.held result }
    ensures status { IsOneOf (0 ∷ 3 ∷ 5 ∷ 16 ∷ 17 ∷ []) result }
    ensures open { (result ≡ pos 5) ↔ (has_graph handle.old.held.shared ≡ true) }
    ensures arcs { ReportsArcs handle.old.held.shared vertices arcs.now (0 ∷ 3 ∷ []) result }
{
    if handle.is_open {
        return OPEN;
    }
    match owner_of(alloc, vertices, arcs) {
        Ok(owner) => {
            put(handle, owner);
            DONE
        }
        Err(status) => status,
    }
}

/// Opens a closed handle with the graph of an open one, and its factors. Each may then be used on
/// a thread of its own.
#[unsafe(no_mangle)]
pub extern "C" fn diffuse_graph_share(
    alloc: Global,
    handle: &mut DiffuseGraph,
    second: &mut DiffuseGraph,
) -> i32
    ensures kept { KeepsHeld handle.old.held handle.new.held }
    ensures graph { result ≡ pos 0 → second.new.held.shared ≡ handle.old.held.shared }
    ensures second { OpensSecond second.old.held second.new.held handle.old.held.numbers result }
    ensures status { IsOneOf (0 ∷ 3 ∷ 4 ∷ 5 ∷ []) result }
    ensures handles { ReportsHandles handle.old.held.shared second.old.held.shared result }
{
    if second.is_open {
        return OPEN;
    }
    let Some(mut owner) = take(alloc, handle) else {
        return CLOSED;
    };
    let Owner {
        shared,
        numbers,
        ..
    } = &mut *owner;
    let status = match try_clone(alloc, shared, numbers) {
        Ok(other) => {
            put(second, other);
            DONE
        }
        Err(Memory) => MEMORY,
    };
    put(handle, owner);
    status
}

/// Closes a handle. The graph is freed with the last handle that has it; a closed handle stays
/// closed.
#[unsafe(no_mangle)]
pub extern "C" fn diffuse_graph_close(alloc: Global, handle: &mut DiffuseGraph)
    ensures roads { handle.new.held.shared ≡ None }
    ensures stop { handle.new.held.stop ≡ None }
    ensures numbers { handle.new.held.numbers ≡ None }
{
    let _owner = take(alloc, handle);
}

/// How many vertices the graph of a handle has; 0 if it is closed.
#[unsafe(no_mangle)]
pub extern "C" fn diffuse_graph_vertices(alloc: Global, handle: &mut DiffuseGraph) -> u32
    ensures kept { KeepsHeld handle.old.held handle.new.held }
    ensures count { MatchOption handle.old.held.shared (result ≡ 0) (λ g. result ≡
        g.roads.vertices) }
{
    let Some(owner) = take(alloc, handle) else {
        return 0;
    };
    let count = owner.shared.graph().vertices();
    put(handle, owner);
    count
}

/// How many arcs the graph of a handle has; 0 if it is closed.
#[unsafe(no_mangle)]
pub extern "C" fn diffuse_graph_arcs(alloc: Global, handle: &mut DiffuseGraph) -> usize
    ensures kept { KeepsHeld handle.old.held handle.new.held }
    ensures count { MatchOption handle.old.held.shared (result ≡ 0) (λ g. result ≡
        length g.roads.arcs) }
{
    let Some(owner) = take(alloc, handle) else {
        return 0;
    };
    let count = owner.shared.graph().arcs();
    put(handle, owner);
    count
}
