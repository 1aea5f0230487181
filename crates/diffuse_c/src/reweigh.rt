//! The call that opens a handle with other arcs, over the factors of another one.
ghost use Rattle.std.specs.Prelude.{◌≡◌, ◌∷◌, [], pos, Some, None, IfOk, IfErr, IsSome};
ghost use Rattle.path_factors.specs.Reweighing.{JoinsNoOthers};
ghost use Rattle.answer_lists.specs.Answers.{IsOneOf};
ghost use Rattle.answer_lists.specs.Reweighing.{IsHeavy};
ghost use Rattle.diffuse_c.specs.Holding.{OfGraph, OfShared};
ghost use Rattle.diffuse_c.specs.Keeping.{KeepsHeld, OpensSecond};
ghost use Rattle.diffuse_c.specs.Lent.{Fits, lent};
ghost use Rattle.diffuse_c.specs.Refusals.{ReportsArcs, ReportsHandles};
ghost use Rattle.diffuse_c.specs.Reweighing.{IsReweighFault, reweighed_by};

use crate::arcs::DiffuseArc;
use crate::handle::{DiffuseGraph, put, take};
use crate::opening::graph_of;
use crate::owners::{Owner, boxed};
use crate::status::{CLOSED, OPEN};
use answer_lists::{DONE, MEMORY, STOPPED, SharedGraph, reweigh_graph};
use halting::{Stop, is_stopped};
use std::alloc::{AllocError, Global};

/// An owner of the graph of these arcs on the same vertices, factored over the links of the first;
/// or the status that says why there is none.
fn owner_reweighed(
    alloc: Global,
    first: &SharedGraph,
    stop: &Option<Stop>,
    arcs: &[DiffuseArc],
) -> Result<Box<Owner>, i32>
    ensures graph { IfOk result (λ b. b.value.shared ≡ reweighed_by first.now arcs.now) }
    ensures stop { IfOk result (λ b. b.value.stop ≡ None) }
    ensures numbers { IfOk result (λ b. b.value.numbers ≡ None) }
    ensures fits { IfOk result (λ b. Fits first.now.roads.vertices arcs.now) }
    ensures fault { IfErr result (IsReweighFault first.now arcs.now) }
    ensures stopped { IfErr result (λ n. n ≡ pos 45 → IsSome stop.now) }
{
    let graph = graph_of(alloc, first.graph().vertices(), arcs)?;
    if is_stopped(stop) {
        return Err(STOPPED);
    }
    let second = match reweigh_graph(first, stop, graph) {
        Ok(second) => second,
        Err(status) => return Err(status),
    };
    match boxed(alloc, second) {
        Ok(owner) => Ok(owner),
        Err(AllocError) => Err(MEMORY),
    }
}

/// Opens a second, closed handle with the graph of these arcs on the same vertices, factored as the
/// first is, over the links that it has. The arcs may be changed or freed afterwards.
#[unsafe(no_mangle)]
pub extern "C" fn diffuse_graph_reweigh(
    alloc: Global,
    handle: &mut DiffuseGraph,
    arcs: &[DiffuseArc],
    second: &mut DiffuseGraph,
) -> i32
    ensures kept { KeepsHeld handle.old.held handle.new.held }
    ensures graph { OfShared handle.old.held.shared (λ g. result ≡ pos 0 →
        second.new.held.shared ≡ Some (reweighed_by g arcs.now)) }
    ensures second { OpensSecond second.old.held second.new.held None result }
    ensures status { IsOneOf (0 ∷ 3 ∷ 4 ∷ 5 ∷ 8 ∷ 16 ∷ 17 ∷ 44 ∷ 45 ∷ []) result }
    ensures stopped { result ≡ pos 45 → IsSome handle.old.held.stop }
    ensures handles { ReportsHandles handle.old.held.shared second.old.held.shared result }
    ensures arcs { OfGraph handle.old.held.shared (λ g. ReportsArcs second.old.held.shared
        g.vertices arcs.now (0 ∷ 3 ∷ 8 ∷ 44 ∷ 45 ∷ []) result) }
    ensures heavy { OfShared handle.old.held.shared (λ g. result ≡ pos 8 →
        IsHeavy g (lent g.roads.vertices arcs.now)) }
    ensures link { OfGraph handle.old.held.shared (λ g. result ≡ pos 44 →
        JoinsNoOthers (lent g.vertices arcs.now) g → ⊥) }
{
    if second.is_open {
        return OPEN;
    }
    let Some(owner) = take(alloc, handle) else {
        return CLOSED;
    };
    let reweighed = owner_reweighed(alloc, &owner.shared, &owner.stop, arcs);
    put(handle, owner);
    match reweighed {
        Ok(other) => {
            put(second, other);
            DONE
        }
        Err(status) => status,
    }
}
