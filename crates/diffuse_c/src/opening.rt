//! A graph that is built from lent arcs.
ghost use Rattle.std.specs.Prelude.{◌≡◌, IfOk, IfErr, None};
ghost use Rattle.answer_lists.specs.Sharing.{unfactored};
ghost use Rattle.diffuse_c.specs.Lent.{Fits, IsFault, lent};

use crate::arcs::{DiffuseArc, roads_of};
use crate::joining::join_vertices;
use crate::owners::{Owner, owned};
use crate::status::LIMIT;
use answer_lists::{MEMORY, NO_VERTEX};
use road_graph::{Memory, OutGraph};
use std::alloc::{AllocError, Global};

/// The graph of these arcs. Whether there is one is found before anything is allocated.
pub(crate) fn graph_of(alloc: Global, vertices: u32, arcs: &[DiffuseArc]) -> Result<OutGraph, i32>
    ensures graph { IfOk result (λ g. g ≡ lent vertices arcs.now) }
    ensures fits { IfOk result (λ g. Fits vertices arcs.now) }
    ensures fault { IfErr result (λ n. IsFault vertices arcs.now n) }
{
    if vertices > 33_554_432 || arcs.len() > 134_217_728 {
        return Err(LIMIT);
    }
    if !join_vertices(vertices, arcs) {
        return Err(NO_VERTEX);
    }
    let Ok(list) = roads_of(alloc, arcs) else {
        return Err(MEMORY);
    };
    match OutGraph::of_arcs(alloc, vertices, list) {
        Ok(graph) => Ok(graph),
        Err(Memory) => Err(MEMORY),
    }
}

/// An owner of the graph of these arcs, or the status that says why there is none.
pub(crate) fn owner_of(alloc: Global, vertices: u32, arcs: &[DiffuseArc]) -> Result<Box<Owner>, i32>
    ensures graph { IfOk result (λ b. b.value.shared ≡ unfactored (lent vertices arcs.now)) }
    ensures stop { IfOk result (λ b. b.value.stop ≡ None) }
    ensures numbers { IfOk result (λ b. b.value.numbers ≡ None) }
    ensures fits { IfOk result (λ b. Fits vertices arcs.now) }
    ensures fault { IfErr result (λ n. IsFault vertices arcs.now n) }
{
    let graph = graph_of(alloc, vertices, arcs)?;
    match owned(alloc, graph) {
        Ok(owner) => Ok(owner),
        Err(AllocError) => Err(MEMORY),
    }
}
