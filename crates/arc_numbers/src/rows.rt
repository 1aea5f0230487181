//! The numbers of the arcs of a graph, row after row.

ghost use Rattle.std.specs.Prelude.{◌≡◌, ◌+◌, ◌++◌, ◌∷◌, [], length, IfErr, IfOk, IsSome, OnOk};
ghost use Rattle.halting.specs.declared.unfinished.Unfinished.TheVariants.{Halted};
ghost use Rattle.road_graph.specs.GraphData.{HasVertex, ListsArcsFrom};
ghost use Rattle.arc_numbers.specs.Numbering.{IsReordered};
ghost use Rattle.arc_numbers.specs.RouteArcs.{IsBestStepOrNone};

use crate::best_road::best_road;
use halting::{Stop, Unfinished, look_at};
use path_algebra::PathAlgebra;
use road_graph::{ArcNo, Graph, Memory, OutGraph, Vertex};
use std::alloc::{AllocError, Global};
use std::marker::Model;
use std::snapshot::Snapshot;

/// The numbers of the arcs that leave each vertex: those of vertex v are `numbers[starts[v -
/// 1]..starts[v]]`.
#[derive(Drop)]
pub(crate) struct NumberRows {
    graph: Snapshot<OutGraph>,
    numbered: Snapshot<Graph>,
    starts: Vec<u32>,
    numbers: Vec<ArcNo>,
}

impl Model for NumberRows {
    ghost use Rattle.arc_numbers.specs.Numbering.{IsReordered, Numbering};
    ghost use Rattle.arc_numbers.specs.Rows.{AreRowsFrom};

    ghost Value = { Numbering };

    ghost view = { λ r. record { roads = r.graph.value; numbered = r.numbered.value } };

    ghost invariant = { λ r. IsReordered r.graph.value r.numbered.value
        × AreRowsFrom r.numbered.value r.numbered.value.vertices r.starts.items r.numbers.items };
}

/// Puts a row at the end.
fn push_row(starts: &mut Vec<u32>, numbers: &mut Vec<ArcNo>, row: &[ArcNo]) -> Result<(), Memory>
    ensures numbers { OnOk result (numbers.new.items ≡ numbers.old.items ++ row.now) }
    ensures starts { OnOk result (starts.new.items ≡
        starts.old.items ++ (length numbers.old.items + length row.now) ∷ []) }
{
    numbers.extend_from_slice(row)?;
    let Ok(end) = u32::try_from(numbers.len()) else {
        return Err(Memory);
    };
    starts.push(end).map_err(AllocError::from)?;
    Ok(())
}

impl NumberRows {
    /// The rows of a graph whose arcs are numbered, which has those of the first in another order.
    pub(crate) fn of(
        alloc: Global,
        graph: &OutGraph,
        numbered: &Graph,
        stop: &Option<Stop>,
    ) -> Result<NumberRows, Unfinished>
        requires { IsReordered graph.now numbered.now }
        ensures rows { IfOk result (λ r. r ≡
            record { roads = graph.now; numbered = numbered.now }) }
        ensures halts { IfErr result (λ e. e ≡ Halted → IsSome stop.now) }
    {
        let mut starts = Vec::with_capacity(alloc, numbered.vertices() as usize + 1)?;
        let mut numbers = Vec::with_capacity(alloc, numbered.arcs())?;
        starts.push(0).map_err(AllocError::from)?;
        for i in 0..numbered.vertices() {
            look_at(stop)?;
            push_row(&mut starts, &mut numbers, numbered.out(Vertex(i + 1)))?;
        }
        Ok(NumberRows {
            graph: Snapshot::of(graph),
            numbered: Snapshot::of(numbered),
            starts,
            numbers,
        })
    }

    /// The graph has the same roads as the one whose arcs are numbered. Nothing is computed.
    pub(crate) fn holds(&self)
        ensures { IsReordered self.now.roads self.now.numbered }
    {
        // The invariant is known where a field is used.
        let _ = &self.starts;
    }

    /// The arcs that leave a vertex, in ascending order.
    fn row(&self, v: Vertex) -> &[ArcNo]
        requires { HasVertex self.now.numbered v }
        ensures { ListsArcsFrom self.now.numbered v result.now }
    {
        let start = self.starts[v.0 as usize - 1] as usize;
        let end = self.starts[v.0 as usize] as usize;
        &self.numbers[start..end]
    }

    /// The best step from one vertex to another with a value, as an arc and the value after it;
    /// none if no arc between them extends the value.
    pub(crate) fn best_step<A: PathAlgebra>(
        &self,
        algebra: A,
        graph: &OutGraph,
        ends: (Vertex, Vertex),
        value: A::Value,
    ) -> Option<(ArcNo, A::Value)>
        requires graph { graph.now ≡ self.now.roads }
        requires tail { HasVertex graph.now ends.0 }
        ensures { IsBestStepOrNone (A.meaning algebra) self.now.numbered value ends.0 ends.1 result }
    {
        self.holds();
        let (tail, head) = ends;
        let row = self.row(tail);
        let Some(found) = best_road(algebra, graph.roads_from(tail), head, value) else {
            return None;
        };
        Some((row[found.0], found.1))
    }
}
