//! The numbers of the arcs of a graph, and the arcs of a route.

ghost use Rattle.std.specs.Prelude.{◌≡◌, ◌+◌, ◌↔◌, ◌∷◌, [], ℕ, length, IfErr, IfOk, IfSome, IsSome};
ghost use Rattle.halting.specs.declared.unfinished.Unfinished.TheVariants.{Halted};
ghost use Rattle.path_algebra.specs.Walks.{IsBestCode};
ghost use Rattle.route_tree.specs.Found.{IsRouteBetween};
ghost use Rattle.arc_numbers.specs.Numbering.{IsReordered};
ghost use Rattle.arc_numbers.specs.RouteArcs.{AreRouteArcs};

use crate::route_arcs::write_arcs;
use crate::rows::NumberRows;
use crate::same_roads::reordered;
use halting::{Stop, Unfinished};
use path_algebra::PathAlgebra;
use road_graph::{OutGraph, RoadArc, Vertex};
use std::alloc::{AllocError, Global};
use std::marker::Model;
use std::sync::Arc;

/// An owner of the numbers of the arcs of a graph, which are freed with the last one.
#[derive(Drop)]
pub struct ArcNumbers {
    rows: Arc<NumberRows>,
}

impl Model for ArcNumbers {
    ghost use Rattle.std.specs.Arc.{arc_value};
    ghost use Rattle.arc_numbers.specs.Numbering.{Numbering};

    ghost Value = { Numbering };

    ghost view = { λ n. arc_value n.rows };
}

impl ArcNumbers {
    /// The first owner of the numbers of these arcs in this order, if they are those of the graph:
    /// the arcs of one tail in the order in which the graph has them. None if they are not.
    ///
    /// # Errors
    /// Out of memory; halted, only if there is a stop.
    pub fn of(
        alloc: Global,
        graph: &OutGraph,
        arcs: Vec<RoadArc>,
        stop: &Option<Stop>,
    ) -> Result<Option<ArcNumbers>, Unfinished>
        ensures halts { IfErr result (λ e. e ≡ Halted → IsSome stop.now) }
        ensures numbers { IfOk result (λ found. IfSome found (λ n. n ≡ record {
          roads = graph.now;
          numbered = record { vertices = graph.now.vertices; arcs = arcs.items };
        })) }
        ensures some { IfOk result (λ found. IsSome found ↔
            IsReordered graph.now (record { vertices = graph.now.vertices; arcs = arcs.items })) }
    {
        let Some(numbered) = reordered(alloc, graph, arcs, stop)? else {
            return Ok(None);
        };
        let rows = NumberRows::of(alloc, graph, &numbered, stop)?;
        let rows = Arc::new(alloc, rows).map_err(AllocError::from)?;
        Ok(Some(ArcNumbers { rows }))
    }

    /// One more owner of the same numbers.
    pub fn try_clone(&self) -> Result<ArcNumbers, AllocError>
        ensures { IfOk result (λ n. n ≡ self.now) }
    {
        let rows = Arc::try_clone(&self.rows)?;
        Ok(ArcNumbers { rows })
    }

    /// Writes the arcs of a route, counted from 0.
    ///
    /// At each step the route takes the arc that extends its value best, and of those that do the
    /// one with the least number. So these arcs have the best value of the target.
    pub fn arcs_of<A: PathAlgebra>(
        &self,
        algebra: A,
        graph: &OutGraph,
        route: &[u32],
        arcs: &mut [u32],
    )
        requires graph { graph.now ≡ self.now.roads }
        requires route { (s t : ℕ) × IsRouteBetween (A.meaning algebra) graph.now s t route.now }
        requires room { length route.now ≡ length arcs.old + 1 }
        ensures { (s t code : ℕ) → IsRouteBetween (A.meaning algebra) graph.now s t route.now →
            IsBestCode (A.meaning algebra) graph.now (s ∷ []) t code →
            AreRouteArcs (A.meaning algebra) self.now.numbered route.now arcs.new code }
    {
        let source = Vertex(route[0]);
        write_arcs(algebra, graph, &self.rows, source, &route[1..], arcs);
    }
}
