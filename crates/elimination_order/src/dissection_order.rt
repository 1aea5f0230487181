//! The order by nested dissection.
ghost use Rattle.std.specs.Prelude.{◌≡◌, IfErr, IfOk, IsSome, Some};
ghost use Rattle.halting.specs.declared.unfinished.Unfinished.TheVariants.{Halted};
ghost use Rattle.elimination_order.specs.Found.{IsOrderedOn};

use crate::care::Care;
use crate::degree_lists::{DegreeLists, Turn};
use crate::dissection::Dissection;
use crate::elimination::Elimination;
use crate::lists::NONE;
use crate::minimum_degree::by_degree;
use crate::ordered::{Ordered, order_of};
use halting::{Stop, Unfinished};
use road_graph::OutGraph;
use std::alloc::Global;

/// The degree up to which vertices are eliminated first if by a lesser one most are left.
const MESH_DEGREE: u32 = 4;

impl Elimination {
    /// Eliminates those of some vertices that are of the present level.
    fn run_level(&mut self, vertices: &[u32], stop: &Option<Stop>) -> Result<(), Unfinished>
        ensures halts { IfErr result (λ e. e ≡ Halted → IsSome stop.now) }
    {
        for v in vertices {
            let node = self.graph.node(*v);
            if node.size > 0 {
                self.enter(*v, node.degree);
            }
        }
        self.run(NONE, stop)
    }

    /// Eliminates the vertices of low degree. Of a road network a third is left at most; of a grid
    /// nearly all would be, if one more degree were not eliminated.
    fn run_first(&mut self, care: Care, stop: &Option<Stop>) -> Result<(), Unfinished>
        ensures halts { IfErr result (λ e. e ≡ Halted → IsSome stop.now) }
    {
        self.run(care.degree(), stop)?;
        if self.left > self.graph.vertices() / 2 {
            self.run(MESH_DEGREE, stop)?;
        }
        Ok(())
    }

    /// Dissects what is left, and eliminates it level by level.
    fn run_levels(
        &mut self,
        alloc: Global,
        care: Care,
        stop: &Option<Stop>,
    ) -> Result<(), Unfinished>
        ensures halts { IfErr result (λ e. e ≡ Halted → IsSome stop.now) }
    {
        let n = self.graph.vertices() as usize;
        let rest = self.graph.remainder(alloc, stop)?;
        let work = self.work_of_flows();
        let whole = Dissection::open(alloc, n, rest.names.len(), care, work)?;
        let dissection = whole.cut_all(alloc, &rest, stop)?;
        self.counts.add_work(dissection.flow.work as usize);
        self.degrees = DegreeLists::new(alloc, n, Turn::Newest)?;
        self.levels = dissection.levels(alloc)?;
        for level in 0..=dissection.deepest {
            self.levels.present = level;
            self.run_level(&rest.names, stop)?;
        }
        Ok(())
    }
}

/// The elimination by nested dissection.
fn dissected(
    alloc: Global,
    graph: &OutGraph,
    care: Care,
    stop: &Option<Stop>,
) -> Result<Elimination, Unfinished>
    ensures halts { IfErr result (λ e. e ≡ Halted → IsSome stop.now) }
{
    let mut elimination = Elimination::open(alloc, graph, Turn::Oldest, stop)?;
    elimination.run_first(care, stop)?;
    if !elimination.is_too_dense() {
        elimination.run_levels(alloc, care, stop)?;
    }
    Ok(elimination)
}

/// An order of the vertices of a graph by nested dissection, with approximate minimum degree in the
/// pieces and between the vertices of cuts. If the graph is too dense by that one, it is the order
/// of `approximate_minimum_degree`, or none.
///
/// Vertices have fewer links and far fewer others above them in the tree than by
/// `approximate_minimum_degree`, which takes less time.
///
/// # Errors
/// Out of memory; halted, only if there is a stop.
pub fn nested_dissection(
    alloc: Global,
    graph: &OutGraph,
    care: Care,
    stop: &Option<Stop>,
) -> Result<Ordered, Unfinished>
    ensures order { IfOk result (IsOrderedOn graph.now (Some care)) }
    ensures halts { IfErr result (λ e. e ≡ Halted → IsSome stop.now) }
{
    let mut elimination = dissected(alloc, graph, care, stop)?;
    if elimination.is_too_dense() {
        elimination = by_degree(alloc, graph, stop)?;
    }
    order_of(alloc, graph, Some(care), &elimination, stop)
}
