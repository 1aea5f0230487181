//! The tree of best labels, over the arcs that are tight by them.

ghost use Rattle.std.specs.Prelude.{◌≡◌, All, IfErr, IfOk, None, length, replicate};
ghost use Rattle.road_graph.specs.GraphData.{HasVertex};
ghost use Rattle.path_algebra.specs.Walks.{AreBest};
ghost use Rattle.halting.specs.Halting.{CanHalt};
ghost use Rattle.route_tree.specs.Levels.{AreLeast, AreLeastTails};
ghost use Rattle.route_tree.specs.Regions.{is_tight_into};
ghost use Rattle.route_tree.specs.Tree.{IsTree};
ghost use Rattle.halting.specs.declared.unfinished.Unfinished.TheVariants.{Halted};

use crate::breadth_first::BreadthFirst;
use crate::hops_and_parents::Tree;
use crate::region::Region;
use halting::{Halt, Unfinished};
use path_algebra::{Labels, PathAlgebra, laws_hold};
use road_graph::{Graph, Memory, OutGraph, Vertex};
use std::alloc::Global;

/// The least hops and the least parents over the tight arcs that lead into a region. `blank` is
/// room for them. It may be told to give up.
pub(crate) fn tree_into<A: PathAlgebra>(
    alloc: Global,
    algebra: A,
    graph: &OutGraph,
    labels: &Labels<A::Value>,
    region: &Region,
    sources: &[Vertex],
    blank: Tree,
    halt: &mut Halt<'_>,
) -> Result<Tree, Unfinished>
    requires sources { All (HasVertex graph.now) sources.now }
    requires labels { length labels.now ≡ graph.now.vertices }
    requires hops { blank.hops ≡ replicate graph.now.vertices None }
    requires parents { blank.parents ≡ replicate graph.now.vertices None }
    ensures hops { IfOk result (λ tree. AreLeast graph.now (is_tight_into (A.meaning algebra)
        graph.now labels.now region.now) sources.now tree.hops) }
    ensures parents { IfOk result (λ tree. AreLeastTails graph.now
        (is_tight_into (A.meaning algebra) graph.now labels.now region.now) tree.hops tree.parents) }
    ensures halts { IfErr result (λ e. e ≡ Halted → CanHalt halt.old) }
    ensures kind { CanHalt halt.new → CanHalt halt.old }
{
    graph.holds();
    let mut search = BreadthFirst::open(alloc, algebra, graph, labels, region, sources, blank)?;
    while !search.is_done() {
        search.visit_level(alloc, halt)?;
    }
    let (hops, parents) = search.into_parts();
    Ok(Tree { hops, parents })
}

/// The hops and parents of labels that are best from the sources, as a solver gives them. Sources
/// may repeat. The only error is `Memory`.
///
/// Each arc that leaves a reached vertex is looked at once; the tree keeps two numbers a vertex.
pub fn tree_outgoing<A: PathAlgebra>(
    alloc: Global,
    algebra: A,
    graph: &OutGraph,
    sources: &[Vertex],
    labels: &Labels<A::Value>,
) -> Result<Tree, Memory>
    requires sources { All (HasVertex graph.now) sources.now }
    requires labels { AreBest (A.meaning algebra) graph.now sources.now labels.now }
    ensures { IfOk result (λ tree. IsTree (A.meaning algebra) graph.now sources.now tree) }
{
    laws_hold(algebra);
    graph.holds();
    let blank = Tree::blank(alloc, graph.vertices() as usize)?;
    let region = Region::all();
    let halt = &mut Halt::Never;
    match tree_into(alloc, algebra, graph, labels, &region, sources, blank, halt) {
        Ok(tree) => Ok(tree),
        Err(Unfinished::Memory) => Err(Memory),
        Err(Unfinished::Halted) => unreachable!(),
    }
}

/// The same, in a graph that has its arcs by number and by head too.
pub fn tree<A: PathAlgebra>(
    alloc: Global,
    algebra: A,
    graph: &Graph,
    sources: &[Vertex],
    labels: &Labels<A::Value>,
) -> Result<Tree, Memory>
    requires sources { All (HasVertex graph.now) sources.now }
    requires labels { AreBest (A.meaning algebra) graph.now sources.now labels.now }
    ensures { IfOk result (λ tree. IsTree (A.meaning algebra) graph.now sources.now tree) }
{
    tree_outgoing(alloc, algebra, graph.outgoing(), sources, labels)
}
