//! The three lists of a caller to which a tree is written.
ghost use Rattle.std.specs.Prelude.{◌≡◌, set};
ghost use Rattle.road_graph.specs.GraphData.{HasVertex};
ghost use Rattle.path_algebra.specs.Walks.{AreBest};
ghost use Rattle.route_tree.specs.Tree.{IsTree};
ghost use Rattle.answer_text.specs.IsAnswer.{IsVertexLine};
ghost use Rattle.answer_lists.specs.Near.{HasReached};
ghost use Rattle.answer_lists.specs.Tree.{AreSameLists, HasLowCodes, HavePlacesOrNone, HaveTree, line_of, number_for};

use crate::codes::code_for;
use path_algebra::{Labels, PathAlgebra, laws_hold};
use road_graph::{OutGraph, Vertex};
use route_tree::{Tree, labels_and_trees_agree};
use tree_search::TreeSearcher;

/// The three lists of a tree, as a caller lends them to be written: the code, the hops and the
/// parent of each vertex. A list without places is not wanted.
#[derive(Drop)]
pub struct TreeLists<'a> {
    pub codes: &'a mut [u64],
    pub hops: &'a mut [u32],
    pub parents: &'a mut [u32],
}

/// The best values of the vertices from some sources, and their tree.
#[derive(Drop)]
pub(crate) struct Solution<V: Copy> {
    pub(crate) labels: Labels<V>,
    pub(crate) tree: Tree,
}

pub(crate) fn hops_for(hops: Option<u32>) -> u32
    ensures { result ≡ number_for hops }
{
    match hops {
        Some(hops) => hops,
        None => 0,
    }
}

pub(crate) fn parent_for(parent: Option<Vertex>) -> u32
    ensures { result ≡ number_for parent }
{
    match parent {
        Some(parent) => parent.0,
        None => 0,
    }
}

/// The three numbers of a vertex.
fn numbers_of<A: PathAlgebra>(
    algebra: A,
    graph: &OutGraph,
    sources: &[Vertex],
    solution: &Solution<A::Value>,
    v: Vertex,
) -> (u64, u32, u32)
    requires low { HasLowCodes (A.meaning algebra) }
    requires vertex { HasVertex graph.now v }
    requires best { AreBest (A.meaning algebra) graph.now sources.now solution.now.labels }
    requires tree { IsTree (A.meaning algebra) graph.now sources.now solution.now.tree }
    ensures { IsVertexLine (A.meaning algebra) graph.now sources.now v
        (line_of result.0 result.1 result.2) }
{
    graph.holds();
    laws_hold(algebra);
    labels_and_trees_agree(algebra);
    (
        code_for(algebra, solution.labels.of(v)),
        hops_for(solution.tree.hops(v)),
        parent_for(solution.tree.parent(v)),
    )
}

/// Writes to a place of a list, if the list has it.
fn put<T: Copy>(list: &mut [T], i: usize, x: T)
    ensures { list.new ≡ set list.old i x }
{
    if i < list.len() {
        list[i] = x;
    }
}

/// Writes a tree to the lists that are wanted.
pub(crate) fn write_lists<A: PathAlgebra>(
    algebra: A,
    graph: &OutGraph,
    sources: &[Vertex],
    solution: &Solution<A::Value>,
    lists: &mut TreeLists<'_>,
)
    requires low { HasLowCodes (A.meaning algebra) }
    requires places { HavePlacesOrNone graph.now.vertices lists.old }
    requires best { AreBest (A.meaning algebra) graph.now sources.now solution.now.labels }
    requires tree { IsTree (A.meaning algebra) graph.now sources.now solution.now.tree }
    ensures same { AreSameLists lists.old lists.new }
    ensures tree { HaveTree (A.meaning algebra) graph.now sources.now lists.new }
{
    graph.holds();
    for i in 0..graph.vertices() as usize {
        let v = Vertex(i as u32 + 1);
        let (code, near, parent) = numbers_of(algebra, graph, sources, solution, v);
        put(lists.codes, i, code);
        put(lists.hops, i, near);
        put(lists.parents, i, parent);
    }
}

/// Writes the tree that a kept searcher found to the lists that are wanted.
pub(crate) fn write_found<A: PathAlgebra>(
    algebra: A,
    graph: &OutGraph,
    sources: &[Vertex],
    found: &TreeSearcher<A>,
    lists: &mut TreeLists<'_>,
)
    requires places { HavePlacesOrNone graph.now.vertices lists.old }
    requires found { HasReached (A.meaning algebra) graph.now sources.now found.now }
    ensures same { AreSameLists lists.old lists.new }
    ensures tree { HaveTree (A.meaning algebra) graph.now sources.now lists.new }
{
    graph.holds();
    for i in 0..graph.vertices() as usize {
        let v = Vertex(i as u32 + 1);
        put(lists.codes, i, code_for(algebra, found.value(v)));
        put(lists.hops, i, hops_for(found.hops(v)));
        put(lists.parents, i, parent_for(found.parent(v)));
    }
}
