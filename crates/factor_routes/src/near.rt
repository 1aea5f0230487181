//! Pairs that a search finds in less time than factors are asked.
ghost use Rattle.std.specs.Prelude.{◌≡◌, ◌/◌, min, max};
ghost use Rattle.road_graph.specs.GraphData.{HasVertex};
ghost use Rattle.path_plain.specs.Searcher.{IsOfSameGraph};
ghost use Rattle.halting.specs.declared.halt.Halt.TheVariants.{After};
ghost use Rattle.route_tree.specs.Found.{IsFoundIfNear};

use crate::pairs::Pair;
use halting::Halt;
use path_algebra::PathAlgebra;
use road_graph::{InGraph, Memory, OutGraph};
use route_tree::{Nearby, PairSearcher};

/// The fewest steps after which a search gives up.
const FEWEST: u32 = 32;

/// The most steps after which a search gives up: most near pairs need fewer.
const MOST: u32 = 500;

/// For how many vertices of its graph a search takes a step: in vain it then takes a third of what
/// factors of a small graph take.
const VERTICES_A_STEP: u32 = 600;

/// When a search for a pair gives up, so that factors are asked, on a graph of so many vertices.
fn near_halt(vertices: u32) -> Halt<'static>
    ensures { result ≡ After (min (max (vertices / 600) 32) 500) }
{
    Halt::After((vertices / VERTICES_A_STEP).max(FEWEST).min(MOST))
}

/// What a search finds of a pair on a factored graph. The factors are to be asked of a pair that it
/// leaves undecided, since it was not near or memory ran out.
pub fn find_near<A: PathAlgebra>(
    searcher: &mut PairSearcher<A>,
    graph: &OutGraph,
    by_head: &InGraph,
    pair: Pair,
) -> Nearby
    requires graph { graph.now ≡ searcher.old.roads }
    requires by_head { by_head.now ≡ graph.now }
    requires source { HasVertex graph.now pair.source }
    requires target { HasVertex graph.now pair.target }
    ensures found { IsFoundIfNear (A.meaning searcher.old.algebra) graph.now pair.source pair.target
        result }
    ensures same { IsOfSameGraph searcher.old searcher.new }
{
    let mut halt = near_halt(graph.vertices());
    match searcher.solve_unless(graph, by_head, (pair.source, pair.target), &mut halt) {
        Ok(near) => near,
        Err(Memory) => Nearby::Undecided,
    }
}
