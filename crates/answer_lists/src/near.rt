//! What is reached from the nearest of some sources, the best first, written to four lists of the
//! caller.
ghost use Rattle.std.specs.Prelude.{◌≡◌, ◌∷◌, [], IsSome, pos};
ghost use Rattle.std.specs.List.{All};
ghost use Rattle.road_graph.specs.GraphData.{HasVertex};
ghost use Rattle.path_algebra.specs.Choices.{OfAlgebra, Under};
ghost use Rattle.halting.specs.Halting.{CanHalt};
ghost use Rattle.answer_lists.specs.Answers.{IsFound, IsOneOf, ReportsRefusals};
ghost use Rattle.answer_lists.specs.Kept.{AreSearchersOf, IsKeptOver, algebra_of};
ghost use Rattle.answer_lists.specs.Near.{HaveNear, IsReachedCount, IsWrittenNear};
ghost use Rattle.answer_lists.specs.Tree.{HasLowCodes};

use crate::algebra_number::AlgebraNumber;
use crate::kept::{Kept, Searchers};
use crate::near_lists::{NearLists, write_lists};
use crate::shared_graph::SharedGraph;
use crate::sources::{are_vertices, vertices_of};
use crate::status::{MEMORY, NO_ALGEBRA, NO_VERTEX, STOPPED};
use halting::{Halt, Stop};
use path_algebra::{AlgebraChoice, PathAlgebra};
use road_graph::{Memory, OutGraph, Vertex};

/// Searches, counts what is reached, and writes it if there is room, unless the search gives up.
fn search<A: PathAlgebra>(
    searchers: &mut Searchers<A>,
    graph: &OutGraph,
    sources: &[Vertex],
    halt: &mut Halt<'_>,
    lists: &mut NearLists<'_>,
) -> i32
    requires low { HasLowCodes (A.meaning searchers.old.algebra) }
    requires over { AreSearchersOf graph.now searchers.old }
    requires sources { All (HasVertex graph.now) sources.now }
    ensures over { AreSearchersOf graph.now searchers.new }
    ensures count { IsFound result → IsReachedCount (A.meaning searchers.old.algebra) graph.now
        sources.now lists.new.count.now }
    ensures lists { result ≡ pos 0 → HaveNear (A.meaning searchers.old.algebra) graph.now
        sources.now lists.new }
    ensures written { IsWrittenNear lists.old lists.new result }
    ensures halts { result ≡ pos 45 → CanHalt halt.old }
    ensures status { IsOneOf (0 ∷ 2 ∷ 3 ∷ 45 ∷ []) result }
{
    let algebra = searchers.algebra;
    match searchers.reach(graph, sources, halt) {
        Ok(Some(found)) => {
            let status = write_lists(algebra, &found, lists);
            searchers.trees = Some(found);
            status
        }
        Ok(None) => STOPPED,
        Err(Memory) => MEMORY,
    }
}

/// The same by what is kept.
fn search_kept(
    kept: &mut Kept,
    graph: &OutGraph,
    sources: &[Vertex],
    halt: &mut Halt<'_>,
    lists: &mut NearLists<'_>,
) -> i32
    requires over { IsKeptOver graph.now kept.old }
    requires sources { All (HasVertex graph.now) sources.now }
    ensures over { IsKeptOver graph.now kept.new }
    ensures count { IsFound result → Under (algebra_of kept.old) (λ V A. IsReachedCount A graph.now
        sources.now lists.new.count.now) }
    ensures lists { result ≡ pos 0 → Under (algebra_of kept.old) (λ V A. HaveNear A graph.now
        sources.now lists.new) }
    ensures written { IsWrittenNear lists.old lists.new result }
    ensures halts { result ≡ pos 45 → CanHalt halt.old }
    ensures status { IsOneOf (0 ∷ 2 ∷ 3 ∷ 45 ∷ []) result }
{
    with_kept!(
        kept,
        |searchers| search(searchers, graph, sources, halt, lists)
    )
}

/// Searches by the chosen algebra, counts what is reached, and writes it if there is room.
fn answer(
    chosen: AlgebraChoice,
    shared: &mut SharedGraph,
    stop: &Option<Stop>,
    sources: &[u32],
    lists: &mut NearLists<'_>,
) -> i32
    requires { All (HasVertex shared.old.roads) sources.now }
    ensures graph { shared.new ≡ shared.old }
    ensures count { IsFound result → Under chosen (λ V A. IsReachedCount A shared.old.roads
        sources.now lists.new.count.now) }
    ensures lists { result ≡ pos 0 → Under chosen (λ V A. HaveNear A shared.old.roads sources.now
        lists.new) }
    ensures written { IsWrittenNear lists.old lists.new result }
    ensures stopped { result ≡ pos 45 → IsSome stop.now }
    ensures status { IsOneOf (0 ∷ 2 ∷ 3 ∷ 45 ∷ []) result }
{
    let Ok(list) = vertices_of(shared.alloc(), sources) else {
        return MEMORY;
    };
    let mut kept = shared.take_for_trees(chosen);
    let status = search_kept(&mut kept, shared.graph(), &list, &mut Halt::by(stop), lists);
    shared.put_for_trees(kept);
    status
}

/// Finds by the algebra of a number what is reached from the nearest of some sources, and writes
/// it, the best first, if each source is a vertex, there is such an algebra, and each list that is
/// wanted has a place for each vertex that is reached.
///
/// If a list is too short, the count is still written. The search ends without an answer soon after
/// the stop is set, if there is one.
#[tactic(auto, using(path_algebra::proofs::Chosen::of_numbered))]
pub fn answer_near(
    by: AlgebraNumber,
    shared: &mut SharedGraph,
    stop: &Option<Stop>,
    sources: &[u32],
    lists: &mut NearLists<'_>,
) -> i32
    ensures graph { shared.new ≡ shared.old }
    ensures count { IsFound result → OfAlgebra by.algebra by.limit (λ V A. IsReachedCount A
        shared.old.roads sources.now lists.new.count.now) }
    ensures lists { result ≡ pos 0 → OfAlgebra by.algebra by.limit (λ V A. HaveNear A
        shared.old.roads sources.now lists.new) }
    ensures written { IsWrittenNear lists.old lists.new result }
    ensures refusals { ReportsRefusals (All (HasVertex shared.old.roads) sources.now) by.algebra
        by.limit result }
    ensures stopped { result ≡ pos 45 → IsSome stop.now }
    ensures status { IsOneOf (0 ∷ 2 ∷ 3 ∷ 17 ∷ 43 ∷ 45 ∷ []) result }
{
    if !are_vertices(shared.graph(), sources) {
        return NO_VERTEX;
    }
    let Some(chosen) = AlgebraChoice::numbered(by.algebra, by.limit) else {
        return NO_ALGEBRA;
    };
    answer(chosen, shared, stop, sources, lists)
}
