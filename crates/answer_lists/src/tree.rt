//! A tree, written to three lists of the caller.
ghost use Rattle.std.specs.Prelude.{◌≡◌, ◌↔◌, ◌∷◌, [], pos, true, false, IfOk, IfSome, IsSome, IsTrue, None, Ok};
ghost use Rattle.std.specs.List.{All};
ghost use Rattle.road_graph.specs.GraphData.{HasVertex};
ghost use Rattle.path_algebra.specs.Choices.{OfAlgebra, Under};
ghost use Rattle.path_algebra.specs.Walks.{AreBest};
ghost use Rattle.route_tree.specs.Tree.{IsTree};
ghost use Rattle.halting.specs.Halting.{CanHalt};
ghost use Rattle.answer_lists.specs.Answers.{IsOneOf, ReportsListRefusals};
ghost use Rattle.answer_lists.specs.Kept.{AreSearchersOf, IsKeptOver, algebra_of};
ghost use Rattle.answer_lists.specs.Tree.{AreSameLists, AreUnwritten, HasLowCodes, HavePlacesOrNone, HaveTree, IsAllOrNone};

use crate::algebra_number::AlgebraNumber;
use crate::kept::{Kept, Searchers};
use crate::shared_graph::SharedGraph;
use crate::sources::{are_vertices, vertices_of};
use crate::status::{DONE, MEMORY, NO_ALGEBRA, NO_ROOM, NO_VERTEX, STOPPED};
use crate::tree_lists::{Solution, TreeLists, write_found, write_lists};
use halting::{Halt, Stop, is_stopped};
use path_algebra::{AlgebraChoice, Labels, PathAlgebra, Within, with_algebra};
use road_graph::{Memory, OutGraph, Vertex};
use route_tree::Tree;
use tree_search::{solve_with_tree, solve_with_tree_unless};

/// The labels from some sources, and their tree, by a search; none if the stop is set before.
fn search<A: PathAlgebra>(
    algebra: A,
    shared: &SharedGraph,
    stop: &Option<Stop>,
    sources: &[Vertex],
) -> Result<Option<(Labels<A::Value>, Tree)>, Memory>
    requires { All (HasVertex shared.now.roads) sources.now }
    ensures labels { IfOk result (λ found. IfSome found (λ s. AreBest (A.meaning algebra)
        shared.now.roads sources.now s.0)) }
    ensures tree { IfOk result (λ found. IfSome found (λ s. IsTree (A.meaning algebra)
        shared.now.roads sources.now s.1)) }
    ensures stopped { IfOk result (λ found. found ≡ None → IsSome stop.now) }
{
    let (alloc, graph) = (shared.alloc(), shared.graph());
    if stop.is_some() {
        return solve_with_tree_unless(alloc, algebra, graph, sources, &mut Halt::by(stop));
    }
    let found = solve_with_tree(alloc, algebra, graph, sources)?;
    Ok(Some(found))
}

/// The labels from some sources, and their tree: by the factors, if there are any, or by a search.
/// None if the stop is set before.
fn solve<A: PathAlgebra>(
    algebra: A,
    shared: &mut SharedGraph,
    stop: &Option<Stop>,
    sources: &[Vertex],
) -> Result<Option<(Labels<A::Value>, Tree)>, Memory>
    requires { All (HasVertex shared.old.roads) sources.now }
    ensures graph { shared.new ≡ shared.old }
    ensures labels { IfOk result (λ found. IfSome found (λ s. AreBest (A.meaning algebra)
        shared.old.roads sources.now s.0)) }
    ensures tree { IfOk result (λ found. IfSome found (λ s. IsTree (A.meaning algebra)
        shared.old.roads sources.now s.1)) }
    ensures stopped { IfOk result (λ found. found ≡ None → IsSome stop.now) }
{
    let Some(factored) = shared.take_factored(algebra) else {
        return search(algebra, shared, stop, sources);
    };
    let found = match shared.by_head() {
        Ok(by_head) => factored.tree(algebra, &by_head, sources, stop),
        Err(Memory) => Err(Memory),
    };
    shared.put_factored(factored);
    found
}

/// Finds a tree in this way and writes it.
fn answer<A: PathAlgebra>(
    algebra: A,
    shared: &mut SharedGraph,
    stop: &Option<Stop>,
    sources: &[Vertex],
    lists: &mut TreeLists<'_>,
) -> i32
    requires low { HasLowCodes (A.meaning algebra) }
    requires sources { All (HasVertex shared.old.roads) sources.now }
    requires places { HavePlacesOrNone shared.old.roads.vertices lists.old }
    ensures graph { shared.new ≡ shared.old }
    ensures same { AreSameLists lists.old lists.new }
    ensures tree { result ≡ pos 0 → HaveTree (A.meaning algebra) shared.old.roads
        sources.now lists.new }
    ensures kept { (result ≡ pos 0 → ⊥) → AreUnwritten lists.old lists.new }
    ensures stopped { result ≡ pos 45 → IsSome stop.now }
    ensures status { IsOneOf (0 ∷ 3 ∷ 45 ∷ []) result }
{
    match solve(algebra, shared, stop, sources) {
        Ok(Some((labels, tree))) => {
            let solution = Solution { labels, tree };
            write_lists(algebra, shared.graph(), sources, &solution, lists);
            DONE
        }
        Ok(None) => STOPPED,
        Err(Memory) => MEMORY,
    }
}

/// Finds a tree by a search with the kept searcher and writes it, unless the search gives up.
/// Whether it is written.
fn write_searched<A: PathAlgebra>(
    searchers: &mut Searchers<A>,
    graph: &OutGraph,
    sources: &[Vertex],
    halt: &mut Halt<'_>,
    lists: &mut TreeLists<'_>,
) -> Result<bool, Memory>
    requires low { HasLowCodes (A.meaning searchers.old.algebra) }
    requires over { AreSearchersOf graph.now searchers.old }
    requires sources { All (HasVertex graph.now) sources.now }
    requires places { HavePlacesOrNone graph.now.vertices lists.old }
    ensures over { AreSearchersOf graph.now searchers.new }
    ensures same { AreSameLists lists.old lists.new }
    ensures tree { result ≡ Ok true → HaveTree (A.meaning searchers.old.algebra) graph.now
        sources.now lists.new }
    ensures kept { (result ≡ Ok true → ⊥) → AreUnwritten lists.old lists.new }
    ensures halts { result ≡ Ok false → CanHalt halt.old }
{
    let algebra = searchers.algebra;
    let Some(found) = searchers.reach(graph, sources, halt)? else {
        return Ok(false);
    };
    write_found(algebra, graph, sources, &found, lists);
    searchers.trees = Some(found);
    Ok(true)
}

/// The same by what is kept.
fn write_kept(
    kept: &mut Kept,
    graph: &OutGraph,
    sources: &[Vertex],
    halt: &mut Halt<'_>,
    lists: &mut TreeLists<'_>,
) -> Result<bool, Memory>
    requires over { IsKeptOver graph.now kept.old }
    requires sources { All (HasVertex graph.now) sources.now }
    requires places { HavePlacesOrNone graph.now.vertices lists.old }
    ensures over { IsKeptOver graph.now kept.new }
    ensures same { AreSameLists lists.old lists.new }
    ensures tree { result ≡ Ok true → Under (algebra_of kept.old) (λ V A. HaveTree A graph.now
        sources.now lists.new) }
    ensures kept { (result ≡ Ok true → ⊥) → AreUnwritten lists.old lists.new }
    ensures halts { result ≡ Ok false → CanHalt halt.old }
{
    with_kept!(
        kept,
        |searchers| write_searched(searchers, graph, sources, halt, lists)
    )
}

/// The same by the chosen algebra.
fn answer_searched(
    chosen: AlgebraChoice,
    shared: &mut SharedGraph,
    sources: &[Vertex],
    halt: &mut Halt<'_>,
    lists: &mut TreeLists<'_>,
) -> Result<bool, Memory>
    requires sources { All (HasVertex shared.old.roads) sources.now }
    requires places { HavePlacesOrNone shared.old.roads.vertices lists.old }
    ensures graph { shared.new ≡ shared.old }
    ensures same { AreSameLists lists.old lists.new }
    ensures tree { result ≡ Ok true → Under chosen (λ V A. HaveTree A shared.old.roads sources.now
        lists.new) }
    ensures kept { (result ≡ Ok true → ⊥) → AreUnwritten lists.old lists.new }
    ensures halts { result ≡ Ok false → CanHalt halt.old }
{
    let mut kept = shared.take_for_trees(chosen);
    let is_written = write_kept(&mut kept, shared.graph(), sources, halt, lists);
    shared.put_for_trees(kept);
    is_written
}

/// Whether a search within this limit most likely takes less time than to sweep the factors, which
/// takes about what a search of 2/5 of the vertices does. On a map a quarter of the limit reaches a
/// sixteenth of what the limit does.
fn is_cheap(limit: Within, shared: &mut SharedGraph, sources: &[Vertex]) -> bool
    requires { All (HasVertex shared.old.roads) sources.now }
    ensures { shared.new ≡ shared.old }
{
    let Some(quarter) = Within::new(limit.limit / 4) else {
        return false;
    };
    let mut few = Halt::After(32 + shared.graph().vertices() / 32);
    let mut kept = shared.take_for_trees(AlgebraChoice::Within(quarter));
    let is_ended = kept.ends_within(shared.graph(), sources, &mut few);
    shared.put_for_trees(kept);
    is_ended
}

/// How many entries a search for a tree without a limit takes from its queue, at most, before the
/// factors are swept: another tree then loses some hundredths of its time.
fn few_entries(graph: &OutGraph) -> u32 {
    500 + graph.vertices() / 64
}

/// Finds a tree on a factored graph by a search and writes it, if that takes less time than to
/// sweep the factors. Whether it is written.
fn answer_soon(
    chosen: AlgebraChoice,
    shared: &mut SharedGraph,
    stop: &Option<Stop>,
    sources: &[Vertex],
    lists: &mut TreeLists<'_>,
) -> Result<bool, Memory>
    requires sources { All (HasVertex shared.old.roads) sources.now }
    requires places { HavePlacesOrNone shared.old.roads.vertices lists.old }
    ensures graph { shared.new ≡ shared.old }
    ensures same { AreSameLists lists.old lists.new }
    ensures tree { result ≡ Ok true → Under chosen (λ V A. HaveTree A shared.old.roads sources.now
        lists.new) }
    ensures kept { (result ≡ Ok true → ⊥) → AreUnwritten lists.old lists.new }
{
    let mut halt = match chosen {
        AlgebraChoice::Within(limit) => {
            if !is_cheap(limit, shared, sources) {
                return Ok(false);
            }
            Halt::by(stop)
        }
        _ => Halt::After(few_entries(shared.graph())),
    };
    answer_searched(chosen, shared, sources, &mut halt, lists)
}

/// Finds a tree by the chosen algebra and writes it. If there is a stop, what finds it looks at
/// that.
fn answer_chosen(
    chosen: AlgebraChoice,
    shared: &mut SharedGraph,
    stop: &Option<Stop>,
    sources: &[u32],
    lists: &mut TreeLists<'_>,
) -> i32
    requires sources { All (HasVertex shared.old.roads) sources.now }
    requires places { HavePlacesOrNone shared.old.roads.vertices lists.old }
    ensures graph { shared.new ≡ shared.old }
    ensures same { AreSameLists lists.old lists.new }
    ensures tree { result ≡ pos 0 → Under chosen (λ V A. HaveTree A shared.old.roads sources.now
        lists.new) }
    ensures kept { (result ≡ pos 0 → ⊥) → AreUnwritten lists.old lists.new }
    ensures stopped { result ≡ pos 45 → IsSome stop.now }
    ensures status { IsOneOf (0 ∷ 3 ∷ 45 ∷ []) result }
{
    let Ok(list) = vertices_of(shared.alloc(), sources) else {
        return MEMORY;
    };
    if shared.is_factored_for(chosen) {
        if let Ok(true) = answer_soon(chosen, shared, stop, &list, lists) {
            return DONE;
        }
        if is_stopped(stop) {
            return STOPPED;
        }
    }
    with_algebra!(
        chosen,
        |algebra| answer(algebra, shared, stop, &list, lists)
    )
}

/// Whether so many places are one for each of n vertices, or none.
fn is_all_or_none(n: usize, count: usize) -> bool
    ensures { IsTrue result ↔ IsAllOrNone n count }
{
    count == n || count == 0
}

/// Whether each list has a place for each of n vertices, or none.
fn have_places_or_none(n: usize, lists: &TreeLists<'_>) -> bool
    ensures { IsTrue result ↔ HavePlacesOrNone n lists.now }
{
    is_all_or_none(n, lists.codes.len())
        && is_all_or_none(n, lists.hops.len())
        && is_all_or_none(n, lists.parents.len())
}

/// Finds a tree by the algebra of a number and writes it, if each source is a vertex, each list has
/// a place for each vertex or none, and there is such an algebra. A search ends without an answer
/// soon after the stop is set, if there is one.
#[tactic(auto, using(path_algebra::proofs::Chosen::of_numbered))]
pub fn answer_tree(
    by: AlgebraNumber,
    shared: &mut SharedGraph,
    stop: &Option<Stop>,
    sources: &[u32],
    lists: &mut TreeLists<'_>,
) -> i32
    ensures graph { shared.new ≡ shared.old }
    ensures same { AreSameLists lists.old lists.new }
    ensures tree { result ≡ pos 0 → OfAlgebra by.algebra by.limit (λ V A. HaveTree A
        shared.old.roads sources.now lists.new) }
    ensures kept { (result ≡ pos 0 → ⊥) → AreUnwritten lists.old lists.new }
    ensures refusals { ReportsListRefusals (All (HasVertex shared.old.roads) sources.now)
        (HavePlacesOrNone shared.old.roads.vertices lists.old) by.algebra by.limit result }
    ensures stopped { result ≡ pos 45 → IsSome stop.now }
    ensures status { IsOneOf (0 ∷ 2 ∷ 3 ∷ 17 ∷ 43 ∷ 45 ∷ []) result }
{
    let graph = shared.graph();
    if !are_vertices(graph, sources) {
        return NO_VERTEX;
    }
    if !have_places_or_none(graph.vertices() as usize, lists) {
        return NO_ROOM;
    }
    let Some(chosen) = AlgebraChoice::numbered(by.algebra, by.limit) else {
        return NO_ALGEBRA;
    };
    answer_chosen(chosen, shared, stop, sources, lists)
}
