//! Solves one pair by a search.
ghost use Rattle.std.specs.Prelude.{◌≡◌, slice_index_or, IfOk, IfSome};
ghost use Rattle.road_graph.specs.GraphData.{GraphData, HasVertex};
ghost use Rattle.path_algebra.specs.Algebra.{Algebra};
ghost use Rattle.road_files.specs.Asked.{Asked, BetweenPair, Question, asked_of};
ghost use Rattle.route_tree.specs.Found.{IsPairFound};
ghost use Rattle.question_solvers.specs.Solved.{IsSearchedAt};
ghost use Rattle.question_solvers.specs.Tasks.{ArePairsIn, IsFoundIn, IsPlaceIn, IsSearcherIn};

use crate::searched::Searched;
use crate::solved::Solved;
use crate::task::{PairTask, TaskOver};
use answer_text::Answer;
use factor_routes::{Pair, find_near};
use path_algebra::PathAlgebra;
use road_files::Questions;
use road_graph::Memory;
use route_tree::{Found, Nearby, PairSearcher};

/// The pair at a place.
pub(crate) fn pair_at<A: PathAlgebra, R>(over: &TaskOver<'_, A, R>, place: usize) -> Pair
    requires pairs { ArePairsIn over.now }
    requires place { IsPlaceIn over.now place }
    ensures asked { (default : Question) →
        slice_index_or (asked_of over.now.task.now.questions.now).questions place default ≡
        BetweenPair result.source result.target }
    ensures source { HasVertex over.now.graph.now result.source }
    ensures target { HasVertex over.now.graph.now result.target }
{
    let Questions::Pairs(pairs) = over.task.questions else {
        unreachable!()
    };
    let (source, target) = pairs[place];
    Pair { source, target }
}

/// What the question at a place, a pair, is solved to by what is found of it.
pub(crate) fn answer_of_pair<V: Copy>(place: usize, pair: Pair, found: Option<Found>) -> Searched<V>
    ensures { (A : Algebra V) (g : GraphData) (asked : Asked) → ((default : Question) →
        slice_index_or asked.questions place default ≡ BetweenPair pair.source pair.target) →
        IsPairFound A g pair.source pair.target found → IsSearchedAt A g asked place result }
{
    let Pair { source, target } = pair;
    Searched {
        place,
        solved: Solved::Answer(Answer::Pair {
            source,
            target,
            found,
        }),
    }
}

/// Solves the pair at a place.
pub(crate) fn solve_at<A: PathAlgebra, R>(
    searcher: &mut PairSearcher<A>,
    pairs: &PairTask<'_, A, R>,
    place: usize,
) -> Result<Searched<A::Value>, Memory>
    requires searcher { IsSearcherIn pairs.now.over.now searcher.old }
    requires place { IsPlaceIn pairs.now.over.now place }
    ensures searcher { IsSearcherIn pairs.now.over.now searcher.new }
    ensures solved { IfOk result (IsFoundIn A.meaning pairs.now.over.now place) }
{
    let over = pairs.over;
    let Pair { source, target } = pair_at(over, place);
    let found = searcher.solve(over.graph, pairs.by_head, (source, target))?;
    Ok(answer_of_pair(place, Pair { source, target }, found))
}

/// The same if the pair is near: none if the factors are to be asked.
pub(crate) fn solve_near_at<A: PathAlgebra, R>(
    searcher: &mut PairSearcher<A>,
    pairs: &PairTask<'_, A, R>,
    place: usize,
) -> Option<Searched<A::Value>>
    requires searcher { IsSearcherIn pairs.now.over.now searcher.old }
    requires place { IsPlaceIn pairs.now.over.now place }
    ensures searcher { IsSearcherIn pairs.now.over.now searcher.new }
    ensures solved { IfSome result (IsFoundIn A.meaning pairs.now.over.now place) }
{
    let over = pairs.over;
    let Pair { source, target } = pair_at(over, place);
    match find_near(searcher, over.graph, pairs.by_head, Pair { source, target }) {
        Nearby::Decided(found) => Some(answer_of_pair(place, Pair { source, target }, found)),
        Nearby::Undecided => None,
    }
}
