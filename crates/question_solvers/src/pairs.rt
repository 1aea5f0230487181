//! Solves pairs, several side by side, by a pool of searchers.
ghost use Rattle.std.specs.Prelude.{◌≡◌, ◌≤◌, ◌<◌, ℕ, length, slice_index_or, All, IfOk, IfSome};
ghost use Rattle.question_solvers.specs.Tasks.{AreFoundIn, HaveFoundIn, IsFoundIn, IsPlaceIn, IsPoolIn, IsSearcherIn};

use crate::pair_search::{pair_at, solve_at, solve_near_at};
use crate::pair_solver::{PairSolver, add_found, find_from, grow};
use crate::searched::Searched;
use crate::side_by_side::{follows, places_from};
use crate::task::PairTask;
use path_algebra::PathAlgebra;
use rayon::prelude::*;
use road_graph::Memory;
use std::thread::Threads;

/// Solves the pair at one of several places, by the one of a group with its number.
fn solve_one<A: PathAlgebra, R>(
    solver: &mut PairSolver<A>,
    pairs: &PairTask<'_, A, R>,
    places: &[usize],
    k: usize,
)
    requires searcher { IsSearcherIn pairs.now.over.now solver.old.searcher }
    requires places { All (IsPlaceIn pairs.now.over.now) places.now }
    requires number { k < length places.now }
    ensures searcher { IsSearcherIn pairs.now.over.now solver.new.searcher }
    ensures found { (d : ℕ) → IfSome solver.new.found (IsFoundIn A.meaning pairs.now.over.now
        (slice_index_or places.now k d)) }
{
    solver.found = solve_at(&mut solver.searcher, pairs, places[k]).ok();
}

/// Solves the pairs at several places, each by one of a group: side by side, on all processors.
fn solve_group<A: PathAlgebra, R: Threads + Sync>(
    pairs: &PairTask<'_, A, R>,
    places: &[usize],
    group: &mut [PairSolver<A>],
)
    requires places { All (IsPlaceIn pairs.now.over.now) places.now }
    requires count { length group.old ≡ length places.now }
    requires pool { IsPoolIn pairs.now.over.now group.old }
    ensures found { HaveFoundIn A.meaning pairs.now.over.now group.new }
    ensures pool { IsPoolIn pairs.now.over.now group.new }
{
    par_for_each_mut(
        pairs.over.task.rt,
        group,
        |k: usize, solver: &mut PairSolver<A>|
            requires { IsSearcherIn pairs.now.over.now solver.old.searcher ×
                All (IsPlaceIn pairs.now.over.now) places.now ×
                (k < length places.now) }
            ensures { ((d : ℕ) → IfSome solver.new.found (IsFoundIn A.meaning
                pairs.entry.now.over.now (slice_index_or places.entry.now k d))) ×
                IsSearcherIn pairs.entry.now.over.now solver.new.searcher }
        { solve_one(solver, pairs, places, k) },
    );
}

/// Solves the pairs at several places by the first of a pool. They are added ahead.
fn search_group<A: PathAlgebra, R: Threads + Sync>(
    pairs: &PairTask<'_, A, R>,
    places: &[usize],
    pool: &mut [PairSolver<A>],
    ahead: &mut Vec<Searched<A::Value>>,
) -> Result<(), Memory>
    requires places { All (IsPlaceIn pairs.now.over.now) places.now }
    requires long { length places.now ≤ length pool.old }
    requires pool { IsPoolIn pairs.now.over.now pool.old }
    requires ahead { AreFoundIn A.meaning pairs.now.over.now ahead.old.items }
    ensures pool { IsPoolIn pairs.now.over.now pool.new }
    ensures ahead { AreFoundIn A.meaning pairs.now.over.now ahead.new.items }
{
    let group = &mut pool[..places.len()];
    solve_group(pairs, places, group);
    add_found(pairs.over, group, ahead)
}

/// The same by a pool that gets longer if need be.
fn search_each<A: PathAlgebra, R: Threads + Sync>(
    pairs: &PairTask<'_, A, R>,
    places: &[usize],
    pool: &mut Vec<PairSolver<A>>,
    ahead: &mut Vec<Searched<A::Value>>,
) -> Result<(), Memory>
    requires places { All (IsPlaceIn pairs.now.over.now) places.now }
    requires pool { IsPoolIn pairs.now.over.now pool.old.items }
    requires ahead { AreFoundIn A.meaning pairs.now.over.now ahead.old.items }
    ensures pool { IsPoolIn pairs.now.over.now pool.new.items }
    ensures ahead { AreFoundIn A.meaning pairs.now.over.now ahead.new.items }
{
    grow(pairs.over, pool, places.len())?;
    search_group(pairs, places, pool.as_mut_slice(), ahead)
}

/// Solves the pair at a place and those that follow it with other sources, as many as the width in
/// all, side by side, unless that is one or the pair follows one of its own source. They are added
/// ahead. If memory does not suffice, the pool is cut to one, and what was ahead is dropped.
pub(crate) fn search_pairs<A: PathAlgebra, R: Threads + Sync>(
    pairs: &PairTask<'_, A, R>,
    i: usize,
    pool: &mut Vec<PairSolver<A>>,
    ahead: &mut Vec<Searched<A::Value>>,
) -> Result<(), Memory>
    requires place { IsPlaceIn pairs.now.over.now i }
    requires pool { IsPoolIn pairs.now.over.now pool.old.items }
    requires ahead { AreFoundIn A.meaning pairs.now.over.now ahead.old.items }
    ensures pool { IsPoolIn pairs.now.over.now pool.new.items }
    ensures ahead { AreFoundIn A.meaning pairs.now.over.now ahead.new.items }
{
    let task = pairs.over.task;
    if task.width == 1 || follows(task.questions, i) {
        return Ok(());
    }
    let places = places_from(task, i)?;
    let searched = search_each(pairs, places.as_slice(), pool, ahead);
    if searched.is_err() {
        pool.truncate(1);
        ahead.clear();
    }
    searched
}

/// Which of a pool solves the pair at a place: one that goes on with its search, if there is one.
pub(crate) fn find_for<A: PathAlgebra, R>(
    pairs: &PairTask<'_, A, R>,
    i: usize,
    pool: &mut Vec<PairSolver<A>>,
) -> Result<usize, Memory>
    requires place { IsPlaceIn pairs.now.over.now i }
    requires pool { IsPoolIn pairs.now.over.now pool.old.items }
    ensures inside { IfOk result (λ k. k < length pool.new.items) }
    ensures pool { IsPoolIn pairs.now.over.now pool.new.items }
{
    grow(pairs.over, pool, 1)?;
    let pair = pair_at(pairs.over, i);
    Ok(find_from(pool.as_slice(), pair.source))
}

/// Solves the pair at a place by one of a pool if it is near: none if the factors are to be asked.
pub(crate) fn search_near<A: PathAlgebra, R>(
    pairs: &PairTask<'_, A, R>,
    i: usize,
    pool: &mut Vec<PairSolver<A>>,
) -> Result<Option<Searched<A::Value>>, Memory>
    requires place { IsPlaceIn pairs.now.over.now i }
    requires pool { IsPoolIn pairs.now.over.now pool.old.items }
    ensures solved { IfOk result (λ near. IfSome near (IsFoundIn A.meaning pairs.now.over.now i)) }
    ensures pool { IsPoolIn pairs.now.over.now pool.new.items }
{
    let k = find_for(pairs, i, pool)?;
    Ok(solve_near_at(&mut pool[k].searcher, pairs, i))
}
