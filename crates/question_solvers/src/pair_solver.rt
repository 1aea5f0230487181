//! Searchers for pairs that stay from one group of pairs to the next.
ghost use Rattle.std.specs.Prelude.{◌≡◌, ℕ, ◌≤◌, ◌<◌, length, slice_index_or, All, OnOk, Some};
ghost use Rattle.road_graph.specs.GraphData.{GraphData};
ghost use Rattle.question_solvers.specs.Solvers.{IsPoolOf};
ghost use Rattle.question_solvers.specs.Tasks.{AreFoundIn, HaveFoundIn, IsPoolIn};

use crate::searched::{Searched, add};
use crate::task::TaskOver;
use path_algebra::PathAlgebra;
use road_graph::{Memory, Vertex};
use route_tree::PairSearcher;

/// A searcher for pairs, with a place for what it finds.
#[derive(Drop)]
pub(crate) struct PairSolver<A: PathAlgebra> {
    pub(crate) searcher: PairSearcher<A>,
    /// What it found last, until it is taken; none if there was not enough memory.
    pub(crate) found: Option<Searched<A::Value>>,
}

/// Gives each of a pool another algebra. Their next searches begin anew.
pub(crate) fn set_algebra<A: PathAlgebra>(pool: &mut Vec<PairSolver<A>>, algebra: A)
    ensures { (g : GraphData) → All (λ s. s.searcher.roads ≡ g) pool.old.items →
        IsPoolOf algebra g pool.new.items }
{
    for solver in pool.iter_mut() {
        solver.searcher.set_algebra(algebra);
    }
}

/// Adds to a pool until it has as many as these. The only error is want of memory, after which it
/// has some of them.
pub(crate) fn grow<A: PathAlgebra, R>(
    over: &TaskOver<'_, A, R>,
    pool: &mut Vec<PairSolver<A>>,
    count: usize,
) -> Result<(), Memory>
    requires pool { IsPoolIn over.now pool.old.items }
    ensures pool { IsPoolIn over.now pool.new.items }
    ensures long { OnOk result (count ≤ length pool.new.items) }
{
    for _k in pool.len()..count {
        let searcher = PairSearcher::new(over.task.alloc, over.task.algebra, over.graph)?;
        let solver = PairSolver {
            searcher,
            found: None,
        };
        if pool.push(solver).is_err() {
            return Err(Memory);
        }
    }
    Ok(())
}

/// Which of a pool goes on with its search for a pair of this source; the first, if none does.
pub(crate) fn find_from<A: PathAlgebra>(pool: &[PairSolver<A>], source: Vertex) -> usize
    requires some { 1 ≤ length pool.now }
    ensures inside { result < length pool.now }
    ensures goes_on { (k : ℕ) → k < length pool.now → (d : _) →
        (slice_index_or pool.now k d).searcher.source ≡ Some source →
        (slice_index_or pool.now result d).searcher.source ≡ Some source }
{
    for k in 0..pool.len() {
        if pool[k].searcher.is_from(source) {
            return k;
        }
    }
    0
}

/// Adds what each of a group found, the last one first. The only error is want of memory, also of
/// one of them before. After an error some of it is added.
pub(crate) fn add_found<A: PathAlgebra, R>(
    over: &TaskOver<'_, A, R>,
    group: &mut [PairSolver<A>],
    ahead: &mut Vec<Searched<A::Value>>,
) -> Result<(), Memory>
    requires pool { IsPoolIn over.now group.old }
    requires found { HaveFoundIn A.meaning over.now group.old }
    requires ahead { AreFoundIn A.meaning over.now ahead.old.items }
    ensures pool { IsPoolIn over.now group.new }
    ensures ahead { AreFoundIn A.meaning over.now ahead.new.items }
{
    for k in (0..group.len()).rev() {
        let Some(next) = group[k].found.take() else {
            return Err(Memory);
        };
        add(ahead, next)?;
    }
    Ok(())
}
