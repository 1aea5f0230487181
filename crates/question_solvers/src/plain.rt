//! Solves questions by the plain solver.
ghost use Rattle.std.specs.Prelude.{◌≡◌, IfOk, OnOk, IsSome};
ghost use Rattle.std.specs.Borrow.{sem};
ghost use Rattle.road_files.specs.Asked.{AreQuestionsOf, asked_of};
ghost use Rattle.question_solvers.specs.Questions.{HasPlace};
ghost use Rattle.question_solvers.specs.Lending.{EndsPlain};
ghost use Rattle.question_solvers.specs.Solved.{IsNext, IsSolvedFor};
ghost use Rattle.question_solvers.specs.Solvers.{IsPlainAfter, IsPlainReady};
ghost use Rattle.question_solvers.specs.Tasks.{AreFoundIn, ArePairsIn, IsPlaceIn, IsPoolIn, SolvesNextIn};

use crate::ahead::{add_next, advance, solution_of};
use crate::pair_search::solve_at;
use crate::pair_solver::{PairSolver, set_algebra};
use crate::pairs::{find_for, search_pairs};
use crate::plain_solver::PlainSolver;
use crate::searched::Searched;
use crate::side_by_side::{search, search_ahead};
use crate::solved::Solved;
use crate::task::{PairTask, Task, TaskOver};
use path_algebra::PathAlgebra;
use road_files::{Kind, Questions};
use road_graph::{InGraph, Memory};
use std::alloc::Global;
use std::thread::Threads;

/// Solves the question at a place, from sources, with those that follow it, or alone.
fn solve_from_sources<A: PathAlgebra, R: Threads + Sync>(
    over: &TaskOver<'_, A, R>,
    i: usize,
    ahead: &mut Vec<Searched<A::Value>>,
) -> Result<(), Memory>
    requires unpaired { ArePairsIn over.now → ⊥ }
    requires place { IsPlaceIn over.now i }
    requires ahead { AreFoundIn A.meaning over.now ahead.old.items }
    ensures { SolvesNextIn A.meaning over.now i ahead.new.items result }
{
    let _ = search_ahead(over, i, ahead);
    if advance(over, i, ahead) {
        return Ok(());
    }
    let next = search(over, i)?;
    add_next(over, i, next, ahead)
}

/// The same of a pair, which is solved alone by the one of the pool that can go on, if there is one.
fn solve_pair<A: PathAlgebra, R: Threads + Sync>(
    pairs: &PairTask<'_, A, R>,
    i: usize,
    pool: &mut Vec<PairSolver<A>>,
    ahead: &mut Vec<Searched<A::Value>>,
) -> Result<(), Memory>
    requires place { IsPlaceIn pairs.now.over.now i }
    requires pool { IsPoolIn pairs.now.over.now pool.old.items }
    requires ahead { AreFoundIn A.meaning pairs.now.over.now ahead.old.items }
    ensures pool { IsPoolIn pairs.now.over.now pool.new.items }
    ensures solved { SolvesNextIn A.meaning pairs.now.over.now i ahead.new.items result }
{
    let over = pairs.over;
    let _ = search_pairs(pairs, i, pool, ahead);
    if advance(over, i, ahead) {
        return Ok(());
    }
    let k = find_for(pairs, i, pool)?;
    let next = solve_at(&mut pool[k].searcher, pairs, i)?;
    add_next(over, i, next, ahead)
}

/// Makes the rows of arcs by head, unless they are there.
pub(crate) fn make_rows<A: PathAlgebra>(
    alloc: Global,
    solver: &mut PlainSolver<A>,
) -> Result<(), Memory>
    ensures graph { solver.new.graph ≡ solver.old.graph }
    ensures searched { solver.new.searched ≡ solver.old.searched }
    ensures pool { solver.new.pool ≡ solver.old.pool }
    ensures rows { OnOk result (IsSome solver.new.by_head) }
{
    if solver.by_head.is_none() {
        let by_head = InGraph::of(alloc, &solver.graph)?;
        solver.by_head = Some(by_head);
    }
    Ok(())
}

/// Before the first question: forgets what was solved, but keeps the lists of the searchers. If the
/// questions are pairs, and the first, makes the rows of arcs by head.
pub fn start_plain<A: PathAlgebra, R>(
    task: &Task<'_, A, R>,
    solver: &mut PlainSolver<A>,
) -> Result<(), Memory>
    ensures graph { solver.new.graph ≡ solver.old.graph }
    ensures rows { OnOk result (IsSome solver.old.by_head → IsSome solver.new.by_head) }
    ensures ready { OnOk result (IsPlainReady A.meaning task.now solver.new) }
{
    solver.searched.clear();
    set_algebra(&mut solver.pool, task.algebra);
    if task.questions.kind() == Kind::Pairs {
        make_rows(task.alloc, solver)?;
    }
    Ok(())
}

/// Solves the question at a place, by what was solved ahead or else by a search: its solution is
/// the next one then.
pub(crate) fn solve_plainly<A: PathAlgebra, R: Threads + Sync>(
    task: &Task<'_, A, R>,
    solver: &mut PlainSolver<A>,
    i: usize,
) -> Result<(), Memory>
    requires place { HasPlace task.now.questions.now i }
    requires within { AreQuestionsOf solver.old.graph.vertices task.now.questions.now }
    requires ready { IsPlainReady A.meaning task.now solver.old }
    ensures after { IsPlainAfter A.meaning task.now solver.old solver.new }
    ensures next { OnOk result (IsNext (A.meaning task.now.algebra) solver.old.graph
        (asked_of task.now.questions.now) i solver.new.searched.items) }
{
    let graph = &solver.graph;
    let over = &TaskOver { task, graph };
    let (pool, ahead) = (&mut solver.pool, &mut solver.searched);
    if advance(over, i, ahead) {
        return Ok(());
    }
    match (task.questions, &solver.by_head) {
        (Questions::Pairs(_), Some(by_head)) => {
            solve_pair(&PairTask { over, by_head }, i, pool, ahead)
        }
        _ => solve_from_sources(over, i, ahead),
    }
}

/// Solves the question at a place.
pub fn solve_next_plainly<'s, A: PathAlgebra, R: Threads + Sync>(
    solver: &'s mut PlainSolver<A>,
    task: &Task<'_, A, R>,
    i: usize,
) -> Result<&'s Solved<A::Value>, Memory>
    requires place { HasPlace task.now.questions.now i }
    requires within { AreQuestionsOf solver.old.graph.vertices task.now.questions.now }
    requires ready { IsPlainReady A.meaning task.now solver.old }
    ensures* after { sem 𝓛 (EndsPlain A.row A.Value.row A.PathAlgebra A.meaning task.now
        solver.entry) }
    ensures solved { IfOk result (λ s. IsSolvedFor (A.meaning task.now.algebra) solver.old.graph
        (asked_of task.now.questions.now) i s.now) }
{
    solve_plainly(task, solver, i)?;
    let solved = solution_of(solver.searched.as_slice());
    Ok(solved)
}
