//! Solves questions by the factors of the graph.
ghost use Rattle.std.specs.Prelude.{◌≡◌, IfOk, OnOk, IfSome, IsNone, IsSome};
ghost use Rattle.std.specs.Borrow.{sem};
ghost use Rattle.path_algebra.specs.Carried.{IsCarried};
ghost use Rattle.path_algebra.specs.Counted.{cost_of};
ghost use Rattle.road_files.specs.Asked.{AreQuestionsOf, asked_of};
ghost use Rattle.question_solvers.specs.Questions.{HasPlace};
ghost use Rattle.question_solvers.specs.Lending.{EndsFactors};
ghost use Rattle.question_solvers.specs.Solved.{IsNext, IsSolvedFor};
ghost use Rattle.question_solvers.specs.Solvers.{IsFactorAfter, IsFactorReady, IsFactoredFor, IsSoughtBy, IsTried};
ghost use Rattle.question_solvers.specs.Tasks.{AreFoundIn, ArePairsIn, IsCarriedIn, IsFoundIn, IsPlaceIn, IsPoolIn, SolvesNextIn};

use crate::ahead::{add_next, advance, solution_of};
use crate::askers::ask_pair;
use crate::factor_solver::{FactorSolver, Factored};
use crate::order_care::care_for;
use crate::pair_solver::PairSolver;
use crate::pairs::search_near;
use crate::plain::{make_rows, solve_plainly, start_plain};
use crate::searched::Searched;
use crate::solved::Solved;
use crate::task::{FactoredTask, PairTask, Task, TaskOver};
use elimination_order::Counts;
use factor_routes::RouteAsker;
use path_algebra::PathAlgebra;
use road_files::Kind;
use road_graph::Memory;
use std::alloc::Global;
use std::thread::Threads;

/// Solves the question at a place, from sources, by two sweeps over the factors of its graph.
fn sweep<A: PathAlgebra, R>(
    factored: &FactoredTask<'_, A, R>,
    place: usize,
) -> Result<Searched<A::Value>, Memory>
    requires unpaired { ArePairsIn factored.now.over.now → ⊥ }
    requires place { IsPlaceIn factored.now.over.now place }
    requires carried { IsCarriedIn A.meaning factored.now }
    ensures { IfOk result (IsFoundIn A.meaning factored.now.over.now place) }
{
    let (task, factors) = (factored.over.task, factored.factors);
    let (alloc, sources) = (task.alloc, task.questions.sources(place));
    let (labels, tree) = factors.solve_with_tree(alloc, task.algebra, factored.by_head, sources)?;
    Ok(Searched {
        place,
        solved: Solved::Tree { labels, tree },
    })
}

/// Solves the question at a place on a factored graph: by what was solved ahead; else a pair by a
/// search, if that decides it soon, or by asking the factors.
fn solve_by_factors<A: PathAlgebra, R: Threads + Sync>(
    factored: &FactoredTask<'_, A, R>,
    pool: &mut Vec<PairSolver<A>>,
    asker: &mut RouteAsker,
    ahead: &mut Vec<Searched<A::Value>>,
    i: usize,
) -> Result<(), Memory>
    requires place { IsPlaceIn factored.now.over.now i }
    requires carried { IsCarriedIn A.meaning factored.now }
    requires pool { IsPoolIn factored.now.over.now pool.old.items }
    requires same { asker.old.factors ≡ factored.now.factors.now }
    requires ahead { AreFoundIn A.meaning factored.now.over.now ahead.old.items }
    ensures pool { IsPoolIn factored.now.over.now pool.new.items }
    ensures same { asker.new.factors ≡ asker.old.factors }
    ensures solved { SolvesNextIn A.meaning factored.now.over.now i ahead.new.items result }
{
    let (over, by_head) = (factored.over, factored.by_head);
    if advance(over, i, ahead) {
        return Ok(());
    }
    if over.task.questions.kind() != Kind::Pairs {
        let next = sweep(factored, i)?;
        return add_next(over, i, next, ahead);
    }
    if let Ok(Some(next)) = search_near(&PairTask { over, by_head }, i, pool) {
        return add_next(over, i, next, ahead);
    }
    ask_pair(factored, asker, i, ahead)
}

/// Seeks an order by which to factor the graph for what arcs cost, unless there is one, or the
/// graph was refused: what the order makes, if one is found. The more pairs are asked for, the more
/// time it may take. The only error is want of memory.
pub fn seek_order<A: PathAlgebra, R>(
    task: &Task<'_, A, R>,
    solver: &mut FactorSolver<A>,
) -> Result<Option<Counts>, Memory>
    ensures graph { solver.new.plain.graph ≡ solver.old.plain.graph }
    ensures found { IfOk result (IsSoughtBy solver.old) }
{
    let Some(cost) = task.algebra.cost() else {
        return Ok(None);
    };
    make_rows(task.alloc, &mut solver.plain)?;
    let care = care_for(solver.plain.graph.vertices(), task.questions);
    solver.seek_order(task.alloc, cost, care)
}

/// Factors the graph for what arcs cost under an algebra, unless it is so already, or was refused.
/// Without a cost there are no factors. The only error is want of memory.
pub fn factor<A: PathAlgebra>(
    alloc: Global,
    algebra: A,
    solver: &mut FactorSolver<A>,
) -> Result<(), Memory>
    ensures graph { solver.new.plain.graph ≡ solver.old.plain.graph }
    ensures searched { solver.new.plain.searched ≡ solver.old.plain.searched }
    ensures pool { solver.new.plain.pool ≡ solver.old.plain.pool }
    ensures order { IsSome solver.old.order → solver.new.order ≡ solver.old.order }
    ensures rows { OnOk result (IsSome solver.old.plain.by_head → IsSome solver.new.plain.by_head) }
    ensures made { OnOk result (IfSome solver.new.factored (λ f. IsSome solver.new.plain.by_head)) }
    ensures carried { OnOk result (IfSome solver.new.factored (λ f.
        IsCarried (A.meaning algebra) (cost_of f.factors.algebra.cost))) }
    ensures refused { OnOk result (IsNone solver.new.factored → IfSome solver.new.refused (λ r.
        IsCarried (A.meaning algebra) (cost_of r.0))) }
    ensures tried { OnOk result (IsSome (A.arc_cost algebra) → IsTried solver.new) }
{
    let Some(cost) = algebra.cost() else {
        solver.factored = None;
        solver.refused = None;
        return Ok(());
    };
    make_rows(alloc, &mut solver.plain)?;
    solver.factor(alloc, cost)
}

/// Before the first question: forgets what was solved, and factors the graph for what arcs cost.
pub fn start_factors<A: PathAlgebra, R>(
    task: &Task<'_, A, R>,
    solver: &mut FactorSolver<A>,
) -> Result<(), Memory>
    ensures graph { solver.new.plain.graph ≡ solver.old.plain.graph }
    ensures ready { OnOk result (IsFactorReady A.meaning task.now solver.new) }
    ensures factored { OnOk result (IsFactoredFor (A.meaning task.now.algebra) solver.new) }
    ensures order { IsSome solver.old.order → solver.new.order ≡ solver.old.order }
    ensures tried { OnOk result (IsSome (A.arc_cost task.now.algebra) → IsTried solver.new) }
{
    start_plain(task, &mut solver.plain)?;
    factor(task.alloc, task.algebra, solver)
}

/// Solves the question at a place: by the factors, or plainly, if there are none. Its solution is
/// the next one then.
fn solve_factored<A: PathAlgebra, R: Threads + Sync>(
    task: &Task<'_, A, R>,
    solver: &mut FactorSolver<A>,
    i: usize,
) -> Result<(), Memory>
    requires place { HasPlace task.now.questions.now i }
    requires within { AreQuestionsOf solver.old.plain.graph.vertices task.now.questions.now }
    requires ready { IsFactorReady A.meaning task.now solver.old }
    ensures after { IsFactorAfter A.meaning task.now solver.old solver.new }
    ensures next { OnOk result (IsNext (A.meaning task.now.algebra) solver.old.plain.graph
        (asked_of task.now.questions.now) i solver.new.plain.searched.items) }
{
    let Some(factored) = solver.factored.take() else {
        return solve_plainly(task, &mut solver.plain, i);
    };
    let Factored { factors, mut asker } = factored;
    let plain = &mut solver.plain;
    let Some(by_head) = &plain.by_head else {
        unreachable!()
    };
    let graph = &plain.graph;
    let over = TaskOver { task, graph };
    let over_factors = FactoredTask {
        over: &over,
        by_head,
        factors: &factors,
    };
    let (pool, ahead) = (&mut plain.pool, &mut plain.searched);
    let solved = solve_by_factors(&over_factors, pool, &mut asker, ahead, i);
    solver.factored = Some(Factored { factors, asker });
    solved
}

/// Solves the question at a place: by the factors, or plainly, if there are none.
pub fn solve_next_by_factors<'s, A: PathAlgebra, R: Threads + Sync>(
    solver: &'s mut FactorSolver<A>,
    task: &Task<'_, A, R>,
    i: usize,
) -> Result<&'s Solved<A::Value>, Memory>
    requires place { HasPlace task.now.questions.now i }
    requires within { AreQuestionsOf solver.old.plain.graph.vertices task.now.questions.now }
    requires ready { IsFactorReady A.meaning task.now solver.old }
    ensures* after { sem 𝓛 (EndsFactors A.row A.Value.row A.PathAlgebra A.meaning task.now
        solver.entry) }
    ensures solved { IfOk result (λ s. IsSolvedFor (A.meaning task.now.algebra)
        solver.old.plain.graph (asked_of task.now.questions.now) i s.now) }
{
    solve_factored(task, solver, i)?;
    let solved = solution_of(solver.plain.searched.as_slice());
    Ok(solved)
}
