//! How the questions of a batch are solved.
ghost use Rattle.std.specs.Prelude.{◌≡◌, true, is_some, IfErr, IfOk, IfSome, OnOk};
ghost use Rattle.std.specs.Borrow.{sem};
ghost use Rattle.road_graph.specs.GraphData.{IsGraph};
ghost use Rattle.road_files.specs.Asked.{AreQuestionsOf};
ghost use Rattle.batch_run.specs.Batches.{ReportedAccounts, StopsBatch, asked_in};
ghost use Rattle.batch_run.specs.Lending.{EndsBatch};
ghost use Rattle.question_solvers.specs.Questions.{HasPlace};
ghost use Rattle.question_solvers.specs.Solved.{IsSolvedFor};
ghost use Rattle.batch_run.specs.Factored.{IsFactoringOf, WasTried, is_by_factors};
ghost use Rattle.batch_run.specs.Solvers.{IsReady, IsSameSolver, graph_of, is_without_diffusions};

mod diffusion;
mod group;
mod merge;
mod pace;
mod queue;
mod schedule;
mod upcoming;
mod workers;

use crate::batch::Batch;
use crate::solve::workers::{solve_next_by_workers, start_workers};
use crate::watcher::Watcher;
use path_algebra::PathAlgebra;
use question_solvers::{
    FactorSolver, Factoring, PlainSolver, Solved, solve_next_by_factors, solve_next_plainly,
    start_factors, start_plain,
};
use road_graph::Memory;
pub(crate) use schedule::count_diffusions;
use std::sync::Wait;
use std::thread::Threads;
use worker_fleet::{Gate, GroupFault};
pub use workers::WorkerSolver;

/// What solves the questions of a batch, one after the other: a pair to its answer, another to best
/// labels and their tree, or to the text of its answer.
///
/// It is an enum and no trait: the method of an `impl` can't call what sends a value of a type
/// parameter to a thread.
#[derive(Drop)]
pub enum Solver<A: PathAlgebra> {
    Plain(PlainSolver<A>),
    Factors(FactorSolver<A>),
    Workers(WorkerSolver<A::Value>),
}

impl<A: PathAlgebra> Solver<A> {
    /// Whether it solves without diffusions.
    pub(crate) fn is_without_diffusions(&self) -> bool
        ensures { result ≡ is_without_diffusions self.now }
    {
        match self {
            Solver::Plain(_) | Solver::Factors(_) => true,
            Solver::Workers(_) => false,
        }
    }

    /// How many vertices the graph has.
    pub fn vertices(&self) -> u32
        ensures count { result ≡ (graph_of self.now).vertices }
        ensures graph { IsGraph (graph_of self.now) }
    {
        match self {
            Solver::Plain(solver) => solver.vertices(),
            Solver::Factors(solver) => solver.vertices(),
            Solver::Workers(solver) => {
                solver.graph.holds();
                solver.graph.vertices()
            }
        }
    }

    /// What became of factoring the graph, if factors are to answer.
    pub(crate) fn factoring(&self) -> Option<Factoring>
        ensures some { is_some result ≡ is_by_factors self.now }
        ensures is_true { IfSome result (IsFactoringOf self.now) }
    {
        match self {
            Solver::Plain(_) | Solver::Workers(_) => None,
            Solver::Factors(solver) => Some(solver.factoring()),
        }
    }
}

/// Makes a solver ready for the first question of a batch. The only error is want of memory.
pub(crate) fn start<A: PathAlgebra, R, T>(
    batch: &Batch<'_, A, R, T>,
    solver: &mut Solver<A>,
) -> Result<(), Memory>
    ensures same { IsSameSolver solver.old solver.new }
    ensures kind { is_by_factors solver.new ≡ is_by_factors solver.old }
    ensures ready { OnOk result (IsReady A.meaning batch.now 0 solver.new) }
    ensures tried { OnOk result (WasTried (A.meaning batch.now.task.algebra)
        (A.arc_cost batch.now.task.algebra) solver.new) }
{
    match solver {
        Solver::Plain(solver) => start_plain(&batch.task, solver),
        Solver::Factors(solver) => start_factors(&batch.task, solver),
        Solver::Workers(solver) => start_workers(batch, solver),
    }
}

/// Solves the question at a place, the next one. Each diffusion is reported.
pub(crate) fn solve_next<'s, A: PathAlgebra, R: Threads + Wait + Sync, T: Gate, O: Watcher>(
    solver: &'s mut Solver<A>,
    batch: &Batch<'_, A, R, T>,
    i: usize,
    watcher: &mut O,
) -> Result<&'s Solved<A::Value>, GroupFault>
    requires place { HasPlace batch.now.task.questions.now i }
    requires within { AreQuestionsOf (graph_of solver.old).vertices batch.now.task.questions.now }
    requires ready { IsReady A.meaning batch.now i solver.old }
    ensures* after { sem 𝓛 (EndsBatch A.row A.Value.row A.PathAlgebra A.meaning batch.now i
        solver.entry result) }
    ensures solved { IfOk result (λ s. IsSolvedFor (A.meaning batch.now.task.algebra)
        (graph_of solver.old) (asked_in batch.now) i s.now) }
    ensures undiffused { is_without_diffusions solver.old ≡ true → IfErr result (λ f.
        f ≡ GroupFault.Memory) }
    ensures stops { IfErr result (StopsBatch A.meaning T.may_answer batch.now (graph_of
        solver.old)) }
    ensures reported { ReportedAccounts A.meaning batch.now (graph_of solver.old)
        (is_without_diffusions solver.old) i O.may_become watcher.old watcher.new result }
{
    match solver {
        Solver::Plain(solver) => match solve_next_plainly(solver, &batch.task, i) {
            Ok(solved) => Ok(solved),
            Err(_) => Err(GroupFault::Memory),
        },
        Solver::Factors(solver) => match solve_next_by_factors(solver, &batch.task, i) {
            Ok(solved) => Ok(solved),
            Err(_) => Err(GroupFault::Memory),
        },
        Solver::Workers(solver) => solve_next_by_workers(solver, batch, i, watcher),
    }
}
