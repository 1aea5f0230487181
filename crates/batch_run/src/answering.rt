//! Answers all questions of a batch.
ghost use Rattle.std.specs.Prelude.{◌≡◌, ◌+◌, true, false, IfErr, IfNone, IfOk, IfSome, OnErr, OnOk};
ghost use Rattle.road_files.specs.Asked.{AreQuestionsOf, Question};
ghost use Rattle.batch_run.specs.Answered.{AnsweredAll, WroteNext};
ghost use Rattle.batch_run.specs.Batches.{IsAfter, MayStopBatch, ReportedBatch, asked_in, question_at};
ghost use Rattle.batch_run.specs.Factored.{IsSought, is_by_factors};
ghost use Rattle.batch_run.specs.Reports.{Reported, ReportedPrefix, accounts_due, question_due};
ghost use Rattle.batch_run.specs.Solvers.{IsReady, IsSameSolver, graph_of, is_without_diffusions};
ghost use Rattle.question_solvers.specs.Questions.{HasPlace};

use crate::batch::Batch;
use crate::begin::begin;
use crate::cause::Cause;
use crate::solve::{Solver, solve_next, start};
use crate::watcher::{Progress, Watcher};
use crate::write::answer_at;
use path_algebra::PathAlgebra;
use question_solvers::{Counts, Factoring, seek_order};
use road_graph::Memory;
use std::sync::Wait;
use std::thread::Threads;
use text_lines::RoadWrite;
use worker_fleet::Gate;

/// Answers the question at a place: solves it, writes its answer and reports that it is answered.
fn answer_next<A: PathAlgebra, W: RoadWrite, R: Threads + Wait + Sync, T: Gate, O: Watcher>(
    batch: &Batch<'_, A, R, T>,
    solver: &mut Solver<A>,
    i: usize,
    out: &mut W,
    watcher: &mut O,
) -> Result<(), Cause>
    requires place { HasPlace batch.now.task.questions.now i }
    requires within { AreQuestionsOf (graph_of solver.old).vertices batch.now.task.questions.now }
    requires ready { IsReady A.meaning batch.now i solver.old }
    ensures after { IsAfter A.meaning batch.now i solver.old solver.new result }
    ensures wrote { (default : Question) → WroteNext (A.meaning batch.now.task.algebra)
        (graph_of solver.old) (question_at batch.now i default) (W.seen out.old) (W.seen out.new)
        result }
    ensures kind { IfErr result (MayStopBatch A.meaning T.may_answer batch.now solver.old) }
    ensures reported { OnOk result ((default : Question) → Reported (A.meaning batch.now.task.algebra)
        batch.now.settings.now (graph_of solver.old) O.may_become (question_due
        (is_without_diffusions solver.old) (i + 1) (question_at batch.now i default)) watcher.old
        watcher.new) }
    ensures unreported { OnErr result ((default : Question) →
        ReportedPrefix (A.meaning batch.now.task.algebra) batch.now.settings.now (graph_of solver.old)
        O.may_become (accounts_due (is_without_diffusions solver.old) (i + 1)
        (question_at batch.now i default)) watcher.old watcher.new) }
{
    let n = solver.vertices();
    let solved = solve_next(solver, batch, i, watcher)?;
    answer_at(batch, n, i, solved, out)?;
    let questions = (i + 1) as u32;
    watcher.report(Progress::Answered { questions });
    Ok(())
}

/// Seeks an order of elimination, if factors are to answer and there is none yet: what it counted,
/// if one is found. The only error is want of memory.
fn seek<A: PathAlgebra, R, T>(
    batch: &Batch<'_, A, R, T>,
    solver: &mut Solver<A>,
) -> Result<Option<Counts>, Memory>
    ensures same { IsSameSolver solver.old solver.new }
    ensures kind { is_by_factors solver.new ≡ is_by_factors solver.old }
    ensures found { IfOk result (IsSought solver.old) }
{
    match solver {
        Solver::Plain(_) | Solver::Workers(_) => Ok(None),
        Solver::Factors(solver) => seek_order(&batch.task, solver),
    }
}

/// Reports what an order of elimination counted, if one was found.
fn report_order<O: Watcher>(found: Option<Counts>, watcher: &mut O)
    ensures some { IfSome found (λ c. O.may_become watcher.old (Progress.Ordered c) watcher.new) }
    ensures none { IfNone found (watcher.new ≡ watcher.old) }
{
    if let Some(counts) = found {
        watcher.report(Progress::Ordered { counts });
    }
}

/// Reports what became of factoring the graph, if factors are to answer.
fn report_factoring<O: Watcher>(became: Option<Factoring>, watcher: &mut O)
    ensures some { IfSome became (λ f. O.may_become watcher.old (Progress.Factored f) watcher.new) }
    ensures none { IfNone became (watcher.new ≡ watcher.old) }
{
    if let Some(became) = became {
        watcher.report(Progress::Factored { became });
    }
}

/// Answers all questions in order, writes the answers, and stops at the first fault. Nothing is
/// flushed.
pub fn answer_all<A: PathAlgebra, W: RoadWrite, R: Threads + Wait + Sync, T: Gate, O: Watcher>(
    batch: &Batch<'_, A, R, T>,
    solver: &mut Solver<A>,
    out: &mut W,
    watcher: &mut O,
) -> Result<(), Cause>
    requires within { AreQuestionsOf (graph_of solver.old).vertices batch.now.task.questions.now }
    ensures same { IsSameSolver solver.old solver.new }
    ensures answered { AnsweredAll (A.meaning batch.now.task.algebra) (graph_of solver.old)
        (asked_in batch.now) (MayStopBatch A.meaning T.may_answer batch.now solver.old)
        (W.seen out.old) (W.seen out.new) result }
    ensures all { OnOk result (ReportedBatch A.meaning A.arc_cost batch.now solver.old O.may_become
        watcher.old watcher.new (W.seen out.old) (W.seen out.new) true) }
    ensures reported { ReportedBatch A.meaning A.arc_cost batch.now solver.old O.may_become
        watcher.old watcher.new (W.seen out.old) (W.seen out.new) false }
{
    let undiffused = solver.is_without_diffusions();
    begin(&batch.task, undiffused, out, watcher)?;
    let found = seek(batch, solver)?;
    report_order(found, watcher);
    start(batch, solver)?;
    report_factoring(solver.factoring(), watcher);
    for i in 0..batch.task.questions.len() {
        answer_next(batch, solver, i, out, watcher)?;
    }
    Ok(())
}
