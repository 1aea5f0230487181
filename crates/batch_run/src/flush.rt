//! Answers a batch and passes the answers on.
ghost use Rattle.std.specs.Prelude.{◌≡◌, ◌≢◌, ◌+◌, ◌≤◌, ◌<◌, ◌⊎◌, [], true, false, Ok, Err, OnOk, IfErr};
ghost use Rattle.std.specs.Io.KnownBytes.{Keeps};
ghost use Rattle.road_files.specs.Asked.{AreQuestionsOf};
ghost use Rattle.batch_run.specs.Answered.{IsPassedOn, PassedOnAll};
ghost use Rattle.batch_run.specs.Batches.{MayStopBatch, ReportedBatch, asked_in};
ghost use Rattle.batch_run.specs.Solvers.{graph_of};

use crate::answering::answer_all;
use crate::batch::Batch;
use crate::cause::Cause;
use crate::laws::answers_exist;
use crate::solve::Solver;
use crate::watcher::Watcher;
use answer_text::first_answers_begin_all;
use path_algebra::PathAlgebra;
use std::sync::Wait;
use std::thread::Threads;
use text_lines::RoadWrite;
use worker_fleet::Gate;

/// Passes on what was written, also after a fault that was no failed write: the first fault stays.
fn flush_all<W: RoadWrite>(out: &mut W, answered: Result<(), Cause>) -> Result<(), Cause>
    ensures bytes { Keeps (W.seen out.old).written (W.seen out.new).written }
    ensures passed_on { OnOk result ((answered ≡ Ok tt) × ((W.seen out.new).held ≡ [])) }
    ensures sound { OnOk result ((W.seen out.new).failures ≡ (W.seen out.old).failures) }
    ensures first { IfErr result (λ cause. (answered ≡ Err cause) ⊎ ((cause ≡ Cause.Write) ×
        (answered ≡ Ok tt) × ((W.seen out.old).failures < (W.seen out.new).failures))) }
    ensures more { (W.seen out.old).failures ≤ (W.seen out.new).failures }
    ensures once { (W.seen out.new).failures ≤ (W.seen out.old).failures + 1 }
    ensures flushed { IfErr result (λ cause. cause ≢ Cause.Write → IsPassedOn (W.seen out.new).held
        (W.seen out.old).failures (W.seen out.new).failures) }
{
    match answered {
        Ok(()) => out.flush()?,
        Err(Cause::Write) => {}
        Err(_) => {
            let _ = out.flush();
        }
    }
    answered
}

/// Answers all questions over the graph, and passes the answers on.
pub(crate) fn answer_and_flush<
    A: PathAlgebra,
    W: RoadWrite,
    R: Threads + Wait + Sync,
    T: Gate,
    O: Watcher,
>(
    batch: &Batch<'_, A, R, T>,
    solver: &mut Solver<A>,
    out: &mut W,
    watcher: &mut O,
) -> Result<(), Cause>
    requires within { AreQuestionsOf (graph_of solver.old).vertices batch.now.task.questions.now }
    ensures passed_on { PassedOnAll (A.meaning batch.now.task.algebra) (graph_of solver.old)
        (asked_in batch.now) (MayStopBatch A.meaning T.may_answer batch.now solver.old)
        (W.seen out.old) (W.seen out.new) result }
    ensures all { OnOk result (ReportedBatch A.meaning A.arc_cost batch.now solver.old O.may_become
        watcher.old watcher.new (W.seen out.old) (W.seen out.new) true) }
    ensures reported { ReportedBatch A.meaning A.arc_cost batch.now solver.old O.may_become
        watcher.old watcher.new (W.seen out.old) (W.seen out.new) false }
{
    // Laws for the proof: right answers exist, the first of them begin all, and a graph is one.
    answers_exist(batch.task.algebra);
    first_answers_begin_all(batch.task.algebra);
    let _ = solver.vertices();
    let answered = answer_all(batch, solver, out, watcher);
    flush_all(out, answered)
}
