//! Answers the questions of a service as a batch does.
ghost use Rattle.std.specs.Prelude.{ℕ, List};
ghost use Rattle.text_lines.specs.Written.{WritesText};
ghost use Rattle.road_files.specs.Asked.{AreQuestionsOf, asked_of};
ghost use Rattle.batch_settings.specs.InRange.{AreInRange};
ghost use Rattle.batch_run.specs.Solvers.{IsSameSolver, graph_of};
ghost use Rattle.service.specs.Answering.{MayAnswerBy};

use crate::fault_lines::write_fault;
use answer_text::first_answers_begin_all;
use batch_run::{Batch, Cause, Gate, Run, Solver, Task, Unwatched, answer_all, answers_exist};
use path_algebra::PathAlgebra;
use road_files::Questions;
use std::sync::Wait;
use std::thread::Threads;
use text_lines::{RoadWrite, WriteFault};
use worker_fleet::one_shard_never_stalls;

/// How questions are answered.
#[derive(Drop)]
pub(crate) struct BatchAnswers<'r, A: PathAlgebra, R, T> {
    pub(crate) run: &'r Run<'r, R, T>,
    pub(crate) algebra: A,
    ghost in_range: { AreInRange run.now.settings.now },
}

impl<A: PathAlgebra, R: Threads + Wait + Sync, T: Gate> BatchAnswers<'_, A, R, T> {
    /// Writes the right answers; or the first of them, fewer than all, and then the line of the
    /// fault that stopped the run.
    pub(crate) fn answer<W: RoadWrite>(
        &self,
        solver: &mut Solver<A>,
        questions: &Questions,
        out: &mut W,
    ) -> Result<(), WriteFault>
        requires { AreQuestionsOf (graph_of solver.old).vertices questions.now }
        ensures same { IsSameSolver solver.old solver.new }
        ensures wrote { (text : List ℕ) × MayAnswerBy (A.meaning self.now.algebra)
            self.now.run.now.settings.now (T.may_answer self.now.run.now.gate.now) solver.old
            (asked_of questions.now) text ×
            WritesText (W.seen out.old) (W.seen out.new) text result }
    {
        // Laws for the proof: right answers exist, the first of them begin all, one shard does not
        // stall, and a graph is one.
        answers_exist(self.algebra);
        first_answers_begin_all(self.algebra);
        one_shard_never_stalls(self.algebra, self.run.gate);
        let _ = solver.vertices();
        let (settings, gate) = (self.run.settings, self.run.gate);
        let task = Task {
            rt: self.run.rt,
            alloc: self.run.alloc,
            algebra: self.algebra,
            questions,
            width: settings.width as usize,
        };
        let batch = Batch {
            task,
            settings,
            gate,
        };
        match answer_all(&batch, solver, out, &mut Unwatched) {
            Ok(()) => Ok(()),
            Err(cause) => match cause {
                Cause::Write => Err(WriteFault),
                _ => write_fault(out, cause.number(), 0),
            },
        }
    }
}
