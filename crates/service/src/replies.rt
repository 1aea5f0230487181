//! Writes the replies to requests, and flushes the output after each.
ghost use Rattle.std.specs.Prelude.{◌≡◌, ℕ, [], List, map, OnOk};
ghost use Rattle.text_lines.specs.Rules.{at_line, fault_at};
ghost use Rattle.text_lines.specs.Written.{WritesText};
ghost use Rattle.road_files.specs.Asked.{asked_of, AreQuestionsOf};
ghost use Rattle.road_files.specs.RequestTakes.{EndFits, ended_list, ended_of};
ghost use Rattle.service.specs.Giving.{MayGive};
ghost use Rattle.batch_run.specs.Solvers.{IsSameSolver, graph_of};
ghost use Rattle.service.specs.Replies.{held_line, reported_line, RepliedOrFell};

use crate::batch_answers::BatchAnswers;
use crate::fault_lines::send_fault;
use batch_run::{Gate, Solver};
use path_algebra::PathAlgebra;
use road_files::rules::TOO_FEW;
use road_files::{Ended, LineDone, Questions};
use std::sync::Wait;
use std::thread::Threads;
use text_lines::{MEMORY, RoadWrite, WriteFault};

/// Writes an answer, and flushes the output.
fn send_answer<A: PathAlgebra, R: Threads + Wait + Sync, T: Gate, W: RoadWrite>(
    answers: &BatchAnswers<'_, A, R, T>,
    solver: &mut Solver<A>,
    questions: &Questions,
    out: &mut W,
) -> Result<(), WriteFault>
    requires { AreQuestionsOf (graph_of solver.old).vertices questions.now }
    ensures wrote { (text : List ℕ) × MayGive A.meaning T.may_answer answers.now solver.old
        (asked_of questions.now) text × WritesText (W.seen out.old) (W.seen out.new) text result }
    ensures same { IsSameSolver solver.old solver.new }
    ensures passed_on { OnOk result ((W.seen out.new).held ≡ []) }
{
    answers.answer(solver, questions, out)?;
    out.flush()
}

/// The line that is reported with a fault: 0 if memory ran out.
fn reported_line(number: u8, line: u64) -> u64
    ensures { (at : ℕ) → line ≡ held_line at → result ≡ reported_line (fault_at at number) }
{
    if number == MEMORY {
        return 0;
    }
    line
}

/// Replies to a request that has ended with this line.
fn send_end<A: PathAlgebra, R: Threads + Wait + Sync, T: Gate, W: RoadWrite>(
    answers: &BatchAnswers<'_, A, R, T>,
    solver: &mut Solver<A>,
    ended: Option<Ended>,
    line: u64,
    out: &mut W,
) -> Result<(), WriteFault>
    requires { EndFits (graph_of solver.old).vertices ended }
    ensures replied { (at : ℕ) → line ≡ held_line at → RepliedOrFell (MayGive A.meaning T.may_answer
        answers.now solver.old) (map (at_line at) (ended_list ended)) (W.seen out.old) (W.seen
        out.new) result }
    ensures same { IsSameSolver solver.old solver.new }
    ensures passed_on { OnOk result ((W.seen out.old).held ≡ [] → (W.seen out.new).held ≡ []) }
{
    match ended {
        None => Ok(()),
        Some(Ended::Fault(number)) => send_fault(out, number, reported_line(number, line)),
        Some(Ended::Asked(questions)) => send_answer(answers, solver, &questions, out),
    }
}

/// Replies to the requests that have ended with a line.
pub(crate) fn send_done<A: PathAlgebra, R: Threads + Wait + Sync, T: Gate, W: RoadWrite>(
    answers: &BatchAnswers<'_, A, R, T>,
    solver: &mut Solver<A>,
    done: LineDone,
    line: u64,
    out: &mut W,
) -> Result<(), WriteFault>
    requires { EndFits (graph_of solver.old).vertices done.ended }
    ensures replied { (at : ℕ) → line ≡ held_line at → RepliedOrFell (MayGive A.meaning T.may_answer
        answers.now solver.old) (map (at_line at) (ended_of done)) (W.seen out.old) (W.seen out.new)
        result }
    ensures same { IsSameSolver solver.old solver.new }
    ensures passed_on { OnOk result ((W.seen out.old).held ≡ [] → (W.seen out.new).held ≡ []) }
{
    if !done.early {
        return send_end(answers, solver, done.ended, line, out);
    }
    match send_fault(out, TOO_FEW.number, line) {
        Ok(()) => send_end(answers, solver, done.ended, line, out),
        Err(fault) => Err(fault),
    }
}
