//! Feeds bytes to a service, which replies to the requests in them.
ghost use Rattle.std.specs.Prelude.{◌≡◌, ◌≢◌, ℕ, ◌+◌, [], ◌++◌, List, min, OnOk, OnErr, Err, ◌≤◌};
ghost use Rattle.text_lines.specs.Cuts.{IsLine, IsPresent};
ghost use Rattle.road_files.specs.RequestTakes.{RequestSoFar, ended_of};
ghost use Rattle.service.specs.Giving.{MayGive};
ghost use Rattle.batch_run.specs.Solvers.{IsSameSolver, graph_of};
ghost use Rattle.service.specs.Fed.{held_line, WasFed, LineEnded, Fed, FedPart, FedLong, LastFed, LastFedPart, Finished, FinishedPart, goes_on, count_after};
ghost use Rattle.road_files.specs.ServiceText.{ServiceState};

use crate::batch_answers::BatchAnswers;
use crate::fault_lines::send_fault;
use crate::replies::send_done;
use crate::service::Service;
use batch_run::{Gate, Solver};
use path_algebra::PathAlgebra;
use road_files::rules::TOO_FEW;
use road_files::{LineDone, RequestParser};
use std::alloc::Global;
use std::sync::Wait;
use std::thread::Threads;
use text_lines::{LineCutter, MAX_BYTES, RoadWrite, WriteFault};

/// Why bytes were not taken.
#[derive(Clone, Copy, Debug, PartialEq, Eq)]
pub enum Unfed {
    /// A write or a flush failed.
    Write,
    /// A request, or a line outside any request, has too many bytes.
    TooLong,
}

/// The count after a line: 0 again if a request ended or none goes on.
fn count_after(done: &LineDone, goes: bool, count: u64) -> u64
    ensures value { (next : ServiceState) → goes ≡ goes_on next → result ≡ count_after
        (record { ended = ended_of done.now; next = next }) count }
    ensures bound { result ≤ count }
{
    if !goes || done.early || done.ended.is_some() {
        return 0;
    }
    count
}

impl Service {
    /// A service before its first byte, over a graph with this number of vertices.
    pub fn new(alloc: Global, vertices: u32) -> Self
        ensures taken { WasFed result [] [] }
        ensures vertices { result.cutter.taker.questions.list.vertices ≡ vertices }
    {
        Service {
            cutter: LineCutter::new(RequestParser::new(alloc, vertices)),
            line: 1,
            count: 0,
        }
    }

    /// Gives the line that has ended to its request, and replies to the requests that end with it.
    fn end_line<A: PathAlgebra, R: Threads + Wait + Sync, T: Gate, W: RoadWrite>(
        &mut self,
        answers: &BatchAnswers<'_, A, R, T>,
        solver: &mut Solver<A>,
        out: &mut W,
    ) -> Result<(), WriteFault>
        requires { self.old.cutter.taker.questions.list.vertices ≡ (graph_of solver.old).vertices }
        ensures ended { (at : ℕ) (line : List ℕ) → self.old.line ≡ held_line at → IsLine
            RequestSoFar self.old.cutter line → LineEnded (MayGive A.meaning T.may_answer
            answers.now solver.old) at line self.old self.new (W.seen out.old) (W.seen out.new)
            result }
        ensures ready { IsPresent RequestSoFar self.new.cutter [] }
        ensures line { self.new.line ≡ min (self.old.line + 1) 18446744073709551615 }
        ensures vertices { self.new.cutter.taker.questions.list.vertices ≡
            self.old.cutter.taker.questions.list.vertices }
        ensures same { IsSameSolver solver.old solver.new }
        ensures passed_on { OnOk result ((W.seen out.old).held ≡ [] → (W.seen out.new).held ≡ []) }
    {
        let done = self.cutter.taker.line(self.cutter.scanner.fields());
        self.cutter.restart();
        self.count = count_after(&done, self.cutter.taker.is_open(), self.count);
        let line = self.line;
        self.line = line.saturating_add(1);
        send_done(answers, solver, done, line, out)
    }

    /// Takes the next bytes, and replies, in order, to just those requests that the bytes so far
    /// make whole.
    pub fn feed<A: PathAlgebra, R: Threads + Wait + Sync, T: Gate, W: RoadWrite>(
        &mut self,
        answers: &BatchAnswers<'_, A, R, T>,
        solver: &mut Solver<A>,
        bytes: &[u8],
        out: &mut W,
    ) -> Result<(), Unfed>
        requires { self.old.cutter.taker.questions.list.vertices ≡ (graph_of solver.old).vertices }
        ensures fed { OnOk result (Fed (MayGive A.meaning T.may_answer answers.now solver.old)
            self.old self.new bytes.now (W.seen out.old) (W.seen out.new)) }
        ensures fell { result ≡ Err Unfed.Write → FedPart (MayGive A.meaning T.may_answer
            answers.now solver.old) self.old self.new bytes.now (W.seen out.old) (W.seen out.new) }
        ensures long { result ≡ Err Unfed.TooLong → FedLong (MayGive A.meaning T.may_answer
            answers.now solver.old) self.old self.new bytes.now (W.seen out.old) (W.seen out.new) }
        ensures same { IsSameSolver solver.old solver.new }
        ensures passed_on { result ≢ Err Unfed.Write → (W.seen out.old).held ≡ [] →
            (W.seen out.new).held ≡ [] }
        ensures vertices { self.new.cutter.taker.questions.list.vertices ≡
            self.old.cutter.taker.questions.list.vertices }
    {
        let mut at = 0;
        while at < bytes.len() {
            let room = (MAX_BYTES - self.count) as usize;
            if room == 0 {
                return Err(Unfed::TooLong);
            }
            let to = at + room.min(bytes.len() - at);
            let (taken, ended) = self.cutter.to_line_end(&bytes[at..to]);
            self.count += taken as u64;
            at += taken;
            if ended {
                match self.end_line(answers, solver, out) {
                    Ok(()) => {}
                    Err(_) => return Err(Unfed::Write),
                }
            }
        }
        Ok(())
    }

    /// Takes the end of the text, and the last line if it has no LF.
    fn end_lines<A: PathAlgebra, R: Threads + Wait + Sync, T: Gate, W: RoadWrite>(
        &mut self,
        answers: &BatchAnswers<'_, A, R, T>,
        solver: &mut Solver<A>,
        out: &mut W,
    ) -> Result<(), WriteFault>
        requires { self.old.cutter.taker.questions.list.vertices ≡ (graph_of solver.old).vertices }
        ensures fed { OnOk result (LastFed (MayGive A.meaning T.may_answer answers.now solver.old)
            self.old self.new (W.seen out.old) (W.seen out.new)) }
        ensures fell { OnErr result (LastFedPart (MayGive A.meaning T.may_answer answers.now
            solver.old) self.old self.new (W.seen out.old) (W.seen out.new)) }
        ensures same { IsSameSolver solver.old solver.new }
        ensures passed_on { OnOk result ((W.seen out.old).held ≡ [] → (W.seen out.new).held ≡ []) }
        ensures vertices { self.new.cutter.taker.questions.list.vertices ≡
            self.old.cutter.taker.questions.list.vertices }
    {
        if self.cutter.to_end() {
            return self.end_line(answers, solver, out);
        }
        Ok(())
    }

    /// Takes the end of the text, and replies to the requests that end with it: one that goes on
    /// has too few lines.
    pub fn finish<A: PathAlgebra, R: Threads + Wait + Sync, T: Gate, W: RoadWrite>(
        mut self,
        answers: &BatchAnswers<'_, A, R, T>,
        solver: &mut Solver<A>,
        out: &mut W,
    ) -> Result<(), WriteFault>
        requires { self.cutter.taker.questions.list.vertices ≡ (graph_of solver.old).vertices }
        ensures finished { OnOk result (Finished (MayGive A.meaning T.may_answer answers.now
            solver.old) self (W.seen out.old) (W.seen out.new)) }
        ensures fell { OnErr result (FinishedPart (MayGive A.meaning T.may_answer answers.now
            solver.old) self (W.seen out.old) (W.seen out.new)) }
        ensures same { IsSameSolver solver.old solver.new }
        ensures passed_on { OnOk result ((W.seen out.old).held ≡ [] → (W.seen out.new).held ≡ []) }
    {
        match self.end_lines(answers, solver, out) {
            Ok(()) => {}
            Err(fault) => return Err(fault),
        }
        if self.cutter.taker.is_open() {
            return send_fault(out, TOO_FEW.number, self.line);
        }
        Ok(())
    }
}
