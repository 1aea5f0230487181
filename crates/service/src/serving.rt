//! Serves an input to its end.
ghost use Rattle.std.specs.Prelude.{◌≡◌, ◌≢◌, ℕ, ◌≤◌, ◌+◌, [], length, IfOk, OnOk, OnErr, Err};
ghost use Rattle.std.specs.Io.KnownBytes.{IsAtEnd, ReadConsumes};
ghost use Rattle.service.specs.Giving.{MayGiveOver};
ghost use Rattle.batch_settings.specs.Choice.{without_diffusions};
ghost use Rattle.batch_run.specs.Factored.{WasTried};
ghost use Rattle.batch_run.specs.Solvers.{graph_of, is_without_diffusions};
ghost use Rattle.service.specs.Fed.{Served, ServedPart, ServedSoFar, ServedUntilTooLong};
ghost use Rattle.service.specs.Reading.{ToldReads};

use crate::batch_answers::BatchAnswers;
use crate::feeding::Unfed;
use crate::read_watcher::ReadWatcher;
use crate::service::Service;
use batch_run::{Gate, Solver};
use path_algebra::PathAlgebra;
use std::sync::Wait;
use std::thread::Threads;
use text_lines::{ReadFailed, RoadRead, RoadWrite};

/// The bytes that are asked for at once.
const BUFFER: usize = 65_536;

/// Why a service ended before the end of its input.
#[derive(Clone, Copy, Debug, PartialEq, Eq)]
pub(crate) enum Stopped {
    /// A read failed.
    Read,
    /// A write or a flush failed.
    Write,
    /// A request, or a line outside any request, has too many bytes.
    TooLong,
}

/// Reads the next piece, and tells the watcher before. At each read nothing is left buffered in the
/// output.
fn read_piece<N: ReadWatcher>(
    input: &mut N::Reader,
    out: &N::Writer,
    watcher: &mut N,
    buffer: &mut [u8],
) -> Result<usize, ReadFailed>
    requires { (N.Writer.seen out.now).held ≡ [] }
    ensures told { N.may_become watcher.old (N.Reader.seen input.old) (N.Writer.seen out.now)
        watcher.new }
    ensures counted { (N.Reader.seen input.new).asked ≡ (N.Reader.seen input.old).asked + 1 }
    ensures bound { IfOk result (λ n. n ≤ length buffer.new) }
    ensures bytes { ReadConsumes (N.Reader.seen input.old).left (N.Reader.seen input.new).left
        result buffer.new }
    ensures sound { OnOk result ((N.Reader.seen input.new).failures ≡
        (N.Reader.seen input.old).failures) }
    ensures failed { OnErr result ((N.Reader.seen input.new).failures ≡
        (N.Reader.seen input.old).failures + 1) }
{
    watcher.before_read(input, out);
    input.read(buffer)
}

/// Replies to each request of an input, over the graph of the solver, as soon as it is whole. If
/// factors are to answer, the graph was factored before. The watcher is told at each read.
pub(crate) fn serve<A: PathAlgebra, R: Threads + Wait + Sync, T: Gate, N: ReadWatcher>(
    answers: &BatchAnswers<'_, A, R, T>,
    solver: &mut Solver<A>,
    input: &mut N::Reader,
    out: &mut N::Writer,
    watcher: &mut N,
) -> Result<(), Stopped>
    requires kind { is_without_diffusions solver.old ≡
        without_diffusions answers.now.run.now.settings.now }
    requires tried { WasTried (A.meaning answers.now.algebra)
        (A.arc_cost answers.now.algebra) solver.old }
    ensures served { OnOk result (Served (MayGiveOver A.meaning T.may_answer answers.now (graph_of
        solver.old)) (graph_of solver.old).vertices (N.Reader.seen input.old).left
        (N.Writer.seen out.old) (N.Writer.seen out.new)) }
    ensures read { let seen = N.Reader.seen in result ≡ Err Stopped.Read → ServedSoFar (MayGiveOver
        A.meaning T.may_answer answers.now (graph_of solver.old)) (graph_of solver.old).vertices
        (seen input.old).left (seen input.new).left (N.Writer.seen out.old) (N.Writer.seen out.new)
        × ((seen input.new).failures ≡ (seen input.old).failures + 1) }
    ensures write { result ≡ Err Stopped.Write → ServedPart (MayGiveOver A.meaning T.may_answer
        answers.now (graph_of solver.old)) (graph_of solver.old).vertices
        (N.Reader.seen input.old).left (N.Writer.seen out.old) (N.Writer.seen out.new) }
    ensures long { result ≡ Err Stopped.TooLong → ServedUntilTooLong (MayGiveOver A.meaning
        T.may_answer answers.now (graph_of solver.old)) (graph_of solver.old).vertices
        (N.Reader.seen input.old).left (N.Reader.seen input.new).left (N.Writer.seen out.old)
        (N.Writer.seen out.new) }
    ensures passed_on { result ≢ Err Stopped.Write → (N.Writer.seen out.new).held ≡ [] }
    ensures end { OnOk result (IsAtEnd (N.Reader.seen input.new).left) }
    ensures sound { result ≢ Err Stopped.Read → (N.Reader.seen input.new).failures ≡
        (N.Reader.seen input.old).failures }
    ensures told { ToldReads (MayGiveOver A.meaning T.may_answer answers.now (graph_of solver.old))
        (graph_of solver.old).vertices N.may_become watcher.old watcher.new
        (N.Reader.seen input.old) (N.Reader.seen input.new) (N.Writer.seen out.old) }
{
    match out.flush() {
        Ok(()) => {}
        Err(_) => return Err(Stopped::Write),
    }
    let mut service = Service::new(answers.run.alloc, solver.vertices());
    let mut buffer = [0u8; BUFFER];
    for _ in answers.run.rt.forever() {
        match read_piece(input, out, watcher, &mut buffer) {
            Err(_) => return Err(Stopped::Read),
            Ok(0) => match service.finish(answers, solver, out) {
                Ok(()) => return Ok(()),
                Err(_) => return Err(Stopped::Write),
            },
            Ok(n) => match service.feed(answers, solver, &buffer[..n], out) {
                Ok(()) => {}
                Err(Unfed::Write) => return Err(Stopped::Write),
                Err(Unfed::TooLong) => return Err(Stopped::TooLong),
            },
        }
    }
    unreachable!()
}
