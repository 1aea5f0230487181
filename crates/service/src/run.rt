//! Runs a service from bytes to bytes.
ghost use Rattle.std.specs.Prelude.{◌≡◌, ◌≢◌, ◌≤◌, true, Ok, Err, IfOk, IfErr, OnOk, OnErr};
ghost use Rattle.std.specs.Option.{option_map};
ghost use Rattle.graph_text.specs.GraphFiles.{gr_rules};
ghost use Rattle.road_files.specs.Asked.{Asked};
ghost use Rattle.batch_run.specs.Causes.{number_of};
ghost use Rattle.batch_settings.specs.Choice.{without_diffusions};
ghost use Rattle.batch_run.specs.Factored.{WasTried, is_by_factors};
ghost use Rattle.batch_inputs.specs.Orders.{HasReadOrdered, IsOrderedFile, IsRunFile};
ghost use Rattle.batch_inputs.specs.Spelled.{IsReadAs};
ghost use Rattle.batch_inputs.specs.InputFaults.{IsNumberOf};
ghost use Rattle.batch_run.specs.Solvers.{IsSameSolver, graph_of, is_without_diffusions};
ghost use Rattle.batch_run.specs.Unsuited.{IsRefusedUnsuited};
ghost use Rattle.service.specs.Giving.{MayGiveOver};
ghost use Rattle.service.specs.GraphInput.{HasReadGraphOrdered, IsGraphFile};
ghost use Rattle.service.specs.Over.{RanOver, fault_of_stop};
ghost use Rattle.service.specs.Reading.{ToldOfService, ToldReads};
ghost use Rattle.service.specs.Served.{RanService};

use crate::batch_answers::BatchAnswers;
use crate::graph_input::GraphInput;
use crate::read_watcher::{NoReadWatcher, ReadWatcher};
use crate::serving::{Stopped, serve};
use batch_run::{
    BatchInput, Cause, File, Gate, OrderedInput, Run, RunFault, SETTINGS, Solver, WRITE, fault_in,
    fault_of_run, read_batch,
};
use path_algebra::PathAlgebra;
use question_solvers::factor;
use std::marker::PhantomData;
use std::sync::Wait;
use std::thread::Threads;
use text_lines::{READ_FAILED, ReadFault, RoadRead, RoadWrite, TOO_LONG};

/// A fault of the input of requests, in no line.
fn fault_of_requests(number: u8) -> RunFault
    ensures { result ≡ record { number = number; file = File.Questions; line = 0 } }
{
    fault_in(File::Questions, ReadFault { number, line: 0 })
}

/// Reads a batch, and then an order if there is one, and makes the solver that the settings choose.
fn read_ordered<A: PathAlgebra, I: BatchInput, O: RoadRead, R, T>(
    run: &Run<'_, R, T>,
    input: &mut I,
    order: &mut Option<O>,
) -> Result<Solver<A>, RunFault>
    ensures kind { IfOk result (λ s. is_without_diffusions s ≡ without_diffusions run.now.settings.now) }
    ensures factors { IfOk result (λ s. is_by_factors s ≡ run.now.settings.now.factors) }
    ensures graph { IfOk result (λ s. (asked : Asked) × I.is_read input.old (graph_of s) asked) }
    ensures read { OnOk result (HasReadOrdered (I.is_read input.old) I.is_own IsRunFile
        (I.has_read input.old input.new) (option_map O.seen order.old) (option_map O.seen order.new)
        (Ok tt)) }
    ensures fault { IfErr result (λ f. HasReadOrdered (I.is_read input.old) I.is_own IsRunFile
        (I.has_read input.old input.new) (option_map O.seen order.old) (option_map O.seen order.new)
        (Err f)) }
    ensures kinds { IfErr result (λ f. IsOrderedFile I.is_own f.file × IsNumberOf f.file f.number) }
    ensures named { IfErr result (λ f. f.file ≢ File.NoFile) }
    ensures placed { IfErr result (λ f. f.number ≤ 3 → f.line ≡ 0) }
{
    let mut ordered = OrderedInput { input, order };
    match read_batch(run, &mut ordered) {
        Ok((solver, _)) => Ok(solver),
        Err(fault) => Err(fault),
    }
}

/// Reads a graph, and its order if there is one, and makes the solver that the settings choose.
fn read_solver<A: PathAlgebra, I: RoadRead, R, T>(
    run: &Run<'_, R, T>,
    graph: &mut I,
    order: &mut Option<I>,
) -> Result<Solver<A>, RunFault>
    ensures kind { IfOk result (λ s. is_without_diffusions s ≡ without_diffusions run.now.settings.now) }
    ensures factors { IfOk result (λ s. is_by_factors s ≡ run.now.settings.now.factors) }
    ensures graph { IfOk result (λ s. IsReadAs gr_rules (I.seen graph.old).left (graph_of s)) }
    ensures read { OnOk result (HasReadGraphOrdered (I.seen graph.old) (I.seen graph.new)
        (option_map I.seen order.old) (option_map I.seen order.new) (Ok tt)) }
    ensures fault { IfErr result (λ f. HasReadGraphOrdered (I.seen graph.old) (I.seen graph.new)
        (option_map I.seen order.old) (option_map I.seen order.new) (Err f)) }
    ensures kinds { IfErr result (λ f. IsOrderedFile IsGraphFile f.file ×
        IsNumberOf f.file f.number) }
    ensures placed { IfErr result (λ f. f.number ≤ 3 → f.line ≡ 0) }
{
    let mut input = GraphInput { graph };
    read_ordered(run, &mut input, order)
}

/// Factors the graph of a solver that answers by factors. The only error is want of memory.
fn factor_graph<A: PathAlgebra, R, T>(
    run: &Run<'_, R, T>,
    algebra: A,
    solver: &mut Solver<A>,
) -> Result<(), Cause>
    ensures same { IsSameSolver solver.old solver.new }
    ensures tried { OnOk result (WasTried (A.meaning algebra) (A.arc_cost algebra) solver.new) }
    ensures memory { IfErr result (λ cause. number_of cause ≡ 3) }
    ensures chosen { OnErr result (is_by_factors solver.old ≡ true) }
{
    let Solver::Factors(by_factors) = solver else {
        return Ok(());
    };
    factor(run.alloc, algebra, by_factors)?;
    Ok(())
}

/// The fault that reports why serving stopped.
fn fault_of_stop(stop: Stopped) -> RunFault
    ensures { result ≡ fault_of_stop stop }
{
    match stop {
        Stopped::Read => fault_of_requests(READ_FAILED),
        Stopped::TooLong => fault_of_requests(TOO_LONG),
        Stopped::Write => fault_of_run(WRITE),
    }
}

/// Replies to each request of an input over the graph of a solver, which is factored first if
/// factors are to answer. The watcher is told at each read.
fn serve_over<A: PathAlgebra, R: Threads + Wait + Sync, T: Gate, N: ReadWatcher>(
    answers: &BatchAnswers<'_, A, R, T>,
    solver: &mut Solver<A>,
    requests: &mut N::Reader,
    out: &mut N::Writer,
    watcher: &mut N,
) -> Result<(), RunFault>
    requires kind { is_without_diffusions solver.old ≡
        without_diffusions answers.now.run.now.settings.now }
    requires factors { is_by_factors solver.old ≡ answers.now.run.now.settings.now.factors }
    ensures ran { RanOver (A.meaning answers.now.algebra) answers.now.run.now.settings.now
        (T.may_answer answers.now.run.now.gate.now) (graph_of solver.old)
        (N.Reader.seen requests.old) (N.Reader.seen requests.new) (N.Writer.seen out.old)
        (N.Writer.seen out.new) result }
    ensures told { ToldReads (MayGiveOver A.meaning T.may_answer answers.now (graph_of solver.old))
        (graph_of solver.old).vertices N.may_become watcher.old watcher.new
        (N.Reader.seen requests.old) (N.Reader.seen requests.new) (N.Writer.seen out.old) }
{
    factor_graph(answers.run, answers.algebra, solver)?;
    match serve(answers, solver, requests, out, watcher) {
        Ok(()) => Ok(()),
        Err(stop) => Err(fault_of_stop(stop)),
    }
}

/// Reads a graph from one input, and its order of elimination from another, if there is one, and
/// replies to each request of a further input as soon as it is whole.
///
/// A request is a question text: a problem line and its lines. The reply is the text of its
/// answers, as a batch writes it. The output is then flushed, before any further byte is waited
/// for. A fault of a request ends its reply with a line `f NUMBER LINE`, LINE counted through the
/// whole input, and the service goes on with the next problem line. A fault of the run (3, 40, 41)
/// does the same, with LINE 0.
///
/// The settings are tested first (43), and if they choose factors, whether the algebra has a cost
/// (43 too). Then the graph is read, and the order, and the graph is factored, if they choose that:
/// by the order, or else by one that is found. A fault of the graph or of the order, or want of
/// memory while the graph is factored (3, of no input), is reported before any request is read.
/// The service ends at the end of the input, after a failed read (1), at a request with more than
/// 2^32 bytes (2), or after a failed write or flush (42).
pub fn run_service<A: PathAlgebra, I: RoadRead, W: RoadWrite, R: Threads + Wait + Sync, T: Gate>(
    run: &Run<'_, R, T>,
    algebra: A,
    graph: &mut I,
    order: &mut Option<I>,
    requests: &mut I,
    out: &mut W,
) -> Result<(), RunFault>
    ensures ran { RanService (A.meaning algebra) run.now.settings.now
        (T.may_answer run.now.gate.now) (I.seen graph.old) (I.seen graph.new)
        (option_map I.seen order.old) (option_map I.seen order.new) (I.seen requests.old)
        (I.seen requests.new) (W.seen out.old) (W.seen out.new) result }
    ensures suited { IsRefusedUnsuited (A.arc_cost algebra) run.now.settings.now result }
{
    let mut nobody = NoReadWatcher { of: PhantomData };
    run_service_watched(run, algebra, graph, order, requests, out, &mut nobody)
}

/// Does what `run_service` does, and tells a watcher at each read of the requests, before it: just
/// the requests that the bytes read so far make whole have been replied to then, and nothing is
/// left buffered in the output.
pub fn run_service_watched<A: PathAlgebra, R: Threads + Wait + Sync, T: Gate, N: ReadWatcher>(
    run: &Run<'_, R, T>,
    algebra: A,
    graph: &mut N::Reader,
    order: &mut Option<N::Reader>,
    requests: &mut N::Reader,
    out: &mut N::Writer,
    watcher: &mut N,
) -> Result<(), RunFault>
    ensures ran { let seen = N.Reader.seen in RanService (A.meaning algebra) run.now.settings.now
        (T.may_answer run.now.gate.now) (seen graph.old) (seen graph.new) (option_map seen
        order.old) (option_map seen order.new) (seen requests.old) (seen requests.new)
        (N.Writer.seen out.old) (N.Writer.seen out.new) result }
    ensures suited { IsRefusedUnsuited (A.arc_cost algebra) run.now.settings.now result }
    ensures told { let seen = N.Reader.seen in ToldOfService (A.meaning algebra)
        run.now.settings.now (T.may_answer run.now.gate.now) N.may_become watcher.old watcher.new
        (seen graph.old) (seen requests.old) (seen requests.new) (N.Writer.seen out.old) }
{
    if !run.settings.suit(algebra) {
        return Err(fault_of_run(SETTINGS));
    }
    let answers = BatchAnswers { run, algebra };
    match read_solver(run, graph, order) {
        Ok(mut solver) => serve_over(&answers, &mut solver, requests, out, watcher),
        Err(fault) => Err(fault),
    }
}
