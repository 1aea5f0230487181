//! Runs a batch from its input to its output.
ghost use Rattle.std.specs.Prelude.{◌≡◌, ◌≢◌, ◌≤◌, Ok, Err, IfOk, IfErr, OnOk};
ghost use Rattle.road_files.specs.Asked.{AreQuestionsOf, asked_of};
ghost use Rattle.batch_run.specs.Reports.{Watched};
ghost use Rattle.batch_run.specs.Runs.{Ran};
ghost use Rattle.batch_run.specs.Stopping.{Stopped};
ghost use Rattle.batch_inputs.specs.InputFaults.{IsNumberOf};
ghost use Rattle.batch_run.specs.Factored.{IsChosen, OfOrder};
ghost use Rattle.batch_run.specs.Solvers.{graph_of};
ghost use Rattle.batch_run.specs.Unsuited.{IsRefusedUnsuited};

use crate::batch::{Batch, Run};
use crate::flush::answer_and_flush;
use crate::solve::{Solver, WorkerSolver};
use crate::watcher::Watcher;
use batch_inputs::{BatchInput, BatchRead, File, RunFault, SETTINGS, fault_of_run};
use batch_settings::SolverKind;
use path_algebra::PathAlgebra;
use question_solvers::{FactorSolver, PlainSolver, Task};
use road_files::Questions;
use road_graph::{Graph, OutGraph};
use std::sync::Wait;
use std::thread::Threads;
use text_lines::RoadWrite;
use worker_fleet::{Gate, one_shard_never_stalls};

/// Reads the graph and the questions of a batch, and makes the solver that the settings choose. If
/// an order is read too, factors are by it.
pub fn read_batch<A: PathAlgebra, I: BatchInput, R, T>(
    run: &Run<'_, R, T>,
    input: &mut I,
) -> Result<(Solver<A>, Questions), RunFault>
    ensures chosen { IfOk result (λ r. IsChosen run.now.settings.now r.0) }
    ensures read { IfOk result (λ r. I.is_read input.old (graph_of r.0) (asked_of r.1)) }
    ensures within { IfOk result (λ r. AreQuestionsOf (graph_of r.0).vertices r.1) }
    ensures ordered { IfOk result (λ r. OfOrder r.0 (I.spells_order input.old
        (graph_of r.0).vertices)) }
    ensures done { OnOk result (I.has_read input.old input.new (Ok tt)) }
    ensures fault { IfErr result (λ f. I.has_read input.old input.new (Err f)) }
    ensures kinds { IfErr result (λ f. I.is_own f.file × IsNumberOf f.file f.number) }
    ensures named { IfErr result (λ f. f.file ≢ File.NoFile) }
    ensures placed { IfErr result (λ f. f.number ≤ 3 → f.line ≡ 0) }
{
    let alloc = run.alloc;
    match run.settings.solver() {
        SolverKind::Plain => {
            let read: BatchRead<OutGraph> = input.read(alloc)?;
            let solver = PlainSolver::new(alloc, read.graph);
            Ok((Solver::Plain(solver), read.questions))
        }
        SolverKind::Factors => {
            let read: BatchRead<OutGraph> = input.read(alloc)?;
            let solver = FactorSolver::new(alloc, read.graph, read.order);
            Ok((Solver::Factors(solver), read.questions))
        }
        SolverKind::Workers => {
            let read: BatchRead<Graph> = input.read(alloc)?;
            let solver = WorkerSolver::new(alloc, read.graph);
            Ok((Solver::Workers(solver), read.questions))
        }
    }
}

/// Answers the questions of an input over its graph, writes the answers, and reports to a watcher
/// as it goes: that the questions were read; with `factors`, what became of factoring the graph;
/// each diffusion that was gathered, with its counts; and each question that was answered. With
/// `plain` or `factors` there are no diffusions. Before a fault of an input nothing is reported.
///
/// The settings are tested first (43), and if they choose factors, whether the algebra has a cost
/// (43 too); then the graph is read and then the questions, and at last an order of elimination, if
/// there is one; and then each question is answered and written, in order; then the output is
/// flushed. The first fault in this order is reported.
/// After a fault of an input nothing has been written; after a later one (3, 40 to 42) a prefix of
/// the answers' text has.
///
/// Questions are run in groups of `width` diffusions, each over its own shards, by workers on
/// threads: of n workers, worker w turns the station of shard k of diffusion q if k is w modulo n,
/// or, dealt by questions, if q + k is. With `plain` the one-thread solver answers each question,
/// one that was solved just before without a new search, and a pair goes on with the search from
/// its source; `width` searches go side by side on all processors. With `factors` the graph is
/// factored when the header is written, by the order that was read or else by one that is found,
/// and its factors answer: pairs in `width` chunks side by side, other questions one after the
/// other. With either no worker is started, the gate is not asked, and the graph is kept with its
/// arcs by tail alone; for pairs and factors by head too.
///
/// With one shard, best first, no worker reaches a limit of turns (40) that is enough for the arcs
/// of the graph (`usual_turns_are_enough`).
pub fn run_batch<
    A: PathAlgebra,
    I: BatchInput,
    W: RoadWrite,
    R: Threads + Wait + Sync,
    T: Gate,
    O: Watcher,
>(
    run: &Run<'_, R, T>,
    algebra: A,
    input: &mut I,
    out: &mut W,
    watcher: &mut O,
) -> Result<(), RunFault>
    ensures ran { Ran (A.meaning algebra) run.now.settings.now (T.may_answer run.now.gate.now)
        (I.is_read input.old) I.is_own (W.seen out.old) (W.seen out.new) result }
    ensures suited { IsRefusedUnsuited (A.arc_cost algebra) run.now.settings.now result }
    ensures read { I.has_read input.old input.new result }
    ensures stopped { Stopped A.meaning algebra run.now.settings.now
        (T.may_answer run.now.gate.now) (I.is_read input.old) result }
    ensures watched { Watched (A.meaning algebra) run.now.settings.now (I.is_read input.old)
        O.may_become watcher.old watcher.new (W.seen out.old) (W.seen out.new)
        result }
{
    if !run.settings.suit(algebra) {
        return Err(fault_of_run(SETTINGS));
    }
    one_shard_never_stalls(algebra, run.gate);
    let (mut solver, questions) = match read_batch(run, input) {
        Ok(read) => read,
        Err(fault) => return Err(fault),
    };
    let (settings, gate) = (run.settings, run.gate);
    let task = Task {
        rt: run.rt,
        alloc: run.alloc,
        algebra,
        questions: &questions,
        width: settings.width as usize,
    };
    let batch = Batch {
        task,
        settings,
        gate,
    };
    answer_and_flush(&batch, &mut solver, out, watcher)?;
    Ok(())
}
