//! Answers a batch or a service under the algebra that was chosen, and says how it ends.
ghost use Rattle.std.specs.Prelude.{◌≡◌, Option, map};
ghost use Rattle.std.specs.Option.{option_map};
ghost use Rattle.path_algebra.specs.Choices.{OfChosen, Under, arc_cost_of};
ghost use Rattle.batch_inputs.specs.Orders.{HasReadOrdered, IsOrderedFile, IsRunFile};
ghost use Rattle.batch_run.specs.Reports.{Watched};
ghost use Rattle.batch_run.specs.Runs.{Ran};
ghost use Rattle.batch_run.specs.Stopping.{Stopped};
ghost use Rattle.batch_run.specs.Unsuited.{IsRefusedUnsuited};
ghost use Rattle.service.specs.Served.{RanService};
ghost use Rattle.command_files.specs.Moments.{moment};
ghost use Rattle.program.specs.Commands.{Answers};
ghost use Rattle.program.specs.Runs.{gate_is_open, given_of};
ghost use Rattle.program.specs.Watching.{EndsAccounts, outcome_of};

use crate::method::Method;
use crate::watch::{CommandWatcher, PATIENCE};
use batch_run::{
    BatchInput, OpenGate, OrderedInput, Run, RunFault, WRITE, Watcher, fault_of_run, run_batch,
    usual_turns_are_enough,
};
use command_args::WatchOptions;
use command_files::{Host, Streams, create_accounts, refuse, show_times};
use fault_reports::end_with;
use path_algebra::with_algebra;
use service::run_service;
use std::sync::Wait;
use std::thread::Threads;
use text_lines::{RoadRead, RoadWrite};

/// Answers the questions of an input over its graph, under the chosen algebra, before a watcher.
fn run_chosen<R: Threads + Wait + Sync, I: BatchInput, W: RoadWrite, O: Watcher>(
    method: &Method<'_, R>,
    input: &mut I,
    out: &mut W,
    watcher: &mut O,
) -> Result<(), RunFault>
    ensures run { Under method.now.chosen (λ V A. Ran A method.now.settings.now gate_is_open
        (I.is_read input.old) I.is_own (W.seen out.old) (W.seen out.new) result) }
    ensures suited { IsRefusedUnsuited (arc_cost_of method.now.chosen) method.now.settings.now
        result }
    ensures stopped { OfChosen method.now.chosen (λ S V meaning algebra. Stopped meaning algebra
        method.now.settings.now gate_is_open (I.is_read input.old) result) }
    ensures read { I.has_read input.old input.new result }
    ensures watched { Under method.now.chosen (λ V A. Watched A method.now.settings.now
        (I.is_read input.old) O.may_become watcher.old watcher.new (W.seen out.old)
        (W.seen out.new) result) }
{
    let gate = OpenGate;
    let run = Run {
        rt: method.rt,
        alloc: method.alloc,
        settings: method.settings,
        gate: &gate,
    };
    with_algebra!(
        method.chosen,
        |algebra| run_batch(&run, algebra, input, out, watcher)
    )
}

/// Replies to the requests of one input over the graph of another, to each as soon as it is whole,
/// under the chosen algebra. The graph is factored by the order of a third, if there is one.
pub(crate) fn serve_chosen<R: Threads + Wait + Sync, I: RoadRead, W: RoadWrite>(
    method: &Method<'_, R>,
    graph: &mut I,
    order: &mut Option<I>,
    requests: &mut I,
    out: &mut W,
) -> Result<(), RunFault>
    ensures run { Under method.now.chosen (λ V A. RanService A method.now.settings.now gate_is_open
        (I.seen graph.old) (I.seen graph.new) (option_map I.seen order.old)
        (option_map I.seen order.new) (I.seen requests.old) (I.seen requests.new) (W.seen out.old)
        (W.seen out.new) result) }
    ensures suited { IsRefusedUnsuited (arc_cost_of method.now.chosen) method.now.settings.now
        result }
{
    let gate = OpenGate;
    let run = Run {
        rt: method.rt,
        alloc: method.alloc,
        settings: method.settings,
        gate: &gate,
    };
    with_algebra!(
        method.chosen,
        |algebra| run_service(&run, algebra, graph, order, requests, out)
    )
}

/// The end of accounts: they are flushed, unless a write has failed.
fn end_accounts<A: RoadWrite>(accounts: &mut Option<A>, lost: bool) -> Result<(), RunFault>
    ensures { EndsAccounts A.seen accounts.old accounts.new lost result }
{
    let Some(to) = accounts else {
        return Ok(());
    };
    if lost || to.flush().is_err() {
        return Err(fault_of_run(WRITE));
    }
    Ok(())
}

/// The outcome of a command: a fault of the batch, or else one of the accounts.
fn outcome_of(batch: Result<(), RunFault>, kept: Result<(), RunFault>) -> Result<(), RunFault>
    ensures { result ≡ outcome_of batch kept }
{
    match batch {
        Ok(()) => kept,
        Err(fault) => Err(fault),
    }
}

/// Answers the questions of an input over its graph, which is factored by the order of a further
/// input, if there is one. The file of accounts, which may be none of these others, is created
/// first. It writes accounts and shows progress, each if it is wanted, lets the files take note of
/// its phases, and gives the exit status. A fault is reported in one line on the error output. At
/// last it shows times, if they are wanted.
pub(crate) fn answer<R: Threads + Wait + Sync, I: BatchInput, O: RoadRead, S: Streams>(
    method: &Method<'_, R>,
    input: &mut I,
    order: &mut Option<O>,
    host: &mut Host<S>,
    options: &WatchOptions<'_>,
    others: &[&str],
) -> u8
    ensures { (after : I) × (order_after : Option O) × Answers S.Files.FileSystem (map (λ name.
        name.now) others.now) options.now (given_of method.now.chosen method.now.settings.now
        (I.is_read input.old) (IsOrderedFile I.is_own) (HasReadOrdered (I.is_read input.old)
        I.is_own IsRunFile (I.has_read input.old after) (option_map O.seen order.old) (option_map
        O.seen order_after))) (moment S.Out.seen S.Errors.seen host.old) (moment S.Out.seen
        S.Errors.seen host.new) result }
{
    let mut accounts = match create_accounts(&mut host.files, options, others) {
        Ok(accounts) => accounts,
        Err(refusal) => return refuse(&mut host.errors, refusal),
    };
    let mut ordered = OrderedInput { input, order };
    let mut watch = CommandWatcher {
        name: method.chosen.name(),
        accounts: &mut accounts,
        lost: false,
        progress: options.progress,
        all: 0,
        left: PATIENCE,
        errors: &mut host.errors,
        files: &host.files,
    };
    let batch = run_chosen(method, &mut ordered, &mut host.out, &mut watch);
    usual_turns_are_enough();
    let lost = watch.lost;
    let kept = end_accounts(&mut accounts, lost);
    let status = end_with(&mut host.errors, outcome_of(batch, kept));
    show_times(host, options.times, status);
    status
}
