//! The commands, each as its arguments ask: it gives the exit status, and reports a fault in one
//! line on the error output.
ghost use Rattle.std.specs.Prelude.{◌≡◌};
ghost use Rattle.program.specs.Commands.{DoesBundle, DoesCheck, DoesServe, DoesSolve};
ghost use Rattle.command_files.specs.Moments.{moment};
ghost use Rattle.program.specs.Ordering.{DoesOrder};

use crate::answering::{answer, serve_chosen};
use crate::judging::{end_check, judge};
use crate::method::Method;
use crate::ordering::read_and_order;
use batch_run::{BundleInput, PairInput};
use command_args::{BundleArgs, CheckArgs, OrderArgs, ServeArgs, SolveArgs};
use command_files::{
    ERRORS_NAME, FileSystem, Host, OUTPUT_NAME, STDIN_NAME, Streams, choose, open_pair,
    open_to_bundle, open_to_check, open_to_order, refuse,
};
use fault_reports::end_with;
use std::sync::Wait;
use std::thread::Threads;

/// The graph of one input, and the questions of another over it.
fn pair_of<'i, G, Q>(graph: &'i mut G, questions: &'i mut Q) -> PairInput<'i, G, Q>
    ensures { result ≡ record { graph = graph.entry; questions = questions.entry } }
{
    PairInput { graph, questions }
}

/// Answers the questions of one input over the graph of another. The inputs are opened in the order
/// of their names, and the file of accounts, which may be none of them, is created, before one is
/// read.
pub fn solve<'t, R: AllocGlobal + Threads + Wait + Sync, S: Streams>(
    rt: &'t R,
    host: &mut Host<S>,
    args: &'t SolveArgs<'_>,
) -> u8
    ensures { DoesSolve S.Files.FileSystem args.now (moment S.Out.seen S.Errors.seen host.old)
        (moment S.Out.seen S.Errors.seen host.new) result }
{
    let chosen = match choose(&args.options, args.watching.accounts.is_some()) {
        Ok(chosen) => chosen,
        Err(refusal) => return refuse(&mut host.errors, refusal),
    };
    host.files.measure(args.watching.times);
    let (mut graph, mut questions, mut order) = match open_pair(
        &mut host.files,
        args.graph,
        args.questions,
        &args.options,
    ) {
        Ok(opened) => opened,
        Err(refusal) => return refuse(&mut host.errors, refusal),
    };
    let method = Method {
        rt,
        alloc: rt.alloc(),
        settings: &args.options.settings,
        chosen,
    };
    let mut pair = pair_of(&mut graph, &mut questions);
    let taken = [args.graph, args.questions, OUTPUT_NAME, ERRORS_NAME];
    answer(&method, &mut pair, &mut order, host, &args.watching, &taken)
}

/// Answers the bundle on standard input. An order, if one is named, is opened, and the file of
/// accounts is created, before it is read.
pub fn bundle<'t, R: AllocGlobal + Threads + Wait + Sync, S: Streams>(
    rt: &'t R,
    host: &mut Host<S>,
    args: &'t BundleArgs<'_>,
) -> u8
    ensures { DoesBundle S.Files.FileSystem args.now (moment S.Out.seen S.Errors.seen host.old)
        (moment S.Out.seen S.Errors.seen host.new) result }
{
    let chosen = match choose(&args.options, args.watching.accounts.is_some()) {
        Ok(chosen) => chosen,
        Err(refusal) => return refuse(&mut host.errors, refusal),
    };
    host.files.measure(args.watching.times);
    let (mut text, mut order) = match open_to_bundle(&mut host.files, args) {
        Ok(opened) => opened,
        Err(refusal) => return refuse(&mut host.errors, refusal),
    };
    let method = Method {
        rt,
        alloc: rt.alloc(),
        settings: &args.options.settings,
        chosen,
    };
    let mut bundle = BundleInput { bundle: &mut text };
    let taken = [STDIN_NAME, OUTPUT_NAME, ERRORS_NAME];
    answer(
        &method,
        &mut bundle,
        &mut order,
        host,
        &args.watching,
        &taken,
    )
}

/// Replies to the requests of standard input over the graph of a file, which is opened first, and
/// then its order, if one is named.
pub fn serve<'t, R: AllocGlobal + Threads + Wait + Sync, S: Streams>(
    rt: &'t R,
    host: &mut Host<S>,
    args: &'t ServeArgs<'_>,
) -> u8
    ensures { DoesServe S.Files.FileSystem args.now (moment S.Out.seen S.Errors.seen host.old)
        (moment S.Out.seen S.Errors.seen host.new) result }
{
    let chosen = match choose(&args.options, false) {
        Ok(chosen) => chosen,
        Err(refusal) => return refuse(&mut host.errors, refusal),
    };
    let (mut graph, mut requests, mut order) = match open_pair(
        &mut host.files,
        args.graph,
        STDIN_NAME,
        &args.options,
    ) {
        Ok(opened) => opened,
        Err(refusal) => return refuse(&mut host.errors, refusal),
    };
    let method = Method {
        rt,
        alloc: rt.alloc(),
        settings: &args.options.settings,
        chosen,
    };
    let outcome = serve_chosen(
        &method,
        &mut graph,
        &mut order,
        &mut requests,
        &mut host.out,
    );
    end_with(&mut host.errors, outcome)
}

/// Judges the answers of one input to the questions of another over the graph of a third. The
/// inputs are opened in the order of their names before one is read.
pub fn check<R: AllocGlobal + Threads + Sync, S: Streams>(
    rt: &R,
    host: &mut Host<S>,
    args: &CheckArgs<'_>,
) -> u8
    ensures { DoesCheck S.Files.FileSystem args.now (moment S.Out.seen S.Errors.seen host.old)
        (moment S.Out.seen S.Errors.seen host.new) result }
{
    let (mut graph, mut questions, mut answers) = match open_to_check(&mut host.files, args) {
        Ok(opened) => opened,
        Err(refusal) => return refuse(&mut host.errors, refusal),
    };
    let judged = judge(rt, &mut graph, &mut questions, &mut answers, args.limit);
    end_check(&mut host.out, &mut host.errors, judged)
}

/// Writes an order of elimination of the graph of an input.
pub fn order<R: AllocGlobal, S: Streams>(rt: &R, host: &mut Host<S>, args: &OrderArgs<'_>) -> u8
    ensures { DoesOrder S.Files.FileSystem args.now (moment S.Out.seen S.Errors.seen host.old)
        (moment S.Out.seen S.Errors.seen host.new) result }
{
    let mut graph = match open_to_order(&mut host.files, args) {
        Ok(graph) => graph,
        Err(refusal) => return refuse(&mut host.errors, refusal),
    };
    let outcome = read_and_order(rt.alloc(), &mut graph, &mut host.out);
    end_with(&mut host.errors, outcome)
}
