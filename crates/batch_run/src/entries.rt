//! Runs a batch of a pair of inputs, or of a bundle.
ghost use Rattle.batch_run.specs.Reports.{Watched};
ghost use Rattle.batch_run.specs.Runs.{RanBundle, RanPair};
ghost use Rattle.batch_inputs.specs.Spelled.{IsBundleOf, IsPairOf};
ghost use Rattle.batch_run.specs.Stopping.{Stopped};
ghost use Rattle.batch_run.specs.Unsuited.{IsRefusedUnsuited};

use crate::batch::Run;
use crate::run::run_batch;
use crate::watcher::Watcher;
use batch_inputs::{BundleInput, PairInput, RunFault};
use path_algebra::PathAlgebra;
use std::sync::Wait;
use std::thread::Threads;
use text_lines::{RoadRead, RoadWrite};
use worker_fleet::Gate;

/// Answers the questions of one input over the graph of another, and writes the answers, as
/// `run_batch` does.
pub fn run_pair<
    A: PathAlgebra,
    G: RoadRead,
    Q: RoadRead,
    W: RoadWrite,
    R: Threads + Wait + Sync,
    T: Gate,
    O: Watcher,
>(
    run: &Run<'_, R, T>,
    algebra: A,
    graph: &mut G,
    questions: &mut Q,
    out: &mut W,
    watcher: &mut O,
) -> Result<(), RunFault>
    ensures ran { RanPair (A.meaning algebra) run.now.settings.now (T.may_answer run.now.gate.now)
        (G.seen graph.old) (G.seen graph.new) (Q.seen questions.old) (Q.seen questions.new)
        (W.seen out.old) (W.seen out.new) result }
    ensures suited { IsRefusedUnsuited (A.arc_cost algebra) run.now.settings.now result }
    ensures stopped { Stopped A.meaning algebra run.now.settings.now
        (T.may_answer run.now.gate.now) (IsPairOf (G.seen graph.old).left
        (Q.seen questions.old).left) result }
    ensures watched { Watched (A.meaning algebra) run.now.settings.now (IsPairOf
        (G.seen graph.old).left (Q.seen questions.old).left) O.may_become watcher.old watcher.new
        (W.seen out.old) (W.seen out.new) result }
{
    let mut input = PairInput { graph, questions };
    run_batch(run, algebra, &mut input, out, watcher)
}

/// Answers the questions of a bundle, a graph and questions over it in one input, and writes the
/// answers, as `run_batch` does.
pub fn run_bundle<
    A: PathAlgebra,
    B: RoadRead,
    W: RoadWrite,
    R: Threads + Wait + Sync,
    T: Gate,
    O: Watcher,
>(
    run: &Run<'_, R, T>,
    algebra: A,
    bundle: &mut B,
    out: &mut W,
    watcher: &mut O,
) -> Result<(), RunFault>
    ensures ran { RanBundle (A.meaning algebra) run.now.settings.now (T.may_answer run.now.gate.now)
        (B.seen bundle.old) (B.seen bundle.new) (W.seen out.old) (W.seen out.new) result }
    ensures suited { IsRefusedUnsuited (A.arc_cost algebra) run.now.settings.now result }
    ensures stopped { Stopped A.meaning algebra run.now.settings.now
        (T.may_answer run.now.gate.now) (IsBundleOf (B.seen bundle.old).left) result }
    ensures watched { Watched (A.meaning algebra) run.now.settings.now (IsBundleOf
        (B.seen bundle.old).left) O.may_become watcher.old watcher.new
        (W.seen out.old) (W.seen out.new) result }
{
    let mut input = BundleInput { bundle };
    run_batch(run, algebra, &mut input, out, watcher)
}
