//! Best labels from the sources of a question, by workers.
ghost use Rattle.std.specs.Prelude.{◌+◌, false, IfOk, IfErr, OnOk};
ghost use Rattle.road_files.specs.Asked.{Question, sources_of};
ghost use Rattle.batch_run.specs.Batches.{AreNextAt, IsLabellingIn, ReportedAccounts, StopsOver, question_at};
ghost use Rattle.question_solvers.specs.Questions.{HasPlace};

use crate::batch::BatchOver;
use crate::solve::diffusion::Labelling;
use crate::solve::queue::{DiffusionQueue, next_labels};
use crate::watcher::Watcher;
use path_algebra::{PathAlgebra, laws_hold};
use std::sync::Wait;
use std::thread::Threads;
use worker_fleet::{Gate, GroupFault};

/// The best values over all walks from some source of the question at a place, or what it is solved
/// to: of each source a diffusion of its own, reported for the question, and then these merged.
pub(crate) fn merge_all<A: PathAlgebra, R: Threads + Wait + Sync, T: Gate, O: Watcher>(
    over: &BatchOver<'_, A, R, T>,
    queue: &mut DiffusionQueue<A::Value>,
    i: usize,
    watcher: &mut O,
) -> Result<Labelling<A::Value>, GroupFault>
    requires place { HasPlace over.now.batch.now.task.questions.now i }
    requires ready { AreNextAt A.meaning over.now i 0 queue.old }
    ensures labels { IfOk result (λ labelling. (default : Question) → IsLabellingIn A.meaning
        over.now (sources_of (question_at over.now.batch.now i default)) labelling) }
    ensures ready { OnOk result (AreNextAt A.meaning over.now (i + 1) 0 queue.new) }
    ensures stops { IfErr result (StopsOver A.meaning T.may_answer over.now) }
    ensures reported { ReportedAccounts A.meaning over.now.batch.now over.now.graph.now false i
        O.may_become watcher.old watcher.new result }
{
    let task = &over.batch.task;
    laws_hold(task.algebra);
    let sources = task.questions.sources(i);
    let mut merged = next_labels(over, queue, i, 0, watcher)?;
    for j in 1..sources.len() {
        let other = next_labels(over, queue, i, j, watcher)?;
        let mut labels = merged.into_labels();
        labels.merge(task.algebra, &other.into_labels());
        merged = Labelling::Labels(labels);
    }
    Ok(merged)
}
