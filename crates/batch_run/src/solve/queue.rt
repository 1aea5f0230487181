//! The diffusions of a batch, one after the other: several are run together, and wait here until
//! they are asked for.
ghost use Rattle.std.specs.Prelude.{◌≡◌, ℕ, ◌≤◌, ◌+◌, [], ◌∷◌, length, IfOk, IfErr, OnOk, OnErr};
ghost use Rattle.batch_run.specs.Batches.{AreNextAt, IsGatheredIn, IsLabellingIn, StopsOver, questions_in};
ghost use Rattle.batch_run.specs.Diffusions.{HasSource, IsNextSource};
ghost use Rattle.batch_run.specs.Reports.{Account, Reported};

use crate::batch::BatchOver;
use crate::solve::diffusion::{GatheredDiffusion, Labelling};
use crate::solve::group::run_together;
use crate::solve::pace::Pace;
use crate::solve::upcoming::upcoming;
use crate::watcher::{Progress, Watcher};
use path_algebra::PathAlgebra;
use road_graph::InGraph;
use shard_part::CountedPlan;
use std::collections::VecDeque;
use std::sync::Wait;
use std::thread::Threads;
use worker_fleet::{Gate, GroupFault};

/// How the graph is cut into shards, the pace of diffusions, and those that were gathered and wait,
/// the next one first; and for pairs the graph by head.
#[derive(Drop)]
pub(crate) struct DiffusionQueue<V: Copy> {
    pub(crate) counted: CountedPlan,
    pub(crate) pace: Pace,
    pub(crate) by_head: Option<InGraph>,
    pub(crate) waiting: VecDeque<GatheredDiffusion<V>>,
}

/// Runs the diffusions from source j of question i on, at most the width, unless some wait.
fn refill<A: PathAlgebra, R: Threads + Wait + Sync, T: Gate>(
    over: &BatchOver<'_, A, R, T>,
    queue: &mut DiffusionQueue<A::Value>,
    i: usize,
    j: usize,
) -> Result<(), GroupFault>
    requires source { HasSource (questions_in over.now) i j }
    requires ready { AreNextAt A.meaning over.now i j queue.old }
    ensures some { OnOk result (1 ≤ length queue.new.waiting.items) }
    ensures ready { OnOk result (AreNextAt A.meaning over.now i j queue.new) }
    ensures stops { IfErr result (StopsOver A.meaning T.may_answer over.now) }
{
    if !queue.waiting.is_empty() {
        return Ok(());
    }
    let (task, width) = (&over.batch.task, over.batch.settings.width as usize);
    let sources = upcoming(task.alloc, task.questions, i, j, width)?;
    let gathered = run_together(over, &queue.counted, queue.pace, &sources)?;
    queue.waiting = VecDeque::from(gathered);
    Ok(())
}

/// The next diffusion, which is the one from source j of question i, taken from those that wait.
fn take_next<A: PathAlgebra, R: Threads + Wait + Sync, T: Gate>(
    over: &BatchOver<'_, A, R, T>,
    queue: &mut DiffusionQueue<A::Value>,
    i: usize,
    j: usize,
) -> Result<GatheredDiffusion<A::Value>, GroupFault>
    requires source { HasSource (questions_in over.now) i j }
    requires ready { AreNextAt A.meaning over.now i j queue.old }
    ensures next { IfOk result (λ d. IsNextSource (questions_in over.now) i j d.source) }
    ensures gathered { IfOk result (IsGatheredIn A.meaning over.now) }
    ensures ready { OnOk result (AreNextAt A.meaning over.now i (j + 1) queue.new) }
    ensures stops { IfErr result (StopsOver A.meaning T.may_answer over.now) }
{
    refill(over, queue, i, j)?;
    let Some(next) = queue.waiting.pop_front() else {
        unreachable!()
    };
    Ok(next)
}

/// What the next diffusion came to, which is the one from source j of question i. It is reported
/// with its counts.
pub(crate) fn next_labels<A: PathAlgebra, R: Threads + Wait + Sync, T: Gate, O: Watcher>(
    over: &BatchOver<'_, A, R, T>,
    queue: &mut DiffusionQueue<A::Value>,
    i: usize,
    j: usize,
    watcher: &mut O,
) -> Result<Labelling<A::Value>, GroupFault>
    requires source { HasSource (questions_in over.now) i j }
    requires ready { AreNextAt A.meaning over.now i j queue.old }
    ensures labels { IfOk result (λ labelling. (source : ℕ) → IsNextSource (questions_in
        over.now) i j source → IsLabellingIn A.meaning over.now (source ∷ []) labelling) }
    ensures ready { OnOk result (AreNextAt A.meaning over.now i (j + 1) queue.new) }
    ensures stops { IfErr result (StopsOver A.meaning T.may_answer over.now) }
    ensures reported { OnOk result ((source : ℕ) → IsNextSource (questions_in over.now)
        i j source → Reported (A.meaning over.now.batch.now.task.algebra) over.now.batch.now.settings.now
        over.now.graph.now O.may_become (Account (i + 1) source ∷ []) watcher.old watcher.new) }
    ensures unreported { OnErr result (watcher.new ≡ watcher.old) }
{
    let question = (i + 1) as u32;
    let next = take_next(over, queue, i, j)?;
    let GatheredDiffusion {
        source,
        labelling,
        tally,
    } = next;
    let report = Progress::Gathered {
        question,
        source,
        tally,
    };
    watcher.report(report);
    Ok(labelling)
}
