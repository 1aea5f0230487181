//! What the questions of a batch have in common.
ghost use Rattle.std.specs.Prelude.{◌≡◌, ◌≤◌, length};
ghost use Rattle.road_files.specs.Asked.{AskWithin, AskWithin-prop, asked_of};
ghost use Rattle.batch_settings.specs.InRange.{AreInRange};

use batch_settings::Settings;
use path_algebra::PathAlgebra;
use question_solvers::Task;
use road_graph::Graph;
use std::alloc::Global;

/// How a batch is run, and by what.
#[derive(Drop)]
pub struct Run<'r, R, T> {
    /// Starts threads.
    pub rt: &'r R,
    /// Gives memory.
    pub alloc: Global,
    /// How many workers and shards there are, and which solver answers.
    pub settings: &'r Settings,
    /// Is asked before each turn of a worker.
    pub gate: &'r T,
}

/// Questions that are to be answered, by which solver, and if it is workers, by which gate.
#[derive(Drop)]
pub struct Batch<'b, A: PathAlgebra, R, T> {
    pub task: Task<'b, A, R>,
    pub settings: &'b Settings,
    pub gate: &'b T,
    ghost in_range: { AreInRange settings.now },
}

/// A batch over the graph of workers.
#[derive(Drop)]
pub(crate) struct BatchOver<'b, A: PathAlgebra, R, T> {
    pub(crate) batch: &'b Batch<'b, A, R, T>,
    pub(crate) graph: &'b Graph,
    ghost few: { length (asked_of batch.now.task.questions.now).questions ≤ 1048576 },
    ghost within: { AskWithin graph.now.vertices batch.now.task.questions.now } by { AskWithin-prop graph.now.vertices batch.now.task.questions.now },
}
