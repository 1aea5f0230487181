//! Questions that are to be solved without diffusions, and by what.
ghost use Rattle.std.specs.Prelude.{◌≡◌, ◌≤◌, length};
ghost use Rattle.road_files.specs.Asked.{AskWithin, AskWithin-prop, asked_of};
ghost use Rattle.question_solvers.specs.Questions.{ArePairs};

use factor_routes::RoadFactors;
use path_algebra::PathAlgebra;
use road_files::Questions;
use road_graph::{InGraph, OutGraph};
use std::alloc::Global;

/// Questions, the algebra under which they are solved, and by what.
#[derive(Drop)]
pub struct Task<'b, A: PathAlgebra, R> {
    /// Starts threads.
    pub rt: &'b R,
    /// Gives memory.
    pub alloc: Global,
    pub algebra: A,
    pub questions: &'b Questions,
    /// How many questions are solved side by side, at least one.
    pub width: usize,
    ghost some: { 1 ≤ width },
}

/// A task over a graph.
#[derive(Drop)]
pub(crate) struct TaskOver<'b, A: PathAlgebra, R> {
    pub(crate) task: &'b Task<'b, A, R>,
    pub(crate) graph: &'b OutGraph,
    ghost few: { length (asked_of task.now.questions.now).questions ≤ 1048576 },
    ghost within: { AskWithin graph.now.vertices task.now.questions.now } by { AskWithin-prop graph.now.vertices task.now.questions.now },
}

/// A task of pairs over a graph that has its arcs by tail and by head.
#[derive(Drop)]
pub(crate) struct PairTask<'b, A: PathAlgebra, R> {
    pub(crate) over: &'b TaskOver<'b, A, R>,
    pub(crate) by_head: &'b InGraph,
    ghost same: { by_head.now ≡ over.now.graph.now },
    ghost pairs: { ArePairs over.now.task.now.questions.now },
}

/// A task over a graph that has its arcs by tail and by head, and is factored.
#[derive(Drop)]
pub(crate) struct FactoredTask<'b, A: PathAlgebra, R> {
    pub(crate) over: &'b TaskOver<'b, A, R>,
    pub(crate) by_head: &'b InGraph,
    pub(crate) factors: &'b RoadFactors,
    ghost same: { by_head.now ≡ over.now.graph.now },
    ghost own: { by_head.now ≡ factors.now.roads },
}
