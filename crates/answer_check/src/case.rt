//! What is judged.

ghost use Rattle.std.specs.Prelude.{◌≡◌, length};
ghost use Rattle.road_files.specs.Asked.{AskWithin, AskWithin-prop, asked_of};

use answer_text::Answers;
use path_algebra::PathAlgebra;
use road_files::Questions;
use road_graph::{InGraph, OutGraph};
use std::alloc::Global;

/// As many answers as questions over a graph, which has its arcs by tail and by head, and the
/// algebra that judges them.
#[derive(Drop)]
pub(crate) struct Case<'c, A: PathAlgebra> {
    pub(crate) alloc: Global,
    pub(crate) algebra: A,
    pub(crate) graph: &'c OutGraph,
    pub(crate) by_head: &'c InGraph,
    pub(crate) questions: &'c Questions,
    pub(crate) answers: &'c Answers,
    ghost same: { by_head.now ≡ graph.now },
    ghost within: { AskWithin graph.now.vertices questions.now } by { AskWithin-prop graph.now.vertices questions.now },
    ghost count: { length (asked_of questions.now).questions ≡ length answers.now.list.items },
}
