//! What was solved for one of several questions.
ghost use Rattle.std.specs.Prelude.{◌≡◌, [], ◌∷◌, ◌++◌, slice_index_or, IsTrue, OnErr, OnOk};
ghost use Rattle.road_files.specs.Asked.{Question, asked_of};
ghost use Rattle.question_solvers.specs.Questions.{HasPlace};

use crate::solved::Solved;
use road_files::{Questions, are_same};
use road_graph::Memory;

/// What the question at a place is solved to.
#[derive(Drop)]
pub(crate) struct Searched<V: Copy> {
    pub(crate) place: usize,
    pub(crate) solved: Solved<V>,
}

/// Adds what was found to the rest.
pub(crate) fn add<V: Copy>(searched: &mut Vec<Searched<V>>, next: Searched<V>) -> Result<(), Memory>
    ensures added { OnOk result (searched.new.items ≡ searched.old.items ++ next ∷ []) }
    ensures kept { OnErr result (searched.new.items ≡ searched.old.items) }
{
    match searched.push(next) {
        Ok(()) => Ok(()),
        Err(_) => Err(Memory),
    }
}

/// Whether two questions are the same.
pub(crate) fn is_same(questions: &Questions, i: usize, j: usize) -> bool
    requires first { HasPlace questions.now i }
    requires second { HasPlace questions.now j }
    ensures { IsTrue result → (default : Question) →
        slice_index_or (asked_of questions.now).questions i default ≡
        slice_index_or (asked_of questions.now).questions j default }
{
    match questions {
        Questions::Sources(sources) => sources[i] == sources[j],
        Questions::Pairs(pairs) => pairs[i] == pairs[j],
        Questions::Multi(lists) => are_same(lists[i].as_slice(), lists[j].as_slice()),
    }
}
