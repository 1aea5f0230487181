//! Searches of the plain solver, several side by side.
ghost use Rattle.std.specs.Prelude.{◌≡◌, ◌↔◌, ◌-◌, ◌≤◌, length, slice_index_or, All, IfOk, IsTrue};
ghost use Rattle.std.specs.List.{AllZip};
ghost use Rattle.road_files.specs.Asked.{Question, asked_of, sources_of};
ghost use Rattle.question_solvers.specs.Questions.{HasPlace};
ghost use Rattle.question_solvers.specs.Tasks.{AreFoundIn, ArePairsIn, IsFoundIn, IsPlaceIn};

use crate::ahead::add_chunk;
use crate::searched::Searched;
use crate::solved::Solved;
use crate::task::{Task, TaskOver};
use path_algebra::PathAlgebra;
use rayon::prelude::*;
use road_files::{Questions, are_same};
use road_graph::Memory;
use std::alloc::AllocError;
use std::thread::Threads;
use tree_search::solve_with_tree;

/// Solves the question at a place, from sources, by a search for labels and tree.
pub(crate) fn search<A: PathAlgebra, R>(
    over: &TaskOver<'_, A, R>,
    place: usize,
) -> Result<Searched<A::Value>, Memory>
    requires unpaired { ArePairsIn over.now → ⊥ }
    requires place { IsPlaceIn over.now place }
    ensures { IfOk result (IsFoundIn A.meaning over.now place) }
{
    let task = over.task;
    let sources = task.questions.sources(place);
    let (labels, tree) = solve_with_tree(task.alloc, task.algebra, over.graph, sources)?;
    Ok(Searched {
        place,
        solved: Solved::Tree { labels, tree },
    })
}

/// Whether the question at a place has the sources of the one before it.
pub(crate) fn follows(questions: &Questions, i: usize) -> bool
    requires { HasPlace questions.now i }
    ensures { (default : Question) → IsTrue result ↔ ((1 ≤ i) ×
        (sources_of (slice_index_or (asked_of questions.now).questions (i - 1) default) ≡
        sources_of (slice_index_or (asked_of questions.now).questions i default))) }
{
    i > 0 && are_same(questions.sources(i - 1), questions.sources(i))
}

/// The place of a question, and of those that follow it with other sources than the one before
/// them, as many as the width in all.
pub(crate) fn places_from<A: PathAlgebra, R>(
    task: &Task<'_, A, R>,
    first: usize,
) -> Result<Vec<usize>, AllocError>
    requires first { HasPlace task.now.questions.now first }
    ensures inside { IfOk result (λ v. All (HasPlace task.now.questions.now) v.items) }
    ensures few { IfOk result (λ v. length v.items ≤ task.now.width) }
{
    let mut places = Vec::new(task.alloc);
    places.push(first)?;
    for place in first + 1..task.questions.len() {
        if places.len() == task.width {
            break;
        }
        if !follows(task.questions, place) {
            places.push(place)?;
        }
    }
    Ok(places)
}

/// Solves the questions at several places, from sources, each by a search of its own: side by side,
/// on all processors.
fn search_each<A: PathAlgebra, R: Threads + Sync>(
    over: &TaskOver<'_, A, R>,
    places: &[usize],
) -> Result<Vec<Searched<A::Value>>, Memory>
    requires unpaired { ArePairsIn over.now → ⊥ }
    requires places { All (IsPlaceIn over.now) places.now }
    ensures { IfOk result (λ v. AllZip (IsFoundIn A.meaning over.now) places.now v.items) }
{
    let searched: Result<Vec<Searched<A::Value>>, Memory> = places
        .par_iter()
        .with_min_len(1)
        .map(
            |place: &usize| -> Result<Searched<A::Value>, Memory>
                requires { IsPlaceIn over.now place.now × (ArePairsIn over.now → ⊥) }
                ensures { IfOk result (IsFoundIn A.meaning over.entry.now place.now) }
            { search(over, *place) },
        )
        .collect(over.task.rt, over.task.alloc)?;
    searched
}

/// Solves the question at a place, from sources, and those that follow it with other sources, as
/// many as the width in all, by searches side by side, if that is more than one. They are added
/// ahead.
pub(crate) fn search_ahead<A: PathAlgebra, R: Threads + Sync>(
    over: &TaskOver<'_, A, R>,
    i: usize,
    ahead: &mut Vec<Searched<A::Value>>,
) -> Result<(), Memory>
    requires unpaired { ArePairsIn over.now → ⊥ }
    requires place { IsPlaceIn over.now i }
    requires ahead { AreFoundIn A.meaning over.now ahead.old.items }
    ensures ahead { AreFoundIn A.meaning over.now ahead.new.items }
{
    if over.task.width == 1 {
        return Ok(());
    }
    let places = places_from(over.task, i)?;
    let group = search_each(over, places.as_slice())?;
    add_chunk(ahead, group)
}
