//! What was solved ahead of its turn, with the next one last.
ghost use Rattle.std.specs.Prelude.{All, IfSome, IsSome, IsTrue, ◌≡◌};
ghost use Rattle.road_graph.specs.GraphData.{GraphData};
ghost use Rattle.path_algebra.specs.Algebra.{Algebra};
ghost use Rattle.road_files.specs.Asked.{Asked};
ghost use Rattle.question_solvers.specs.Solved.{IsSearched, next_of};
ghost use Rattle.question_solvers.specs.Tasks.{AreFoundIn, IsFoundIn, IsNextIn, IsPlaceIn, SolvesNextIn};

use crate::searched::{Searched, add, is_same};
use crate::solved::Solved;
use crate::task::TaskOver;
use path_algebra::PathAlgebra;
use road_graph::Memory;

/// Goes on to the question at a place: what was solved for those before it is dropped, but for the
/// same question. Whether the next one solves it then.
pub(crate) fn advance<A: PathAlgebra, R>(
    over: &TaskOver<'_, A, R>,
    i: usize,
    ahead: &mut Vec<Searched<A::Value>>,
) -> bool
    requires place { IsPlaceIn over.now i }
    requires ahead { AreFoundIn A.meaning over.now ahead.old.items }
    ensures ahead { AreFoundIn A.meaning over.now ahead.new.items }
    ensures next { IsTrue result → IsNextIn A.meaning over.now i ahead.new.items }
{
    while let Some(next) = ahead.last() {
        if is_same(over.task.questions, next.place, i) {
            return true;
        }
        if next.place >= i {
            return false;
        }
        ahead.truncate(ahead.len() - 1);
    }
    false
}

/// Adds what the question at a place is solved to: it is the next one.
pub(crate) fn add_next<A: PathAlgebra, R>(
    over: &TaskOver<'_, A, R>,
    i: usize,
    next: Searched<A::Value>,
    ahead: &mut Vec<Searched<A::Value>>,
) -> Result<(), Memory>
    requires place { IsPlaceIn over.now i }
    requires next { IsFoundIn A.meaning over.now i next }
    requires ahead { AreFoundIn A.meaning over.now ahead.old.items }
    ensures { SolvesNextIn A.meaning over.now i ahead.new.items result }
{
    add(ahead, next)
}

/// Adds what was found of a chunk, the last one first. After an error some of it is added.
pub(crate) fn add_chunk<V: Copy>(
    ahead: &mut Vec<Searched<V>>,
    mut chunk: Vec<Searched<V>>,
) -> Result<(), Memory>
    ensures { (A : Algebra V) (g : GraphData) (asked : Asked) →
        All (IsSearched A g asked) ahead.old.items → All (IsSearched A g asked) chunk.items →
        All (IsSearched A g asked) ahead.new.items }
{
    while let Some(next) = chunk.pop() {
        add(ahead, next)?;
    }
    Ok(())
}

/// Adds what was found of several chunks, the last one first.
pub(crate) fn add_chunks<V: Copy>(
    ahead: &mut Vec<Searched<V>>,
    mut chunks: Vec<Vec<Searched<V>>>,
) -> Result<(), Memory>
    ensures { (A : Algebra V) (g : GraphData) (asked : Asked) →
        All (IsSearched A g asked) ahead.old.items →
        All (λ chunk. All (IsSearched A g asked) chunk.items) chunks.items →
        All (IsSearched A g asked) ahead.new.items }
{
    while let Some(chunk) = chunks.pop() {
        add_chunk(ahead, chunk)?;
    }
    Ok(())
}

/// What the next one is solved to.
pub(crate) fn solution_of<V: Copy>(ahead: &[Searched<V>]) -> &Solved<V>
    requires { IsSome (next_of ahead.now) }
    ensures { IfSome (next_of ahead.now) (λ next. next.solved ≡ result.now) }
{
    &ahead[ahead.len() - 1].solved
}
