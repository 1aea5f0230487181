//! Pairs that are asked of the factors of a graph, several side by side.
ghost use Rattle.std.specs.Prelude.{◌≡◌, All, IfOk};
ghost use Rattle.question_solvers.specs.Tasks.{AreFoundIn, ArePairsIn, IsCarriedIn, IsFoundIn, IsPlaceIn, SolvesNextIn};

use crate::ahead::{add_chunks, add_next, advance};
use crate::pair_search::{answer_of_pair, pair_at};
use crate::searched::{Searched, add};
use crate::task::FactoredTask;
use factor_routes::{Pair, RouteAsker};
use path_algebra::PathAlgebra;
use rayon::prelude::*;
use road_graph::Memory;
use std::thread::Threads;

/// How many pairs an asker is made for, at most: few enough that their answers are held.
const MOST: usize = 256;

/// How many it is made for at least, since its lists are as long as the graph has vertices.
const LEAST: usize = 16;

/// What the question at a place, a pair, is solved to.
fn ask_at<A: PathAlgebra, R>(
    factored: &FactoredTask<'_, A, R>,
    asker: &mut RouteAsker,
    place: usize,
) -> Result<Searched<A::Value>, Memory>
    requires place { IsPlaceIn factored.now.over.now place }
    requires pairs { ArePairsIn factored.now.over.now }
    requires carried { IsCarriedIn A.meaning factored.now }
    requires same { asker.old.factors ≡ factored.now.factors.now }
    ensures same { asker.new.factors ≡ asker.old.factors }
    ensures solved { IfOk result (IsFoundIn A.meaning factored.now.over.now place) }
{
    let (task, by_head) = (factored.over.task, factored.by_head);
    let Pair { source, target } = pair_at(factored.over, place);
    let (factors, pair) = (factored.factors, Pair { source, target });
    let found = factors.find(task.alloc, task.algebra, by_head, asker, pair)?;
    Ok(answer_of_pair(place, Pair { source, target }, found))
}

/// What the pairs from a place on are solved to, as many as `each`, by an asker of their own.
fn ask_chunk<A: PathAlgebra, R>(
    factored: &FactoredTask<'_, A, R>,
    start: usize,
    each: usize,
) -> Result<Vec<Searched<A::Value>>, Memory>
    requires pairs { ArePairsIn factored.now.over.now }
    requires carried { IsCarriedIn A.meaning factored.now }
    ensures { IfOk result (λ v. AreFoundIn A.meaning factored.now.over.now v.items) }
{
    let task = factored.over.task;
    let mut asker = factored.factors.asker(task.alloc)?;
    let mut found = Vec::new(task.alloc);
    let end = task.questions.len().min(start.saturating_add(each));
    for place in start..end {
        let next = ask_at(factored, &mut asker, place)?;
        add(&mut found, next)?;
    }
    Ok(found)
}

/// Asks for the pairs from a place on, in `count` chunks of `each` pairs, with an asker for each:
/// side by side, on all processors.
fn ask_chunks<A: PathAlgebra, R: Threads + Sync>(
    factored: &FactoredTask<'_, A, R>,
    first: usize,
    each: usize,
    count: usize,
) -> Result<Vec<Vec<Searched<A::Value>>>, Memory>
    requires pairs { ArePairsIn factored.now.over.now }
    requires carried { IsCarriedIn A.meaning factored.now }
    ensures { IfOk result (λ v. All (λ chunk. AreFoundIn A.meaning factored.now.over.now
        chunk.items) v.items) }
{
    let task = factored.over.task;
    let chunks: Result<Vec<Vec<Searched<A::Value>>>, Memory> = (0..count)
        .into_par_iter()
        .with_min_len(1)
        .map(
            |k: usize| -> Result<Vec<Searched<A::Value>>, Memory>
                requires { ArePairsIn factored.now.over.now × IsCarriedIn A.meaning factored.now }
                ensures { IfOk result (λ v. AreFoundIn A.meaning factored.entry.now.over.now
                    v.items) }
            { ask_chunk(factored, first.saturating_add(k.saturating_mul(each)), each) },
        )
        .collect(task.rt, task.alloc)?;
    chunks
}

/// Asks for the pair at a place and for those that follow it, in as many chunks as the width, if
/// that is more than one and the pairs are enough to be shared. What is found is added ahead.
fn ask_ahead<A: PathAlgebra, R: Threads + Sync>(
    factored: &FactoredTask<'_, A, R>,
    i: usize,
    ahead: &mut Vec<Searched<A::Value>>,
) -> Result<(), Memory>
    requires place { IsPlaceIn factored.now.over.now i }
    requires pairs { ArePairsIn factored.now.over.now }
    requires carried { IsCarriedIn A.meaning factored.now }
    requires ahead { AreFoundIn A.meaning factored.now.over.now ahead.old.items }
    ensures ahead { AreFoundIn A.meaning factored.now.over.now ahead.new.items }
{
    let task = factored.over.task;
    let rest = task.questions.len() - i;
    let each = (rest / task.width).max(LEAST).min(MOST);
    if task.width == 1 || rest <= each {
        return Ok(());
    }
    let count = rest.div_ceil(each).min(task.width);
    let chunks = ask_chunks(factored, i, each, count)?;
    add_chunks(ahead, chunks)
}

/// Solves the pair at a place by asking: ahead if that can be and memory suffices, else by the
/// asker that is kept.
pub(crate) fn ask_pair<A: PathAlgebra, R: Threads + Sync>(
    factored: &FactoredTask<'_, A, R>,
    asker: &mut RouteAsker,
    i: usize,
    ahead: &mut Vec<Searched<A::Value>>,
) -> Result<(), Memory>
    requires place { IsPlaceIn factored.now.over.now i }
    requires pairs { ArePairsIn factored.now.over.now }
    requires carried { IsCarriedIn A.meaning factored.now }
    requires same { asker.old.factors ≡ factored.now.factors.now }
    requires ahead { AreFoundIn A.meaning factored.now.over.now ahead.old.items }
    ensures same { asker.new.factors ≡ asker.old.factors }
    ensures solved { SolvesNextIn A.meaning factored.now.over.now i ahead.new.items result }
{
    let _ = ask_ahead(factored, i, ahead);
    if advance(factored.over, i, ahead) {
        return Ok(());
    }
    let next = ask_at(factored, asker, i)?;
    add_next(factored.over, i, next, ahead)
}
