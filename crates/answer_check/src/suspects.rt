//! The parallel pass over the answers to pairs.

ghost use Rattle.std.specs.Prelude.{◌≡◌, ℕ, ◌+◌, ◌<◌, ◌≤◌, false, length};
ghost use Rattle.path_plain.specs.Searcher.{IsOfSameGraph};
ghost use Rattle.road_files.specs.Asked.{asked_of};
ghost use Rattle.answer_text.specs.AnswerData.{answer_list};
ghost use Rattle.answer_check.specs.Pairs.{TellsSuspect, TellsSuspectIn};
ghost use Rattle.answer_check.specs.Places.{IsFirstNumber};
ghost use Rattle.answer_check.specs.Chunks.{chunk_start};

use crate::answers::judge_pair;
use crate::case::Case;
use crate::chunks::Chunks;
use path_algebra::PathAlgebra;
use rayon::current_num_threads;
use rayon::prelude::*;
use road_files::{Kind, Questions};
use route_tree::PairSearcher;
use std::thread::Threads;

/// How many chunks are judged in parallel at most.
const MOST: usize = 64;

/// Whether an answer has yet to be judged: false only for a right answer to a pair.
fn is_suspect<A: PathAlgebra>(searcher: &mut PairSearcher<A>, case: &Case<'_, A>, i: usize) -> bool
    requires graph { case.now.graph.now ≡ searcher.old.roads }
    requires answer { i < length case.now.answers.now.list.items }
    ensures suspect { TellsSuspect (A.meaning searcher.old.algebra) case.now.graph.now
        (asked_of case.now.questions.now) (answer_list case.now.answers.now) i result }
    ensures same { IsOfSameGraph searcher.old searcher.new }
{
    let Questions::Pairs(pairs) = case.questions else {
        return true;
    };
    let answer = &case.answers.list[i];
    match judge_pair(searcher, case.graph, case.by_head, pairs[i], answer) {
        Ok(None) => false,
        _ => true,
    }
}

/// The first answer of a chunk that has yet to be judged, or the end of the chunk. One searcher serves
/// them all.
fn first_suspect<A: PathAlgebra>(case: &Case<'_, A>, chunk: (usize, usize)) -> usize
    requires { chunk.1 ≤ length case.now.answers.now.list.items }
    ensures { TellsSuspectIn (A.meaning case.now.algebra) case.now.graph.now
        (asked_of case.now.questions.now) (answer_list case.now.answers.now) chunk.0 result false }
{
    let (start, end) = chunk;
    let Ok(mut searcher) = PairSearcher::new(case.alloc, case.algebra, case.graph) else {
        return start;
    };
    for i in start..end {
        if is_suspect(&mut searcher, case, i) {
            return i;
        }
    }
    end
}

/// Whether chunk k has an answer that has yet to be judged.
fn has_suspect<A: PathAlgebra>(case: &Case<'_, A>, chunks: Chunks, k: usize) -> bool
    requires end { chunks.end ≤ length case.now.answers.now.list.items }
    requires chunk { k < chunks.count }
    ensures { TellsSuspectIn (A.meaning case.now.algebra) case.now.graph.now
        (asked_of case.now.questions.now) (answer_list case.now.answers.now) (chunk_start chunks k)
        (chunk_start chunks (k + 1)) result }
{
    let chunk = chunks.chunk(k);
    first_suspect(case, chunk) < chunk.1
}

/// The first chunk with an answer that has yet to be judged. The chunks are judged in parallel.
fn first_suspect_chunk<A: PathAlgebra, R: Threads + Sync>(
    rt: &R,
    case: &Case<'_, A>,
    chunks: Chunks,
) -> Option<usize>
    requires { chunks.end ≤ length case.now.answers.now.list.items }
    ensures { IsFirstNumber chunks.count (λ k. TellsSuspectIn (A.meaning case.now.algebra)
        case.now.graph.now (asked_of case.now.questions.now) (answer_list case.now.answers.now)
        (chunk_start chunks k) (chunk_start chunks (k + 1))) result }
{
    (0..chunks.count)
        .into_par_iter()
        .with_min_len(1)
        .position_first(
            rt,
            |k: usize| -> bool
                requires { (chunks.end ≤ length case.now.answers.now.list.items) ×
                    (k < chunks.count) }
                ensures { TellsSuspectIn (A.meaning case.entry.now.algebra) case.entry.now.graph.now
                    (asked_of case.entry.now.questions.now) (answer_list case.entry.now.answers.now)
                    (chunk_start chunks k) (chunk_start chunks (k + 1)) result }
            { has_suspect(case, chunks, k) },
        )
}

/// How many of the first answers are right, as far as that is found in parallel: pairs are judged
/// on all processors, some chunks at a time, up to the first that is wrong or for which memory chunks
/// out.
pub(crate) fn right_prefix<A: PathAlgebra, R: Threads + Sync>(rt: &R, case: &Case<'_, A>) -> usize
    ensures { (k : ℕ) → k < result → TellsSuspect (A.meaning case.now.algebra) case.now.graph.now
        (asked_of case.now.questions.now) (answer_list case.now.answers.now) k false }
{
    if case.questions.kind() != Kind::Pairs {
        return 0;
    }
    let total = case.answers.list.len();
    let count = current_num_threads(rt).min(MOST);
    let mut right = 0;
    while right < total {
        let chunks = Chunks::next(count, right, total);
        match first_suspect_chunk(rt, case, chunks) {
            Some(k) => return first_suspect(case, chunks.chunk(k)),
            None => right = chunks.end,
        }
    }
    right
}
