//! The first place where the answer to one question is wrong.

ghost use Rattle.std.specs.Prelude.{◌≡◌, ◌<◌, length, slice_get, All, IfOk};
ghost use Rattle.road_graph.specs.GraphData.{HasVertex};
ghost use Rattle.path_plain.specs.Searcher.{IsOfSameGraph};
ghost use Rattle.road_files.specs.Asked.{FromSource, BetweenPair, FromSources, Question, asked_of};
ghost use Rattle.answer_text.specs.AnswerData.{answer_data};
ghost use Rattle.answer_text.specs.IsAnswer.{IsAnswer};
ghost use Rattle.answer_check.specs.Verdicts.{IsWrongIn};
ghost use Rattle.answer_check.specs.Places.{IsJudgedAt};

use crate::case::Case;
use crate::lines::judge_lines;
use crate::pairs::reason_of_pair;
use crate::place::Place;
use crate::verdict::Reason;
use answer_text::Answer;
use path_algebra::PathAlgebra;
use road_files::{Questions, are_same};
use road_graph::{InGraph, Memory, OutGraph, Vertex};
use route_tree::PairSearcher;
use std::thread::Threads;

/// The answer as a whole is to another question.
const MISMATCH: Place = Place {
    vertex: 0,
    reason: Reason::Mismatch,
};

/// Judges the answer to a question from one source.
fn judge_source<A: PathAlgebra, R: Threads + Sync>(
    rt: &R,
    case: &Case<'_, A>,
    source: Vertex,
    answer: &Answer,
) -> Result<Option<Place>, Memory>
    requires { HasVertex case.now.graph.now source }
    ensures { IfOk result (IsJudgedAt (IsAnswer (A.meaning case.now.algebra) case.now.graph.now
        (FromSource source) (answer_data answer.now)) (IsWrongIn (A.meaning case.now.algebra)
        case.now.graph.now (FromSource source) (answer_data answer.now))) }
{
    let Answer::Source {
        source: named,
        lines,
    } = answer
    else {
        return Ok(Some(MISMATCH));
    };
    if named.0 != source.0 || lines.len() != case.graph.vertices() as usize {
        return Ok(Some(MISMATCH));
    }
    judge_lines(rt, case, &[source], lines)
}

/// Judges the answer to a question from several sources.
fn judge_sources<A: PathAlgebra, R: Threads + Sync>(
    rt: &R,
    case: &Case<'_, A>,
    sources: &[Vertex],
    answer: &Answer,
) -> Result<Option<Place>, Memory>
    requires { All (HasVertex case.now.graph.now) sources.now }
    ensures { IfOk result (IsJudgedAt (IsAnswer (A.meaning case.now.algebra) case.now.graph.now
        (FromSources sources.now) (answer_data answer.now)) (IsWrongIn (A.meaning case.now.algebra)
        case.now.graph.now (FromSources sources.now) (answer_data answer.now))) }
{
    let Answer::Multi {
        sources: named,
        lines,
    } = answer
    else {
        return Ok(Some(MISMATCH));
    };
    if !are_same(sources, named.as_slice()) || lines.len() != case.graph.vertices() as usize {
        return Ok(Some(MISMATCH));
    }
    judge_lines(rt, case, sources, lines)
}

/// Judges the answer to a question from one vertex to another, which the searcher solves.
pub(crate) fn judge_pair<A: PathAlgebra>(
    searcher: &mut PairSearcher<A>,
    graph: &OutGraph,
    by_head: &InGraph,
    pair: (Vertex, Vertex),
    answer: &Answer,
) -> Result<Option<Place>, Memory>
    requires graph { graph.now ≡ searcher.old.roads }
    requires by_head { by_head.now ≡ graph.now }
    requires source { HasVertex graph.now pair.0 }
    requires target { HasVertex graph.now pair.1 }
    ensures place { IfOk result (IsJudgedAt (IsAnswer (A.meaning searcher.old.algebra) graph.now
        (BetweenPair pair.0 pair.1) (answer_data answer.now))
        (IsWrongIn (A.meaning searcher.old.algebra) graph.now (BetweenPair pair.0 pair.1)
        (answer_data answer.now))) }
    ensures same { IsOfSameGraph searcher.old searcher.new }
{
    let (source, target) = pair;
    let Answer::Pair {
        source: from,
        target: to,
        found,
    } = answer
    else {
        return Ok(Some(MISMATCH));
    };
    if from.0 != source.0 || to.0 != target.0 {
        return Ok(Some(MISMATCH));
    }
    let reason = reason_of_pair(searcher, graph, by_head, pair, found)?;
    Ok(reason.map(|reason| Place {
        vertex: target.0,
        reason,
    }))
}

/// Judges the answer to a question from one vertex to another, by a searcher of its own.
fn judge_alone<A: PathAlgebra>(
    case: &Case<'_, A>,
    pair: (Vertex, Vertex),
    answer: &Answer,
) -> Result<Option<Place>, Memory>
    requires source { HasVertex case.now.graph.now pair.0 }
    requires target { HasVertex case.now.graph.now pair.1 }
    ensures { IfOk result (IsJudgedAt (IsAnswer (A.meaning case.now.algebra) case.now.graph.now
        (BetweenPair pair.0 pair.1) (answer_data answer.now))
        (IsWrongIn (A.meaning case.now.algebra) case.now.graph.now (BetweenPair pair.0 pair.1)
        (answer_data answer.now))) }
{
    let mut searcher = PairSearcher::new(case.alloc, case.algebra, case.graph)?;
    judge_pair(&mut searcher, case.graph, case.by_head, pair, answer)
}

/// The first place where the answer to question `i` is wrong.
pub(crate) fn judge<A: PathAlgebra, R: Threads + Sync>(
    rt: &R,
    case: &Case<'_, A>,
    i: usize,
    answer: &Answer,
) -> Result<Option<Place>, Memory>
    requires { i < length (asked_of case.now.questions.now).questions }
    ensures { (q : Question) → slice_get (asked_of case.now.questions.now).questions i ≡ Some q →
        IfOk result (IsJudgedAt (IsAnswer (A.meaning case.now.algebra) case.now.graph.now q
        (answer_data answer.now)) (IsWrongIn (A.meaning case.now.algebra) case.now.graph.now q
        (answer_data answer.now))) }
{
    match case.questions {
        Questions::Sources(sources) => judge_source(rt, case, sources[i], answer),
        Questions::Pairs(pairs) => judge_alone(case, pairs[i], answer),
        Questions::Multi(lists) => judge_sources(rt, case, lists[i].as_slice(), answer),
    }
}
