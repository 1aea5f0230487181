//! The check of an answer list.

ghost use Rattle.std.specs.Prelude.{◌≡◌, ◌↔◌, IfOk, IsTrue};
ghost use Rattle.road_files.specs.Asked.{AskWithin, asked_of};
ghost use Rattle.answer_text.specs.AnswerData.{answer_list};
ghost use Rattle.answer_text.specs.IsAnswer.{IsAnswerList};
ghost use Rattle.answer_check.specs.declared.verdict.Verdict.TheVariants.{Valid};
ghost use Rattle.answer_check.specs.Verdicts.{HasHeader, IsVerdict};

use crate::answers::judge;
use crate::case::Case;
use crate::suspects::right_prefix;
use crate::verdict::{Reason, Verdict};
use answer_text::Answers;
use path_algebra::{PathAlgebra, laws_hold};
use road_files::Questions;
use road_graph::{InGraph, Memory, OutGraph};
use std::alloc::Global;
use std::thread::Threads;

/// Whether the header of an answer list is that of the questions over a graph.
fn has_header<A: PathAlgebra>(
    algebra: A,
    graph: &OutGraph,
    questions: &Questions,
    answers: &Answers,
) -> bool
    ensures { IsTrue result ↔ HasHeader (A.meaning algebra) graph.now (asked_of questions.now)
        (answer_list answers.now) }
{
    answers.name == algebra.name()
        && answers.kind == questions.kind()
        && answers.n == graph.vertices()
        && answers.list.len() == questions.len()
}

/// Whether these are the right answers to questions over a graph, or else the first place where
/// they are not.
///
/// Places are ordered by question, then by vertex, then by the number of the reason. The only error
/// is out of memory.
pub fn check<A: PathAlgebra, R: Threads + Sync>(
    rt: &R,
    alloc: Global,
    algebra: A,
    graph: &OutGraph,
    questions: &Questions,
    answers: &Answers,
) -> Result<Verdict, Memory>
    requires { AskWithin graph.now.vertices questions.now }
    ensures verdict { IfOk result (IsVerdict (A.meaning algebra) graph.now (asked_of questions.now)
        (answer_list answers.now)) }
    ensures valid { IfOk result (λ verdict. verdict ≡ Valid ↔ IsAnswerList (A.meaning algebra)
        graph.now (asked_of questions.now) (answer_list answers.now)) }
{
    laws_hold(algebra);
    graph.holds();
    if !has_header(algebra, graph, questions, answers) {
        return Ok(Verdict::Invalid {
            question: 0,
            vertex: 0,
            reason: Reason::Mismatch,
        });
    }
    let by_head = InGraph::of(alloc, graph)?;
    let case = Case {
        alloc,
        algebra,
        graph,
        by_head: &by_head,
        questions,
        answers,
    };
    let right = right_prefix(rt, &case);
    for i in right..answers.list.len() {
        let place = judge(rt, &case, i, &answers.list[i])?;
        if let Some(place) = place {
            return Ok(Verdict::Invalid {
                question: i + 1,
                vertex: place.vertex,
                reason: place.reason,
            });
        }
    }
    Ok(Verdict::Valid)
}
