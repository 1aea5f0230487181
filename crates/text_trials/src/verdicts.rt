//! Verdicts on answers under the algebra that is asked for; `system_tests/worked` has those on
//! answers with one place changed.

ghost use Rattle.road_files.specs.Asked.{AskWithin};

use answer_check::{Reason, Verdict, check, right_lines_are_certified};
use answer_text::{Answers, read_answers};
use graph_text::read_gr_as;
use path_algebra::Shortest;
use road_files::{Questions, read_questions};
use road_graph::OutGraph;
use std::process::Abort;
use std::thread::Threads;
use text_lines::Plain;

/// Five vertices. No arc leads to the last.
const FIVE: &str = "p sp 5 7\na 1 2 4\na 1 3 1\na 3 2 2\na 2 4 5\na 3 4 8\na 4 4 0\na 5 1 3\n";

/// One question, from the first vertex.
const FROM_ONE: &str = "p aux sp ss 1\ns 1\n";

/// The graph of a text that has no fault.
fn graph_of(rt: &(impl Abort + AllocGlobal), text: &str) -> OutGraph {
    match read_gr_as(rt.alloc(), &mut Plain::new(text.as_bytes())) {
        Ok(graph) => graph,
        Err(_) => panic!(rt; "no graph"),
    }
}

/// The questions over n vertices of a text that has no fault.
fn questions_of(rt: &(impl Abort + AllocGlobal), text: &str, n: u32) -> Questions
    ensures { AskWithin n result }
{
    match read_questions(rt.alloc(), &mut Plain::new(text.as_bytes()), n) {
        Ok(questions) => questions,
        Err(_) => panic!(rt; "no questions"),
    }
}

/// The answers over n vertices of a text that has no fault.
fn answers_of(rt: &(impl Abort + AllocGlobal), text: &str, n: u32) -> Answers {
    match read_answers(rt.alloc(), &mut Plain::new(text.as_bytes()), n) {
        Ok(answers) => answers,
        Err(_) => panic!(rt; "no answers"),
    }
}

/// The verdict on answers to `FROM_ONE` over `FIVE`, by the least sum of weights.
fn verdict_on(rt: &(impl Abort + AllocGlobal + Threads + Sync), answers: &str) -> Verdict {
    let graph = graph_of(rt, FIVE);
    let n = graph.vertices();
    let questions = questions_of(rt, FROM_ONE, n);
    let answers = answers_of(rt, answers, n);
    check(rt, rt.alloc(), Shortest, &graph, &questions, &answers).expect(rt, "memory")
}

/// Right lines are valid under their own algebra alone.
#[test]
fn answers_under_another_name(rt: HostRuntime) {
    right_lines_are_certified(Shortest);
    let right = "p ans ss 1 shortest\ns 1\nd 1 0 0 0\nd 2 3 2 3\nd 3 1 1 1\nd 4 8 3 2\nu 5\n";
    assert_eq!(rt; verdict_on(&rt, right), Verdict::Valid);
    let widest = "p ans ss 1 widest\ns 1\nd 1 0 0 0\nd 2 3 2 3\nd 3 1 1 1\nd 4 8 3 2\nu 5\n";
    let whole = Verdict::Invalid {
        question: 0,
        vertex: 0,
        reason: Reason::Mismatch,
    };
    assert_eq!(rt; verdict_on(&rt, widest), whole);
}

#[test]
fn numbers_of_reasons(rt: HostRuntime) {
    for &(reason, number) in &[
        (Reason::Mismatch, 1),
        (Reason::NotBest, 2),
        (Reason::NoParent, 3),
        (Reason::OtherHops, 4),
        (Reason::LesserParent, 5),
        (Reason::HasWalk, 6),
        (Reason::OtherRoute, 7),
    ] {
        assert_eq!(rt; reason.number(), number);
    }
}
