//! The part of a bundle that is being read.
ghost use Rattle.std.specs.Prelude.{◌≡◌, [], map, OnOk, IfOk, MatchResult, Ok};
ghost use Rattle.std.specs.Option.{ForSome};
ghost use Rattle.text_lines.specs.Slots.{word_in};
ghost use Rattle.text_lines.specs.Takes.{Leaves, Breaks};
ghost use Rattle.road_files.specs.Asked.{asked_of, AreQuestionsOf};
ghost use Rattle.road_files.specs.BundleFiles.{InGraph, InQuestions, first_question_line, question_part_line, bundle_end};

use crate::question_parser::QuestionParser;
use crate::questions::Questions;
use graph_text::{FromArcs, GraphBuilder, GraphParser};
use std::alloc::Global;
use text_lines::{LineFault, Slot};

/// All the arcs of the graph, and the questions so far, of any kind.
#[derive(Drop)]
pub struct QuestionPart {
    pub roads: GraphBuilder,
    pub questions: QuestionParser,
    ghost same: { questions.list.vertices ≡ roads.vertices },
    ghost any: { ForSome questions.only (λ _. ⊥) },
}

impl QuestionPart {
    ghost use Rattle.graph_text.specs.GraphTakes.{roads_so_far, taken_of};
    ghost use Rattle.road_files.specs.QuestionTakes.{ListSoFar, sources_given, questions_begun};

    /// The question part that begins at this line. The graph must be complete before it.
    pub fn begin(graph: &mut GraphParser, slots: &[Slot]) -> Result<QuestionPart, LineFault>
        ensures rule { MatchResult result (λ p. first_question_line (taken_of graph.old)
            (map word_in slots.now) ≡ Ok (InQuestions (roads_so_far p.roads)
            (questions_begun p.questions)))
            (Breaks (first_question_line (taken_of graph.old) (map word_in slots.now))) }
        ensures ready { IfOk result (λ p. ListSoFar p.questions.list []) }
    {
        let roads = GraphBuilder::complete(graph.taken.take())?;
        let mut questions = QuestionParser::new(graph.alloc, roads.vertices, None);
        questions.problem(slots)?;
        Ok(QuestionPart { roads, questions })
    }

    /// Parses a line by its first six fields.
    pub fn parse_line(&mut self, slots: &[Slot]) -> Result<(), LineFault>
        ensures rule { Leaves (question_part_line (roads_so_far self.old.roads)
            (questions_begun self.old.questions) (map word_in slots.now)
            self.old.questions.list.is_list self.old.questions.list.count
            (sources_given self.old.questions.list)) result
            (InQuestions (roads_so_far self.new.roads) (questions_begun self.new.questions)) }
        ensures ready { OnOk result (ListSoFar self.new.questions.list []) }
    {
        self.questions.parse_line(slots)?;
        self.questions.list.restart();
        Ok(())
    }

    /// The graph and the questions, if all announced ones are there.
    pub fn complete<G: FromArcs>(self, alloc: Global) -> Result<(G, Questions), LineFault>
        ensures rule { MatchResult result (λ b. bundle_end (InQuestions (roads_so_far self.roads)
            (questions_begun self.questions)) ≡ Ok (G.roads b.0, asked_of b.1))
            (Breaks (bundle_end (InQuestions (roads_so_far self.roads)
            (questions_begun self.questions)))) }
        ensures fit { IfOk result (λ b. AreQuestionsOf (G.roads b.0).vertices b.1) }
    {
        let QuestionPart { roads, questions } = self;
        let questions = questions.complete()?;
        let graph = roads.build(alloc)?;
        Ok((graph, questions))
    }
}

/// The part of a bundle that is being read, with what was read so far.
#[derive(Drop)]
pub enum BundlePart {
    Graph(GraphParser),
    Questions(QuestionPart),
}
