//! Parses the lines of a bundle.
ghost use Rattle.std.specs.Prelude.{◌≡◌, ℕ, ◌++◌, ◌∷◌, [], List, map, refl, OnOk, IfOk, IfErr, MatchResult, Ok, None};
ghost use Rattle.road_graph.specs.GraphData.{GraphData};
ghost use Rattle.text_lines.specs.Slots.{word_in};
ghost use Rattle.text_lines.specs.Takes.{Leaves, Breaks};
ghost use Rattle.text_lines.specs.Words.{held_word};
ghost use Rattle.graph_text.specs.GraphTakes.{roads_so_far, taken_of};
ghost use Rattle.road_files.specs.Asked.{asked_of, AreQuestionsOf};
ghost use Rattle.road_files.specs.BundleFiles.{InGraph, InQuestions, begins_questions, first_question_line, question_part_line, bundle_end};
ghost use Rattle.road_files.specs.QuestionTakes.{ListSoFar, sources_given, questions_begun};

use crate::bundle_part::{BundlePart, QuestionPart};
use crate::questions::Questions;
use graph_text::rules::NO_PROBLEM;
use graph_text::{FromArcs, GraphBuilder, GraphParser};
use std::alloc::Global;
use std::marker::PhantomData;
use text_lines::{LineFault, LineParser, Slot};

/// Whether a line ends the graph part.
#[tactic(auto, unfolding(crate::specs::BundleFiles::begins_questions))]
fn ends_graph(slots: &[Slot]) -> bool
    ensures { result ≡ begins_questions (map word_in slots.now) }
{
    slots.len() > 1 && slots[0].is_word(b"p") && slots[1].is_word(b"aux")
}

/// The fault of a bundle that ends in its graph part.
fn no_questions(graph: GraphParser) -> LineFault
    ensures { Breaks (bundle_end (InGraph (taken_of graph))) result }
{
    match GraphBuilder::complete(graph.taken) {
        Ok(_) => LineFault::Broken(NO_PROBLEM),
        Err(fault) => fault,
    }
}

/// Parses the lines of a bundle, and makes the graph and the questions that they describe.
#[derive(Drop)]
pub struct BundleParser<G> {
    pub alloc: Global,
    pub part: BundlePart,
    pub made: PhantomData<G>,
}

impl<G: FromArcs> BundleParser<G> {
    ghost use Rattle.road_files.specs.BundleTakes.{bundle_so_far, kept_line, PartSoFar};

    /// A parser before the first line.
    pub fn new(alloc: Global) -> Self
        ensures start { bundle_so_far result.part ≡ InGraph None }
        ensures ready { PartSoFar result.part [] }
    {
        BundleParser {
            alloc,
            part: BundlePart::Graph(GraphParser::new(alloc)),
            made: PhantomData,
        }
    }

    fn parse_line(&mut self, slots: &[Slot]) -> Result<(), LineFault>
        ensures rule { Leaves (kept_line self.old.part (map word_in slots.now)) result
            (bundle_so_far self.new.part) }
        ensures ready { OnOk result (PartSoFar self.new.part []) }
    {
        match &mut self.part {
            BundlePart::Questions(part) => part.parse_line(slots),
            BundlePart::Graph(graph) => {
                if !ends_graph(slots) {
                    return graph.parse_line(slots);
                }
                let part = QuestionPart::begin(graph, slots)?;
                self.part = BundlePart::Questions(part);
                Ok(())
            }
        }
    }
}

impl<G: FromArcs> LineParser for BundleParser<G> {
    ghost use Rattle.road_files.specs.BundleTakes.{bundle_meaning};

    type Value = (G, Questions);

    ghost meaning = { bundle_meaning (λ s. s.part) G.roads };

    fn field(&mut self, slot: &Slot) -> Result<(), LineFault> {
        match &mut self.part {
            BundlePart::Graph(_) => Ok(()),
            BundlePart::Questions(part) => part.questions.list.field(slot),
        }
    }

    fn line(&mut self, slots: &[Slot]) -> Result<(), LineFault> {
        self.parse_line(slots)
    }

    fn short_line(&mut self, letter: u8, numbers: (u64, u64, u64)) -> bool {
        match &mut self.part {
            BundlePart::Graph(graph) => graph.short(letter, numbers),
            BundlePart::Questions(_) => false,
        }
    }

    fn finish(self) -> Result<(G, Questions), LineFault> {
        let part = self.part;
        match part {
            BundlePart::Graph(graph) => Err(no_questions(graph)),
            BundlePart::Questions(part) => part.complete(self.alloc),
        }
    }

    ghost stops_short = { λ s at. (refl, tt) };
}
