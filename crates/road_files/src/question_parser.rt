//! Parses the lines of a question file.
ghost use Rattle.std.specs.Prelude.{◌≡◌, ℕ, [], List, map, refl, true, IfOk, Some, None, option_map, IfSome, MatchResult, Ok};
ghost use Rattle.std.specs.Option.{ForSome};
ghost use Rattle.text_lines.specs.Slots.{word_in};
ghost use Rattle.text_lines.specs.Takes.{Agrees, Leaves, Breaks};
ghost use Rattle.road_files.specs.Asked.{asked_of, AskWithin};
ghost use Rattle.road_files.specs.QuestionFiles.{accepted, may_be, source_of_line, pair_of_line, sources_of_line, one_question, question_problem, question_line_of, question_end};

use crate::present_list::PresentList;
use crate::questions::{Kind, Questions};
use crate::questions_builder::QuestionsBuilder;
use graph_text::number_up_to;
use graph_text::rules::{BAD_PROBLEM, NO_PROBLEM, SECOND_PROBLEM, UNKNOWN_LINE};
use std::alloc::Global;
use text_lines::{LineFault, LineParser, Slot};

/// The most questions of a file.
const MAX_QUESTIONS: u32 = 1_048_576;

/// The kind that is named, if the file may be of it.
fn accept(only: Option<Kind>, named: Option<Kind>) -> Result<Kind, LineFault>
    ensures rule { Agrees (accepted only named) result }
    ensures kind { IfOk result (λ k. may_be only k ≡ true) }
{
    let Some(kind) = named else {
        return Err(LineFault::Broken(BAD_PROBLEM));
    };
    match only {
        None => Ok(kind),
        Some(only) if only == kind => Ok(kind),
        Some(_) => Err(LineFault::Broken(BAD_PROBLEM)),
    }
}

/// The empty list of questions of this kind.
fn none_of(alloc: Global, kind: Kind) -> Questions
    ensures asked { asked_of result ≡ record { kind = kind; questions = [] } }
    ensures within { (n : ℕ) → AskWithin n result }
{
    match kind {
        Kind::Sources => Questions::Sources(Vec::new(alloc)),
        Kind::Pairs => Questions::Pairs(Vec::new(alloc)),
        Kind::Multi => Questions::Multi(Vec::new(alloc)),
    }
}

/// Parses the lines of a question file.
#[derive(Drop)]
pub struct QuestionParser {
    pub alloc: Global,
    /// The one kind that the file may be of, or any.
    pub only: Option<Kind>,
    /// What was read, once the problem line was read.
    pub begun: Option<QuestionsBuilder>,
    /// The fields of the present line.
    pub list: PresentList,
    ghost graph: { ForSome begun (λ b. b.vertices ≡ list.vertices) },
    ghost kind: { ForSome begun (λ b. may_be only (asked_of b.questions).kind ≡ true) },
}

impl QuestionParser {
    ghost use Rattle.road_files.specs.QuestionTakes.{ListSoFar, sources_given, questions_begun, FitsFile};
    ghost use Rattle.road_files.specs.Asked.{AreQuestionsOf};
    ghost use Rattle.road_files.specs.ServiceText.{whole_or_on, Gives};
    ghost use Rattle.road_files.specs.QuestionTakes.{asked_list};

    /// A parser before the first line, of questions over a graph with this number of vertices.
    pub fn new(alloc: Global, vertices: u32, only: Option<Kind>) -> Self
        ensures begun { questions_begun result ≡ None }
        ensures only { result.only ≡ only }
        ensures vertices { result.list.vertices ≡ vertices }
        ensures ready { ListSoFar result.list [] }
    {
        QuestionParser {
            alloc,
            only,
            begun: None,
            list: PresentList::new(alloc, vertices),
        }
    }

    /// Parses the problem line.
    #[tactic(auto, unfolding(crate::specs::QuestionFiles::question_problem))]
    pub fn problem(&mut self, slots: &[Slot]) -> Result<(), LineFault>
        ensures rule { Leaves (question_problem self.old.only (questions_begun self.old)
            (map word_in slots.now)) result (questions_begun self.new) }
        ensures only { self.new.only ≡ self.old.only }
        ensures list { self.new.list ≡ self.old.list }
    {
        match &self.begun {
            Some(_) => return Err(LineFault::Broken(SECOND_PROBLEM)),
            None => {}
        }
        if slots.len() != 5 || !slots[1].is_word(b"aux") || !slots[2].is_word(b"sp") {
            return Err(LineFault::Broken(BAD_PROBLEM));
        }
        let kind = accept(self.only, Kind::named(&slots[3]))?;
        let announced = number_up_to(&slots[4], MAX_QUESTIONS)?;
        self.begun = Some(QuestionsBuilder {
            vertices: self.list.vertices,
            announced,
            questions: none_of(self.alloc, kind),
        });
        Ok(())
    }

    fn source(&mut self, slots: &[Slot]) -> Result<(), LineFault>
        ensures rule { Leaves (one_question Kind.Sources (questions_begun self.old)
            (source_of_line self.old.list.vertices (map word_in slots.now))) result
            (questions_begun self.new) }
        ensures only { self.new.only ≡ self.old.only }
        ensures list { self.new.list.vertices ≡ self.old.list.vertices }
    {
        match &mut self.begun {
            None => Err(LineFault::Broken(NO_PROBLEM)),
            Some(begun) => begun.source(slots),
        }
    }

    fn pair(&mut self, slots: &[Slot]) -> Result<(), LineFault>
        ensures rule { Leaves (one_question Kind.Pairs (questions_begun self.old)
            (pair_of_line self.old.list.vertices (map word_in slots.now))) result
            (questions_begun self.new) }
        ensures only { self.new.only ≡ self.old.only }
        ensures list { self.new.list.vertices ≡ self.old.list.vertices }
    {
        match &mut self.begun {
            None => Err(LineFault::Broken(NO_PROBLEM)),
            Some(begun) => begun.pair(slots),
        }
    }

    fn sources(&mut self) -> Result<(), LineFault>
        requires { self.old.list.is_list ≡ true }
        ensures rule { Leaves (one_question Kind.Multi (questions_begun self.old)
            (sources_of_line self.old.list.count (sources_given self.old.list))) result
            (questions_begun self.new) }
        ensures only { self.new.only ≡ self.old.only }
        ensures list { self.new.list.vertices ≡ self.old.list.vertices }
    {
        match &mut self.begun {
            None => Err(LineFault::Broken(NO_PROBLEM)),
            Some(begun) => begun.list(&mut self.list, self.alloc),
        }
    }

    /// Parses a line by its first six fields.
    #[tactic(auto, unfolding(crate::specs::QuestionFiles::question_line_of))]
    pub fn parse_line(&mut self, slots: &[Slot]) -> Result<(), LineFault>
        ensures rule { Leaves (question_line_of self.old.list.vertices self.old.only
            (questions_begun self.old) (map word_in slots.now) self.old.list.is_list
            self.old.list.count (sources_given self.old.list)) result (questions_begun self.new) }
        ensures only { self.new.only ≡ self.old.only }
        ensures list { self.new.list.vertices ≡ self.old.list.vertices }
    {
        if slots.is_empty() || slots[0].begins_with(b'c') {
            return Ok(());
        }
        if slots[0].is_word(b"p") {
            return self.problem(slots);
        }
        if slots[0].is_word(b"s") {
            return self.source(slots);
        }
        if slots[0].is_word(b"q") {
            return self.pair(slots);
        }
        if self.list.is_list {
            return self.sources();
        }
        Err(LineFault::Broken(UNKNOWN_LINE))
    }

    /// The questions, if all announced ones are there. Other questions may begin then.
    pub fn take_complete(&mut self) -> Option<Questions>
        ensures step { whole_or_on (questions_begun self.old)
            (question_end (questions_begun self.old)) ≡ record {
              ended = asked_list result;
              next = Gives (questions_begun self.new);
            } }
        ensures fit { IfSome result (AreQuestionsOf self.old.list.vertices) }
        ensures only { self.new.only ≡ self.old.only }
        ensures list { self.new.list ≡ self.old.list }
    {
        match self.begun.take() {
            None => None,
            Some(begun) => {
                if begun.questions.len() < begun.announced as usize {
                    self.begun = Some(begun);
                    return None;
                }
                Some(begun.questions)
            }
        }
    }

    /// The questions, if all announced ones are there.
    pub fn complete(self) -> Result<Questions, LineFault>
        ensures rule { MatchResult result (λ q. question_end (questions_begun self) ≡ Ok
            (asked_of q)) (Breaks (question_end (questions_begun self))) }
        ensures fit { IfOk result (FitsFile self.list.vertices self.only) }
    {
        let begun = self.begun;
        match begun {
            None => Err(LineFault::Broken(NO_PROBLEM)),
            Some(begun) => begun.complete(),
        }
    }
}

impl LineParser for QuestionParser {
    ghost use Rattle.road_files.specs.QuestionTakes.{question_meaning};

    type Value = Questions;

    ghost meaning = { question_meaning };

    fn field(&mut self, slot: &Slot) -> Result<(), LineFault> {
        self.list.field(slot)
    }

    fn line(&mut self, slots: &[Slot]) -> Result<(), LineFault> {
        match self.parse_line(slots) {
            Ok(()) => {}
            Err(fault) => return Err(fault),
        }
        self.list.restart();
        Ok(())
    }

    fn short_line(&mut self, _letter: u8, _numbers: (u64, u64, u64)) -> bool {
        false
    }

    fn finish(self) -> Result<Questions, LineFault> {
        self.complete()
    }

    ghost stops_short = { λ s at. (refl, tt) };
}
