//! Parses the lines of a service, whose requests are question texts one after the other.
ghost use Rattle.std.specs.Prelude.{◌≡◌, ℕ, ◌∷◌, [], List, true, false, None, Some, Ok, Err, IfSome, refl, ◌⊎◌};
ghost use Rattle.std.proofs.Common.{◌∙◌};
ghost use Rattle.text_lines.specs.Lines.{fields};
ghost use Rattle.text_lines.specs.Takes.{ShowsLine};
ghost use Rattle.road_files.specs.Asked.{AreQuestionsOf};
ghost use Rattle.road_files.specs.QuestionTakes.{questions_begun};
ghost use Rattle.road_files.specs.ServiceText.{ServiceState, Gives, Passes, begins_request, GiveMay, LineMay, service_end};

use crate::question_parser::QuestionParser;
use crate::questions::Questions;
use std::alloc::Global;
use text_lines::{FieldTaker, LineFault, MEMORY, Slot};

/// The result of a request that has ended: its questions, or the number of its fault.
#[derive(Drop)]
pub enum Ended {
    Asked(Questions),
    Fault(u8),
}

/// What a line did.
#[derive(Drop)]
pub struct LineDone {
    /// Whether a request with too few lines ended before this line.
    pub early: bool,
    /// The request that ended with this line.
    pub ended: Option<Ended>,
}

/// Parses the lines of a service.
#[derive(Drop)]
pub struct RequestParser {
    pub questions: QuestionParser,
    /// Whether lines are skipped, up to the next problem line.
    pub passing: bool,
    /// Whether memory ran out at the present line.
    pub refused: bool,
}

/// Whether a line begins a request.
fn begins(slots: &[Slot]) -> bool
    ensures { (l : List ℕ) → ShowsLine slots.now l → result ≡ begins_request (fields l) }
{
    !slots.is_empty() && slots[0].is_word(b"p")
}

impl RequestParser {
    ghost use Rattle.road_files.specs.RequestTakes.{parser_state, ended_of, ended_list, RequestSoFar, KeepsState, EndFits};

    /// A parser before the first line, of a service over a graph with this number of vertices.
    pub fn new(alloc: Global, vertices: u32) -> Self
        ensures state { parser_state result ≡ Gives None }
        ensures vertices { result.questions.list.vertices ≡ vertices }
        ensures any { result.questions.only ≡ None }
        ensures ready { RequestSoFar result [] }
        ensures fresh { result.refused ≡ false }
    {
        RequestParser {
            questions: QuestionParser::new(alloc, vertices, None),
            passing: false,
            refused: false,
        }
    }

    /// Ends the request with this fault, and skips lines from here on.
    fn fail(&mut self, number: u8) -> Option<Ended>
        ensures ended { result ≡ Some (Ended.Fault number) }
        ensures state { parser_state self.new ≡ Passes }
        ensures rest { (self.new.questions.list ≡ self.old.questions.list) ×
            (self.new.questions.only ≡ self.old.questions.only) }
    {
        self.questions.begun = None;
        self.passing = true;
        Some(Ended::Fault(number))
    }

    /// Gives a line to the request.
    fn give(&mut self, slots: &[Slot]) -> Option<Ended>
        requires any { self.old.questions.only ≡ None }
        ensures step { (l : List ℕ) → ShowsLine slots.now l → RequestSoFar self.old (fields l) →
            GiveMay self.old.questions.list.vertices (fields l) (questions_begun self.old.questions)
            (record { ended = ended_list result; next = parser_state self.new }) }
        ensures fit { EndFits self.old.questions.list.vertices result }
        ensures vertices { self.new.questions.list.vertices ≡ self.old.questions.list.vertices }
        ensures any { self.new.questions.only ≡ None }
    {
        if self.refused {
            return self.fail(MEMORY);
        }
        match self.questions.parse_line(slots) {
            Err(LineFault::Memory) => self.fail(MEMORY),
            Err(LineFault::Broken(rule)) => self.fail(rule.number),
            Ok(()) => {
                self.passing = false;
                match self.questions.take_complete() {
                    Some(asked) => Some(Ended::Asked(asked)),
                    None => None,
                }
            }
        }
    }

    /// Parses a line; `begins` says whether it begins a request.
    fn parse_line(&mut self, slots: &[Slot], begins: bool) -> LineDone
        requires any { self.old.questions.only ≡ None }
        ensures step { (l : List ℕ) → ShowsLine slots.now l → begins ≡ begins_request (fields l) →
            RequestSoFar self.old (fields l) → LineMay self.old.questions.list.vertices
            (parser_state self.old) (fields l)
            (record { ended = ended_of result; next = parser_state self.new }) }
        ensures fit { EndFits self.old.questions.list.vertices result.ended }
        ensures vertices { self.new.questions.list.vertices ≡ self.old.questions.list.vertices }
        ensures any { self.new.questions.only ≡ None }
    {
        if self.passing {
            if !begins {
                return LineDone {
                    early: false,
                    ended: None,
                };
            }
            self.questions.begun = None;
            return LineDone {
                early: false,
                ended: self.give(slots),
            };
        }
        if !begins || self.questions.begun.is_none() {
            return LineDone {
                early: false,
                ended: self.give(slots),
            };
        }
        self.questions.begun = None;
        LineDone {
            early: true,
            ended: self.give(slots),
        }
    }

    /// Whether a request has begun and not ended.
    pub fn is_open(&self) -> bool
        ensures open { result ≡ true → service_end (parser_state self.now) ≡ Err 19 ∷ [] }
        ensures none { result ≡ false → service_end (parser_state self.now) ≡ [] }
    {
        !self.passing && self.questions.begun.is_some()
    }

    /// Takes the present line, after all its fields; `slots` are the first six.
    pub fn line(&mut self, slots: &[Slot]) -> LineDone
        requires any { self.old.questions.only ≡ None }
        ensures step { (l : List ℕ) → ShowsLine slots.now l → RequestSoFar self.old (fields l) →
            LineMay self.old.questions.list.vertices (parser_state self.old) (fields l)
            (record { ended = ended_of result; next = parser_state self.new }) }
        ensures fit { EndFits self.old.questions.list.vertices result.ended }
        ensures ready { RequestSoFar self.new [] }
        ensures fresh { self.new.refused ≡ false }
        ensures vertices { self.new.questions.list.vertices ≡ self.old.questions.list.vertices }
        ensures any { self.new.questions.only ≡ None }
    {
        let done = self.parse_line(slots, begins(slots));
        self.questions.list.restart();
        self.refused = false;
        done
    }
}

impl FieldTaker for RequestParser {
    ghost use Rattle.road_files.specs.RequestTakes.{RequestSoFar, KeepsState};

    ghost so_far = { RequestSoFar };

    ghost kept = { KeepsState };

    fn field(&mut self, slot: &Slot) {
        if self.refused {
            return;
        }
        match self.questions.list.field(slot) {
            Ok(()) => {}
            Err(_) => self.refused = true,
        }
    }

    ghost kept_still = { λ s. (refl, refl, refl) };

    ghost kept_on = { λ s t u p q. (q.0 ∙ p.0, q.1 ∙ p.1, q.2 ∙ p.2) };
}
