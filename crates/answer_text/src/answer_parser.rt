//! Parses the lines of an answer text.
ghost use Rattle.std.specs.Prelude.{◌≡◌, ℕ, [], List, None, Some, map, refl, MatchResult, Ok};
ghost use Rattle.text_lines.specs.Slots.{word_in};
ghost use Rattle.text_lines.specs.Takes.{Breaks, Leaves};
ghost use Rattle.answer_text.specs.AnswerFiles.{end_read, line_given, told_after};
ghost use Rattle.answer_text.specs.AnswerTakes.{NumbersSoFar, answers_so_far, numbers_given};
ghost use Rattle.answer_text.specs.AnswerData.{answer_list};

use crate::answers::Answers;
use crate::answers_builder::{AnswersBuilder, Awaited, first_in};
use crate::present_numbers::PresentNumbers;
use crate::rules::{CUT_OFF, NO_HEADER};
use std::alloc::Global;
use text_lines::{LineFault, LineParser, Slot};

/// Parses the lines of an answer text over a graph with `n` vertices.
#[derive(Drop)]
pub struct AnswerParser {
    pub alloc: Global,
    pub n: u32,
    /// What was read since the header, if there was one.
    pub begun: Option<AnswersBuilder>,
    /// The fields of the present line.
    pub present: PresentNumbers,
}

impl AnswerParser {
    ghost use Rattle.answer_text.specs.AnswerTakes.{answers_begun};

    /// A parser before the first line.
    pub fn new(alloc: Global, n: u32) -> Self
        ensures begun { answers_begun result ≡ None }
        ensures n { result.n ≡ n }
        ensures ready { NumbersSoFar result.present [] }
    {
        AnswerParser {
            alloc,
            n,
            begun: None,
            present: PresentNumbers::new(alloc),
        }
    }

    /// Parses the header.
    fn begin(&mut self, slots: &[Slot]) -> Result<(), LineFault>
        ensures rule { Leaves (told_after self.old.n None (map word_in slots.now) 0 (Ok [])) result
            (answers_begun self.new) }
        ensures n { self.new.n ≡ self.old.n }
    {
        let begun = first_in(self.alloc, slots)?;
        self.begun = Some(begun);
        Ok(())
    }

    /// Parses a line that is neither blank nor a comment.
    fn parse_content(&mut self, slots: &[Slot]) -> Result<(), LineFault>
        ensures rule { Leaves (told_after self.old.n (answers_begun self.old)
            (map word_in slots.now) self.old.present.count (numbers_given self.old.present)) result
            (answers_begun self.new) }
        ensures n { self.new.n ≡ self.old.n }
    {
        match &mut self.begun {
            Some(begun) => begun.add_line(self.n, slots, &mut self.present),
            None => self.begin(slots),
        }
    }

    /// Parses a line by its first six fields. The numbers of a list were taken before.
    #[tactic(auto, unfolding(crate::specs::AnswerFiles::line_given))]
    pub fn parse_line(&mut self, slots: &[Slot]) -> Result<(), LineFault>
        ensures rule { Leaves (line_given self.old.n (answers_begun self.old)
            (map word_in slots.now) self.old.present.count (numbers_given self.old.present)) result
            (answers_begun self.new) }
        ensures n { self.new.n ≡ self.old.n }
    {
        if slots.is_empty() || slots[0].begins_with(b'c') {
            return Ok(());
        }
        self.parse_content(slots)
    }
}

/// The answers after a header, if the last of them is complete.
fn complete(n: u32, begun: AnswersBuilder) -> Result<Answers, LineFault>
    ensures { MatchResult result (λ a. end_read n (Some (answers_so_far begun)) ≡ Ok
        (answer_list a)) (Breaks (end_read n (Some (answers_so_far begun)))) }
{
    match begun.awaited {
        Awaited::Between if begun.list.len() == begun.announced as usize => Ok(Answers {
            name: begun.name,
            kind: begun.kind,
            n,
            list: begun.list,
        }),
        _ => Err(LineFault::Broken(CUT_OFF)),
    }
}

impl LineParser for AnswerParser {
    ghost use Rattle.answer_text.specs.AnswerTakes.{answer_meaning};

    type Value = Answers;

    ghost meaning = { answer_meaning };

    fn field(&mut self, slot: &Slot) -> Result<(), LineFault> {
        self.present.field(slot)
    }

    fn line(&mut self, slots: &[Slot]) -> Result<(), LineFault> {
        match self.parse_line(slots) {
            Ok(()) => {}
            Err(fault) => return Err(fault),
        }
        self.present.restart();
        Ok(())
    }

    fn short_line(&mut self, _letter: u8, _numbers: (u64, u64, u64)) -> bool {
        false
    }

    fn finish(self) -> Result<Answers, LineFault> {
        let AnswerParser { n, begun, .. } = self;
        match begun {
            None => Err(LineFault::Broken(NO_HEADER)),
            Some(begun) => complete(n, begun),
        }
    }

    ghost stops_short = { λ s at. refl };
}
