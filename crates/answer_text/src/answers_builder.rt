//! The answers of a text so far.
ghost use Rattle.std.specs.Prelude.{◌≡◌, ◌+◌, ◌<◌, ◌&&◌, ℕ, List, map, nat_lt, length, OnOk, IfErr, MatchResult, Ok, [], Some, codes};
ghost use Rattle.text_lines.specs.Slots.{word_in};
ghost use Rattle.text_lines.specs.Takes.{Breaks, Leaves};
ghost use Rattle.answer_text.specs.AnswerFiles.{AfterFound, AfterPair, Between, InLines, ManySources, OneSource, answer_line, begins, first_line, header_line, heading_line, route_line, sources_line, with_answer, with_lines};
ghost use Rattle.answer_text.specs.AnswerTakes.{answers_so_far, numbers_given};
ghost use Rattle.answer_text.specs.AnswerData.{answer_data};

use crate::answer_lines::{begins, found_in, kind_of, name_of, pair_in, source_in, vertex_in};
use crate::answers::{Answer, Reached};
use crate::number_fields::number_up_to;
use crate::present_numbers::PresentNumbers;
use crate::rules::{BAD_HEADER, MISPLACED, NO_HEADER};
use crate::writing::MAX_ANSWERS;
use path_algebra::AlgebraName;
use road_files::Kind;
use road_graph::Vertex;
use route_tree::Found;
use std::alloc::Global;
use text_lines::{LineFault, Slot, push_item};

/// Which line comes next, by what was read of the present answer.
#[derive(Clone, Copy)]
pub enum Awaited {
    /// Nothing was read: the next line names a question.
    Between,
    /// The source, and some lines of vertices.
    Source(Vertex),
    /// The sources, and some lines of vertices.
    Sources,
    /// The source and the target.
    Pair(Vertex, Vertex),
    /// The same, with the code and hops of the pair.
    Found(Vertex, Vertex, u64, u32),
}

/// What the header says, the complete answers, and the present one.
#[derive(Drop)]
pub struct AnswersBuilder {
    pub alloc: Global,
    pub kind: Kind,
    pub name: AlgebraName,
    /// How many answers the header announces.
    pub announced: u32,
    /// The complete answers.
    pub list: Vec<Answer>,
    pub awaited: Awaited,
    /// The sources of the present answer, if it has several.
    pub sources: Vec<Vertex>,
    /// The lines of vertices of the present answer.
    pub lines: Vec<Option<Reached>>,
}

/// `p ans KIND K NAME`.
#[tactic(auto, unfolding(crate::specs::AnswerFiles::header_line))]
fn header_in(alloc: Global, slots: &[Slot]) -> Result<AnswersBuilder, LineFault>
    ensures { MatchResult result (λ t. header_line (map word_in slots.now) ≡ Ok (answers_so_far t))
        (Breaks (header_line (map word_in slots.now))) }
{
    if slots.len() != 5 || !slots[1].is_word(b"ans") {
        return Err(LineFault::Broken(BAD_HEADER));
    }
    let kind = kind_of(&slots[2])?;
    let name = name_of(&slots[4])?;
    let announced = number_up_to(&slots[3], MAX_ANSWERS)?;
    Ok(AnswersBuilder {
        alloc,
        kind,
        name,
        announced,
        list: Vec::new(alloc),
        awaited: Awaited::Between,
        sources: Vec::new(alloc),
        lines: Vec::new(alloc),
    })
}

/// The first line that is neither blank nor a comment: the header.
pub fn first_in(alloc: Global, slots: &[Slot]) -> Result<AnswersBuilder, LineFault>
    ensures { MatchResult result (λ t. first_line (map word_in slots.now) ≡ Ok (answers_so_far t))
        (Breaks (first_line (map word_in slots.now))) }
{
    if !begins(slots, b"p") {
        return Err(LineFault::Broken(NO_HEADER));
    }
    header_in(alloc, slots)
}

impl AnswersBuilder {
    /// Adds a complete answer.
    fn push(&mut self, answer: Answer) -> Result<(), LineFault>
        ensures pushed { OnOk result (answers_so_far self.new ≡ with_answer
            (answers_so_far self.old) (answer_data answer)) }
        ensures memory { IfErr result (λ e. e ≡ LineFault.Memory) }
    {
        self.awaited = Awaited::Between;
        push_item(&mut self.list, answer)
    }

    /// Makes the present answer one from this source with the lines so far. It is complete if there
    /// are `n` lines.
    fn set_source(&mut self, n: u32, source: Vertex) -> Result<(), LineFault>
        ensures set { OnOk result (answers_so_far self.new ≡ with_lines n (answers_so_far self.old)
            (OneSource source) self.old.lines.items) }
        ensures memory { IfErr result (λ e. e ≡ LineFault.Memory) }
    {
        if self.lines.len() != n as usize {
            self.awaited = Awaited::Source(source);
            return Ok(());
        }
        let lines = std::mem::replace(&mut self.lines, Vec::new(self.alloc));
        self.push(Answer::Source { source, lines })
    }

    /// Makes the present answer one from the sources with the lines so far. It is complete if there
    /// are `n` lines.
    fn set_sources(&mut self, n: u32) -> Result<(), LineFault>
        ensures set { OnOk result (answers_so_far self.new ≡ with_lines n (answers_so_far self.old)
            (ManySources self.old.sources.items) self.old.lines.items) }
        ensures memory { IfErr result (λ e. e ≡ LineFault.Memory) }
    {
        if self.lines.len() != n as usize {
            self.awaited = Awaited::Sources;
            return Ok(());
        }
        let lines = std::mem::replace(&mut self.lines, Vec::new(self.alloc));
        let sources = std::mem::replace(&mut self.sources, Vec::new(self.alloc));
        self.push(Answer::Multi { sources, lines })
    }

    /// Adds the line of a question from one source.
    fn question_from(&mut self, n: u32, slots: &[Slot]) -> Result<(), LineFault>
        ensures { Leaves (heading_line n (answers_so_far self.old) (map word_in slots.now) 0 (Ok [])
            Kind.Sources) result (answers_so_far self.new) }
    {
        let source = source_in(slots)?;
        self.lines = Vec::new(self.alloc);
        self.set_source(n, source)
    }

    /// Adds the line of a question about a pair.
    fn question_between(&mut self, slots: &[Slot]) -> Result<(), LineFault>
        ensures { Leaves (heading_line 0 (answers_so_far self.old) (map word_in slots.now) 0 (Ok [])
            Kind.Pairs) result (answers_so_far self.new) }
    {
        let pair = pair_in(slots)?;
        self.awaited = Awaited::Pair(pair.0, pair.1);
        Ok(())
    }

    /// Adds the line of a question from several sources.
    fn question_from_many(
        &mut self,
        n: u32,
        slots: &[Slot],
        present: &mut PresentNumbers,
    ) -> Result<(), LineFault>
        ensures { Leaves (heading_line n (answers_so_far self.old) (map word_in slots.now)
            present.old.count (numbers_given present.old) Kind.Multi) result
            (answers_so_far self.new) }
    {
        let sources = present.sources(self.alloc, slots)?;
        self.sources = sources;
        self.lines = Vec::new(self.alloc);
        self.set_sources(n)
    }

    /// Adds the line that names the next question, if there is another question.
    fn question(
        &mut self,
        n: u32,
        slots: &[Slot],
        present: &mut PresentNumbers,
    ) -> Result<(), LineFault>
        ensures { Leaves (answer_line n (answers_so_far self.old) (map word_in slots.now)
            present.old.count (numbers_given present.old) Between) result (answers_so_far self.new) }
    {
        if self.list.len() >= self.announced as usize {
            return Err(LineFault::Broken(MISPLACED));
        }
        match self.kind {
            Kind::Sources => self.question_from(n, slots),
            Kind::Pairs => self.question_between(slots),
            Kind::Multi => self.question_from_many(n, slots, present),
        }
    }

    /// Adds the line of the next vertex, from one source.
    fn vertex_from(&mut self, n: u32, slots: &[Slot], source: Vertex) -> Result<(), LineFault>
        ensures { Leaves (answer_line n (answers_so_far self.old) (map word_in slots.now) 0 (Ok [])
            (InLines (OneSource source) self.old.lines.items)) result (answers_so_far self.new) }
    {
        let line = vertex_in(slots, self.lines.len() as u64 + 1)?;
        push_item(&mut self.lines, line)?;
        self.set_source(n, source)
    }

    /// Adds the line of the next vertex, from several sources.
    fn vertex_from_many(&mut self, n: u32, slots: &[Slot]) -> Result<(), LineFault>
        ensures { Leaves (answer_line n (answers_so_far self.old) (map word_in slots.now) 0 (Ok [])
            (InLines (ManySources self.old.sources.items) self.old.lines.items)) result
            (answers_so_far self.new) }
    {
        let line = vertex_in(slots, self.lines.len() as u64 + 1)?;
        push_item(&mut self.lines, line)?;
        self.set_sources(n)
    }

    /// Adds the value of a pair.
    fn value(&mut self, slots: &[Slot], source: Vertex, target: Vertex) -> Result<(), LineFault>
        ensures { Leaves (answer_line 0 (answers_so_far self.old) (map word_in slots.now) 0 (Ok [])
            (AfterPair source target)) result (answers_so_far self.new) }
    {
        match found_in(slots)? {
            None => self.push(Answer::Pair {
                source,
                target,
                found: None,
            }),
            Some((code, hops)) => {
                self.awaited = Awaited::Found(source, target, code, hops);
                Ok(())
            }
        }
    }

    /// Adds the route of a pair.
    fn route(
        &mut self,
        slots: &[Slot],
        present: &mut PresentNumbers,
        source: Vertex,
        target: Vertex,
        code: u64,
        hops: u32,
    ) -> Result<(), LineFault>
        ensures { Leaves (answer_line 0 (answers_so_far self.old) (map word_in slots.now)
            present.old.count (numbers_given present.old) (AfterFound source target code hops))
            result (answers_so_far self.new) }
    {
        let route = present.route(self.alloc, slots)?;
        self.push(Answer::Pair {
            source,
            target,
            found: Some(Found { code, hops, route }),
        })
    }

    /// Adds a line after the header, over a graph with `n` vertices. The numbers of a list were
    /// taken before.
    pub fn add_line(
        &mut self,
        n: u32,
        slots: &[Slot],
        present: &mut PresentNumbers,
    ) -> Result<(), LineFault>
        ensures { Leaves (answer_line n (answers_so_far self.old) (map word_in slots.now)
            present.old.count (numbers_given present.old) (answers_so_far self.old).stage) result
            (answers_so_far self.new) }
    {
        let awaited = self.awaited;
        match awaited {
            Awaited::Between => self.question(n, slots, present),
            Awaited::Source(source) => self.vertex_from(n, slots, source),
            Awaited::Sources => self.vertex_from_many(n, slots),
            Awaited::Pair(source, target) => self.value(slots, source, target),
            Awaited::Found(source, target, code, hops) => self.route(
                slots, present, source, target, code, hops,
            ),
        }
    }
}
