//! The questions of a file so far.
ghost use Rattle.std.specs.Prelude.{◌≡◌, ◌≤◌, All, length, map, IfOk, MatchResult, Some, true, Ok};
ghost use Rattle.text_lines.specs.Slots.{word_in};
ghost use Rattle.text_lines.specs.Takes.{Leaves, Breaks};
ghost use Rattle.graph_text.specs.Vertices.{IsVertexOf};
ghost use Rattle.road_files.specs.Asked.{FromSource, of_source, of_pair, of_list, asked_of, AreQuestionsOf, AskWithin, AskWithin-prop};
ghost use Rattle.road_files.specs.QuestionFiles.{source_of_line, pair_of_line, sources_of_line, one_more, one_question, question_end};
ghost use Rattle.road_files.specs.Vertices.{IsVertexPairOf, AreSourcesOf};

use crate::present_list::PresentList;
use crate::questions::{Kind, Questions};
use graph_text::rules::{FIELDS, TOO_FEW, TOO_MANY, UNKNOWN_LINE};
use graph_text::vertex_of;
use road_graph::Vertex;
use std::alloc::Global;
use text_lines::{LineFault, Slot, push_item};

/// The vertex on the line of a source.
#[tactic(auto, unfolding(crate::specs::QuestionFiles::source_of_line))]
fn source_in(slots: &[Slot], vertices: u32) -> Result<Vertex, LineFault>
    ensures rule { MatchResult result (λ v. source_of_line vertices (map word_in slots.now) ≡ Ok
        (FromSource v)) (Breaks (source_of_line vertices (map word_in slots.now))) }
    ensures within { IfOk result (IsVertexOf vertices) }
{
    if slots.len() != 2 {
        return Err(LineFault::Broken(FIELDS));
    }
    vertex_of(&slots[1], vertices)
}

/// The vertices on the line of a pair.
#[tactic(auto, unfolding(crate::specs::QuestionFiles::pair_of_line))]
fn pair_in(slots: &[Slot], vertices: u32) -> Result<(Vertex, Vertex), LineFault>
    ensures rule { MatchResult result (λ p. pair_of_line vertices (map word_in slots.now) ≡ Ok
        (of_pair p)) (Breaks (pair_of_line vertices (map word_in slots.now))) }
    ensures within { IfOk result (IsVertexPairOf vertices) }
{
    if slots.len() != 3 {
        return Err(LineFault::Broken(FIELDS));
    }
    let source = vertex_of(&slots[1], vertices)?;
    let target = vertex_of(&slots[2], vertices)?;
    Ok((source, target))
}

fn add_source(
    sources: &mut Vec<Vertex>,
    announced: u32,
    vertices: u32,
    slots: &[Slot],
) -> Result<(), LineFault>
    ensures rule { Leaves (one_more announced (map of_source sources.old.items)
        (source_of_line vertices (map word_in slots.now))) result (map of_source sources.new.items) }
    ensures within { All (IsVertexOf vertices) sources.old.items → All (IsVertexOf vertices)
        sources.new.items }
    ensures room { length sources.old.items ≤ announced → length sources.new.items ≤ announced }
{
    if sources.len() >= announced as usize {
        return Err(LineFault::Broken(TOO_MANY));
    }
    let source = source_in(slots, vertices)?;
    push_item(sources, source)
}

fn add_pair(
    pairs: &mut Vec<(Vertex, Vertex)>,
    announced: u32,
    vertices: u32,
    slots: &[Slot],
) -> Result<(), LineFault>
    ensures rule { Leaves (one_more announced (map of_pair pairs.old.items)
        (pair_of_line vertices (map word_in slots.now))) result (map of_pair pairs.new.items) }
    ensures within { All (IsVertexPairOf vertices) pairs.old.items → All (IsVertexPairOf vertices)
        pairs.new.items }
    ensures room { length pairs.old.items ≤ announced → length pairs.new.items ≤ announced }
{
    if pairs.len() >= announced as usize {
        return Err(LineFault::Broken(TOO_MANY));
    }
    let pair = pair_in(slots, vertices)?;
    push_item(pairs, pair)
}

/// What the problem line announced, and the questions so far.
#[derive(Drop)]
pub struct QuestionsBuilder {
    /// The number of vertices of the graph.
    pub vertices: u32,
    /// How many questions are announced.
    pub announced: u32,
    pub questions: Questions,
    ghost few: { announced ≤ 1048576 },
    ghost room: { length (asked_of questions).questions ≤ announced },
    ghost within: { AskWithin vertices questions } by { AskWithin-prop vertices questions },
}

impl QuestionsBuilder {
    ghost use Rattle.road_files.specs.QuestionTakes.{sources_given, asked_so_far};

    fn add_list(
        lists: &mut Vec<Vec<Vertex>>,
        announced: u32,
        list: &mut PresentList,
        alloc: Global,
    ) -> Result<(), LineFault>
        requires { list.old.is_list ≡ true }
        ensures rule { Leaves (one_more announced (map of_list lists.old.items)
            (sources_of_line list.old.count (sources_given list.old))) result
            (map of_list lists.new.items) }
        ensures within { All (λ l. AreSourcesOf list.old.vertices l.items) lists.old.items →
            All (λ l. AreSourcesOf list.old.vertices l.items) lists.new.items }
        ensures room { length lists.old.items ≤ announced → length lists.new.items ≤ announced }
        ensures vertices { list.new.vertices ≡ list.old.vertices }
    {
        if lists.len() >= announced as usize {
            return Err(LineFault::Broken(TOO_MANY));
        }
        let sources = list.complete(alloc)?;
        push_item(lists, sources)
    }

    /// Adds the question of a source.
    pub fn source(&mut self, slots: &[Slot]) -> Result<(), LineFault>
        ensures rule { Leaves (one_question Kind.Sources (Some (asked_so_far self.old))
            (source_of_line self.old.vertices (map word_in slots.now))) result
            (Some (asked_so_far self.new)) }
        ensures vertices { self.new.vertices ≡ self.old.vertices }
        ensures kind { (asked_of self.new.questions).kind ≡ (asked_of self.old.questions).kind }
    {
        match &mut self.questions {
            Questions::Sources(sources) => add_source(
                sources,
                self.announced,
                self.vertices,
                slots,
            ),
            Questions::Pairs(_) | Questions::Multi(_) => Err(LineFault::Broken(UNKNOWN_LINE)),
        }
    }

    /// Adds the question of a pair.
    pub fn pair(&mut self, slots: &[Slot]) -> Result<(), LineFault>
        ensures rule { Leaves (one_question Kind.Pairs (Some (asked_so_far self.old))
            (pair_of_line self.old.vertices (map word_in slots.now))) result
            (Some (asked_so_far self.new)) }
        ensures vertices { self.new.vertices ≡ self.old.vertices }
        ensures kind { (asked_of self.new.questions).kind ≡ (asked_of self.old.questions).kind }
    {
        match &mut self.questions {
            Questions::Pairs(pairs) => add_pair(pairs, self.announced, self.vertices, slots),
            Questions::Sources(_) | Questions::Multi(_) => Err(LineFault::Broken(UNKNOWN_LINE)),
        }
    }

    /// Adds the question of a list, whose fields were taken before.
    pub fn list(&mut self, list: &mut PresentList, alloc: Global) -> Result<(), LineFault>
        requires is_list { list.old.is_list ≡ true }
        requires graph { list.old.vertices ≡ self.old.vertices }
        ensures rule { Leaves (one_question Kind.Multi (Some (asked_so_far self.old))
            (sources_of_line list.old.count (sources_given list.old))) result
            (Some (asked_so_far self.new)) }
        ensures vertices { self.new.vertices ≡ self.old.vertices }
        ensures kind { (asked_of self.new.questions).kind ≡ (asked_of self.old.questions).kind }
        ensures list { list.new.vertices ≡ list.old.vertices }
    {
        match &mut self.questions {
            Questions::Multi(lists) => QuestionsBuilder::add_list(
                lists,
                self.announced,
                list,
                alloc,
            ),
            Questions::Sources(_) | Questions::Pairs(_) => Err(LineFault::Broken(UNKNOWN_LINE)),
        }
    }

    /// All announced questions, if they are there.
    pub fn complete(self) -> Result<Questions, LineFault>
        ensures rule { MatchResult result (λ q. question_end (Some (asked_so_far self)) ≡ Ok
            (asked_of q)) (Breaks (question_end (Some (asked_so_far self)))) }
        ensures fit { IfOk result (AreQuestionsOf self.vertices) }
        ensures kind { IfOk result (λ q. (asked_of q).kind ≡ (asked_of self.questions).kind) }
    {
        if self.questions.len() < self.announced as usize {
            return Err(LineFault::Broken(TOO_FEW));
        }
        Ok(self.questions)
    }
}
