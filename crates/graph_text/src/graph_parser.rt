//! Parses the lines of a graph file.
ghost use Rattle.std.specs.Prelude.{◌≡◌, ◌<◌, ◌≤◌, ◌++◌, ◌∷◌, [], None, length, map, refl, OnOk, IfOk, IfErr, MatchResult, option_map, true, false, ℕ, List, Ok};
ghost use Rattle.text_lines.specs.Slots.{word_in};
ghost use Rattle.text_lines.specs.Lines.{fields};
ghost use Rattle.text_lines.specs.ShortLines.{HasShortFields};
ghost use Rattle.text_lines.specs.Takes.{Leaves, Breaks};
ghost use Rattle.text_lines.specs.Words.{word_of};
ghost use Rattle.graph_text.specs.GraphFiles.{one_arc, gr_problem, gr_arc, gr_line, gr_whole, graph_read};
ghost use Rattle.graph_text.specs.GraphTakes.{roads_so_far, FitsArc, HoldsNoRoom};

use crate::graph_builder::GraphBuilder;
use crate::number_fields::number_up_to;
use crate::rules::{BAD_PROBLEM, NO_PROBLEM, SECOND_PROBLEM, UNKNOWN_LINE};
use std::alloc::Global;
use text_lines::{LineFault, Slot};

/// The most vertices of a graph.
const MAX_VERTICES: u32 = 33_554_432;

/// The most arcs of a graph.
const MAX_ARCS: u32 = 134_217_728;

/// Parses the lines of a graph file.
#[derive(Drop)]
pub struct GraphParser {
    pub alloc: Global,
    pub taken: Option<GraphBuilder>,
}

impl GraphParser {
    ghost use Rattle.graph_text.specs.GraphTakes.{taken_of};

    /// A parser before the first line.
    pub fn new(alloc: Global) -> Self
        ensures { taken_of result ≡ None }
    {
        GraphParser { alloc, taken: None }
    }

    #[tactic(auto, unfolding(crate::specs::GraphFiles::gr_problem))]
    fn problem(&mut self, slots: &[Slot]) -> Result<(), LineFault>
        ensures line { Leaves (gr_problem (taken_of self.old) (map word_in slots.now)) result
            (taken_of self.new) }
        ensures unreserved { OnOk result (HoldsNoRoom self.new.taken) }
    {
        match &self.taken {
            Some(_) => return Err(LineFault::Broken(SECOND_PROBLEM)),
            None => {}
        }
        if slots.len() != 4 || !slots[1].is_word(b"sp") {
            return Err(LineFault::Broken(BAD_PROBLEM));
        }
        let vertices = number_up_to(&slots[2], MAX_VERTICES)?;
        let announced = number_up_to(&slots[3], MAX_ARCS)?;
        self.taken = Some(GraphBuilder {
            vertices,
            announced,
            arcs: Vec::new(self.alloc),
        });
        Ok(())
    }

    fn arc(&mut self, slots: &[Slot]) -> Result<(), LineFault>
        ensures { Leaves (gr_arc (taken_of self.old) (map word_in slots.now)) result
            (taken_of self.new) }
    {
        match &mut self.taken {
            None => Err(LineFault::Broken(NO_PROBLEM)),
            Some(taken) => taken.add(slots),
        }
    }

    /// Takes a whole arc line if it breaks no rule and there is room for the arc. Else it changes
    /// nothing.
    pub fn short(&mut self, letter: u8, numbers: (u64, u64, u64)) -> bool
        ensures left { result ≡ false → self.new ≡ self.old }
        ensures letter { result ≡ true → letter ≡ 97 }
        ensures taken { result ≡ true → (l : List ℕ) → HasShortFields l letter numbers.0 numbers.1
            numbers.2 → gr_line (taken_of self.old) (map word_of (fields l)) ≡ Ok
            (taken_of self.new) }
    {
        if letter != b'a' {
            return false;
        }
        match &mut self.taken {
            None => false,
            Some(taken) => taken.short_arc(numbers),
        }
    }

    /// Parses a line by its first six fields.
    #[tactic(auto, unfolding(crate::specs::GraphFiles::gr_line))]
    pub fn parse_line(&mut self, slots: &[Slot]) -> Result<(), LineFault>
        ensures line { Leaves (gr_line (taken_of self.old) (map word_in slots.now)) result
            (taken_of self.new) }
        ensures unreserved { OnOk result (self.old.taken ≡ None → HoldsNoRoom self.new.taken) }
    {
        if slots.is_empty() || slots[0].begins_with(b'c') {
            return Ok(());
        }
        if slots[0].is_word(b"p") {
            return self.problem(slots);
        }
        if slots[0].is_word(b"a") {
            return self.arc(slots);
        }
        Err(LineFault::Broken(UNKNOWN_LINE))
    }
}
