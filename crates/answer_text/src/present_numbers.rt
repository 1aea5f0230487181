//! What is kept of the fields of the present line: if it begins with `r` or `m`, also its numbers.
ghost use Rattle.std.specs.Prelude.{◌≡◌, ℕ, ◌+◌, ◌≤◌, ◌<◌, ◌&&◌, nat_lt, min, map, codes, false, ◌++◌, ◌∷◌, [], List, OnOk, IfErr, MatchResult, Ok};
ghost use Rattle.text_lines.specs.Slots.{word_in};
ghost use Rattle.text_lines.specs.Takes.{Breaks};
ghost use Rattle.text_lines.specs.Words.{held_word};
ghost use Rattle.answer_text.specs.AnswerFiles.{begins, list_line, route_line, sources_line};
ghost use Rattle.answer_text.specs.AnswerTakes.{NumbersSoFar, numbers_given, one_number_more};

use crate::answer_lines::begins;
use crate::number_fields::number_of;
use crate::rules::{FIELDS, MISPLACED};
use road_graph::Vertex;
use std::alloc::Global;
use text_lines::{LineFault, Rule, Slot, push_item};

/// The most fields of a line of sources: its letter and 1,024 numbers.
const MAX_FIELDS: u32 = 1_025;

/// Fields are counted up to this many: more than any list of sources has.
const COUNTED: u32 = 1_026;

/// What is kept of the fields of the present line.
#[derive(Drop)]
pub struct PresentNumbers {
    /// How many fields there are, at most 1,026.
    pub count: u32,
    /// Whether the first of them is `r` or `m`.
    pub is_list: bool,
    /// Whether it is `r`, after which any number of fields may follow.
    pub is_route: bool,
    /// The numbers after it, up to the first field that is none; after `m` only the first 1,024.
    pub numbers: Vec<Vertex>,
    /// The rule that the first such field breaks.
    pub broken: Option<Rule>,
}

/// The count after one more field.
fn counted(count: u32) -> u32
    ensures { result ≡ min (count + 1) 1026 }
{
    if count < COUNTED { count + 1 } else { COUNTED }
}

impl PresentNumbers {
    /// A line without fields so far.
    pub fn new(alloc: Global) -> Self
        ensures { NumbersSoFar result [] }
    {
        PresentNumbers {
            count: 0,
            is_list: false,
            is_route: false,
            numbers: Vec::new(alloc),
            broken: None,
        }
    }

    /// Begins a new line.
    pub fn restart(&mut self)
        ensures { NumbersSoFar self.new [] }
    {
        self.count = 0;
        self.is_list = false;
        self.is_route = false;
    }

    /// Takes one more number, or the first field that is none.
    fn add(&mut self, slot: &Slot) -> Result<(), LineFault>
        ensures numbers { OnOk result (numbers_given self.new ≡ one_number_more
            (numbers_given self.old) (word_in slot.now).number) }
        ensures rest { (self.new.count ≡ self.old.count) × (self.new.is_list ≡ self.old.is_list) ×
            (self.new.is_route ≡ self.old.is_route) }
        ensures memory { IfErr result (λ e. e ≡ LineFault.Memory) }
    {
        if self.broken.is_some() {
            return Ok(());
        }
        match number_of(slot) {
            Ok(number) => push_item(&mut self.numbers, Vertex(number)),
            Err(LineFault::Memory) => Err(LineFault::Memory),
            Err(LineFault::Broken(rule)) => {
                self.broken = Some(rule);
                Ok(())
            }
        }
    }

    /// Takes the next field of the line.
    pub fn field(&mut self, slot: &Slot) -> Result<(), LineFault>
        ensures told { OnOk result ((fs : List (List ℕ)) (f : List ℕ) → NumbersSoFar self.old fs →
            word_in slot.now ≡ held_word f → NumbersSoFar self.new (fs ++ f ∷ [])) }
        ensures few { 1025 ≤ self.old.count → self.old.is_route ≡ false → self.new.numbers.items ≡
            self.old.numbers.items }
        ensures memory { IfErr result (λ e. e ≡ LineFault.Memory) }
    {
        if self.count == 0 {
            self.numbers.clear();
            self.broken = None;
            self.is_route = slot.is_word(b"r");
            self.is_list = self.is_route || slot.is_word(b"m");
            self.count = 1;
            return Ok(());
        }
        self.count = counted(self.count);
        if self.is_list && (self.is_route || self.count < COUNTED) {
            return self.add(slot);
        }
        Ok(())
    }

    /// The numbers of the present line; `letter` says whether its letter belongs here, `enough`
    /// whether its number of fields is right.
    fn complete(
        &mut self,
        alloc: Global,
        letter: bool,
        enough: bool,
    ) -> Result<Vec<Vertex>, LineFault>
        ensures { MatchResult result (λ v. list_line letter enough (numbers_given self.old) ≡ Ok
            v.items) (Breaks (list_line letter enough (numbers_given self.old))) }
    {
        if !letter {
            return Err(LineFault::Broken(MISPLACED));
        }
        if !enough {
            return Err(LineFault::Broken(FIELDS));
        }
        if let Some(rule) = self.broken {
            return Err(LineFault::Broken(rule));
        }
        Ok(std::mem::replace(&mut self.numbers, Vec::new(alloc)))
    }

    /// The sources of `m SOURCE ..`.
    #[tactic(auto, unfolding(crate::specs::AnswerFiles::sources_line))]
    pub fn sources(&mut self, alloc: Global, slots: &[Slot]) -> Result<Vec<Vertex>, LineFault>
        ensures { MatchResult result (λ v. sources_line (map word_in slots.now) self.old.count
            (numbers_given self.old) ≡ Ok v.items)
            (Breaks (sources_line (map word_in slots.now) self.old.count (numbers_given self.old))) }
    {
        let enough = 1 < self.count && self.count <= MAX_FIELDS;
        self.complete(alloc, begins(slots, b"m"), enough)
    }

    /// The vertices of `r V1 ..`.
    pub fn route(&mut self, alloc: Global, slots: &[Slot]) -> Result<Vec<Vertex>, LineFault>
        ensures { MatchResult result (λ v. route_line (map word_in slots.now) self.old.count
            (numbers_given self.old) ≡ Ok v.items)
            (Breaks (route_line (map word_in slots.now) self.old.count (numbers_given self.old))) }
    {
        let enough = 1 < self.count;
        self.complete(alloc, begins(slots, b"r"), enough)
    }
}
