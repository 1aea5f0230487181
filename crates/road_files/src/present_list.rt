//! What is kept of the fields of the present line: if it begins with `m`, also the vertices of its
//! list.
ghost use Rattle.std.specs.Prelude.{◌≡◌, ℕ, ◌+◌, ◌<◌, ◌≤◌, ◌++◌, ◌∷◌, [], List, length, All, OnOk, IfOk, IfErr, MatchResult, true, None, Ok};
ghost use Rattle.text_lines.specs.Slots.{word_in};
ghost use Rattle.text_lines.specs.Takes.{Breaks};
ghost use Rattle.text_lines.specs.Words.{held_word};
ghost use Rattle.graph_text.specs.Vertices.{IsVertexOf};
ghost use Rattle.road_files.specs.Asked.{FromSources};
ghost use Rattle.road_files.specs.QuestionFiles.{one_vertex_more, sources_of_line};
ghost use Rattle.road_files.specs.Vertices.{AreSourcesOf};

use graph_text::rules::FIELDS;
use graph_text::vertex_of;
use road_graph::Vertex;
use std::alloc::Global;
use text_lines::{LineFault, Rule, Slot, push_item};

/// The most fields of a line with a list: its letter and 1,024 sources.
const MAX_FIELDS: u32 = 1_025;

/// What is kept of the fields of the present line.
#[derive(Drop)]
pub struct PresentList {
    /// The number of vertices of the graph.
    pub vertices: u32,
    /// How many fields there are, at most 1,026.
    pub count: u32,
    /// Whether the first of them is `m`.
    pub is_list: bool,
    /// The vertices after an `m`, up to the first field that is none.
    pub sources: Vec<Vertex>,
    /// The rule that the first such field breaks.
    pub broken: Option<Rule>,
    ghost few: { vertices < 4294967296 },
    ghost within: { All (IsVertexOf vertices) sources.items },
    ghost counted: { is_list ≡ true → broken ≡ None → count ≤ 1025 → length sources.items + 1 ≡ count },
}

impl PresentList {
    ghost use Rattle.road_files.specs.QuestionTakes.{ListSoFar, sources_given};

    /// A line without fields so far, over a graph with this number of vertices.
    pub fn new(alloc: Global, vertices: u32) -> Self
        ensures vertices { result.vertices ≡ vertices }
        ensures ready { ListSoFar result [] }
    {
        PresentList {
            vertices,
            count: 0,
            is_list: false,
            sources: Vec::new(alloc),
            broken: None,
        }
    }

    /// Begins a new line.
    pub fn restart(&mut self)
        ensures vertices { self.new.vertices ≡ self.old.vertices }
        ensures ready { ListSoFar self.new [] }
    {
        self.count = 0;
        self.is_list = false;
    }

    /// Takes one more vertex of the present list, or the first field that is none.
    fn add(&mut self, slot: &Slot) -> Result<(), LineFault>
        requires counted { self.old.count ≤ 1025 }
        ensures sources { OnOk result (sources_given self.new ≡ one_vertex_more self.old.vertices
            (sources_given self.old) (word_in slot.now).number) }
        ensures rest { OnOk result ((self.new.count ≡ self.old.count + 1) ×
            (self.new.is_list ≡ self.old.is_list)) }
        ensures vertices { self.new.vertices ≡ self.old.vertices }
        ensures memory { IfErr result (λ e. e ≡ LineFault.Memory) }
    {
        if self.broken.is_some() {
            self.count += 1;
            return Ok(());
        }
        match vertex_of(slot, self.vertices) {
            Ok(vertex) => push_item(&mut self.sources, vertex)?,
            Err(LineFault::Memory) => return Err(LineFault::Memory),
            Err(LineFault::Broken(rule)) => self.broken = Some(rule),
        }
        self.count += 1;
        Ok(())
    }

    /// Takes the next field of the line.
    pub fn field(&mut self, slot: &Slot) -> Result<(), LineFault>
        ensures told { OnOk result ((fs : List (List ℕ)) (f : List ℕ) → ListSoFar self.old fs →
            word_in slot.now ≡ held_word f → ListSoFar self.new (fs ++ f ∷ [])) }
        ensures vertices { self.new.vertices ≡ self.old.vertices }
        ensures memory { IfErr result (λ e. e ≡ LineFault.Memory) }
    {
        if self.count == 0 {
            self.sources.clear();
            self.broken = None;
            self.is_list = slot.is_word(b"m");
            self.count = 1;
            return Ok(());
        }
        if self.count > MAX_FIELDS {
            return Ok(());
        }
        if self.is_list {
            return self.add(slot);
        }
        self.count += 1;
        Ok(())
    }

    /// The sources of the present list, at the end of its line. The list is empty after a success.
    #[tactic(auto, unfolding(crate::specs::QuestionFiles::sources_of_line))]
    pub fn complete(&mut self, alloc: Global) -> Result<Vec<Vertex>, LineFault>
        requires { self.old.is_list ≡ true }
        ensures rule { MatchResult result (λ v. sources_of_line self.old.count
            (sources_given self.old) ≡ Ok (FromSources v.items))
            (Breaks (sources_of_line self.old.count (sources_given self.old))) }
        ensures within { IfOk result (λ v. AreSourcesOf self.old.vertices v.items) }
        ensures vertices { self.new.vertices ≡ self.old.vertices }
    {
        if self.count < 2 || self.count > MAX_FIELDS {
            return Err(LineFault::Broken(FIELDS));
        }
        if let Some(rule) = self.broken {
            return Err(LineFault::Broken(rule));
        }
        let sources = std::mem::replace(&mut self.sources, Vec::new(alloc));
        self.count = 0;
        self.is_list = false;
        Ok(sources)
    }
}
