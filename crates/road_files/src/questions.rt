//! Questions over a road graph, in memory.
ghost use Rattle.std.specs.Prelude.{◌≡◌, ◌↔◌, IsTrue};

use road_graph::Vertex;
use text_lines::Slot;

/// What kind of questions a file has.
#[derive(Clone, Copy, Debug, PartialEq, Eq)]
pub enum Kind {
    /// From one source to all vertices.
    Sources,
    /// From one vertex to another.
    Pairs,
    /// From the nearest of several sources to all vertices.
    Multi,
}

impl Kind {
    ghost use Rattle.std.specs.Prelude.{◌≡◌, ◌≤◌, length};
    ghost use Rattle.text_lines.specs.Slots.{word_in};
    ghost use Rattle.road_files.specs.QuestionFiles.{kind_named};
    ghost use Rattle.road_files.specs.WrittenQuestions.{kind_word};

    /// The word that names the kind.
    pub fn word(self) -> &'static str
        ensures word { result.now ≡ kind_word self }
        ensures short { length result.now ≤ 3 }
    {
        match self {
            Kind::Sources => "ss",
            Kind::Pairs => "p2p",
            Kind::Multi => "ms",
        }
    }

    /// The kind that a field names.
    pub fn named(slot: &Slot) -> Option<Kind>
        ensures { result ≡ kind_named (word_in slot.now).text }
    {
        if slot.is_word(b"ss") {
            return Some(Kind::Sources);
        }
        if slot.is_word(b"p2p") {
            return Some(Kind::Pairs);
        }
        if slot.is_word(b"ms") {
            return Some(Kind::Multi);
        }
        None
    }
}

/// Whether two lists have the same vertices, in the same order.
pub fn are_same(these: &[Vertex], those: &[Vertex]) -> bool
    ensures { IsTrue result ↔ (these.now ≡ those.now) }
{
    these == those
}

/// The questions of a file, in order.
#[derive(Debug, Drop)]
pub enum Questions {
    /// The source of each question.
    Sources(Vec<Vertex>),
    /// The source and the target of each question.
    Pairs(Vec<(Vertex, Vertex)>),
    /// The sources of each question.
    Multi(Vec<Vec<Vertex>>),
}

impl Questions {
    ghost use Rattle.std.specs.Prelude.{◌≡◌, ◌<◌, ◌↔◌, [], length, slice_index_or, IsTrue};
    ghost use Rattle.road_files.specs.Asked.{Question, asked_of, sources_of};

    /// How many questions there are.
    pub fn len(&self) -> usize
        ensures { result ≡ length (asked_of self.now).questions }
    {
        match self {
            Questions::Sources(sources) => sources.len(),
            Questions::Pairs(pairs) => pairs.len(),
            Questions::Multi(lists) => lists.len(),
        }
    }

    /// Whether there are none.
    pub fn is_empty(&self) -> bool
        ensures { IsTrue result ↔ ((asked_of self.now).questions ≡ []) }
    {
        self.len() == 0
    }

    /// The sources of the question at an index, in order.
    pub fn sources(&self, i: usize) -> &[Vertex]
        requires { i < length (asked_of self.now).questions }
        ensures { (default : Question) → result.now ≡ sources_of
            (slice_index_or (asked_of self.now).questions i default) }
    {
        match self {
            Questions::Sources(sources) => std::slice::from_ref(&sources[i]),
            Questions::Pairs(pairs) => std::slice::from_ref(&pairs[i].0),
            Questions::Multi(lists) => lists[i].as_slice(),
        }
    }

    /// Their kind.
    pub fn kind(&self) -> Kind
        ensures { result ≡ (asked_of self.now).kind }
    {
        match self {
            Questions::Sources(_) => Kind::Sources,
            Questions::Pairs(_) => Kind::Pairs,
            Questions::Multi(_) => Kind::Multi,
        }
    }
}
