//! What a step of a search did.

ghost use Rattle.std.specs.Prelude.{◌≡◌};
ghost use Rattle.tree_search.specs.Searching.{is_end};

use road_graph::Vertex;

/// It settled a vertex, dropped the entry of one that was settled already, or found no entry.
#[derive(Clone, Copy)]
pub(crate) enum Step {
    Settled(Vertex),
    Dropped,
    Ended,
}

impl Step {
    /// Whether the search is at its end.
    pub(crate) fn is_end(&self) -> bool
        ensures { result ≡ is_end self.now }
    {
        match self {
            Step::Ended => true,
            _ => false,
        }
    }
}
