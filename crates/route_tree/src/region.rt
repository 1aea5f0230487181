//! Regions of a graph, to which a tree may be restricted.

ghost use Rattle.std.specs.Prelude.{◌≡◌, ◌≤◌, IsSome, None, Some};
ghost use Rattle.route_tree.specs.Regions.{in_region};

use road_graph::Vertex;
use std::marker::Model;

/// All vertices of a graph, or those with a mark.
#[derive(Drop)]
pub(crate) struct Region {
    marks: Option<Vec<bool>>,
}

impl Model for Region {
    ghost use Rattle.std.specs.Prelude.{Bool, List, Option, option_map};

    ghost Value = { Option (List Bool) };

    ghost view = { λ r. option_map (λ m. m.items) r.marks };
}

impl Region {
    /// All vertices.
    pub(crate) fn all() -> Self
        ensures { result ≡ None }
    {
        Region { marks: None }
    }

    /// The vertices with a mark. Vertex 1 has the first one.
    pub(crate) fn marked(marks: Vec<bool>) -> Self
        ensures { result ≡ Some marks.items }
    {
        Region { marks: Some(marks) }
    }

    /// The marks of a region that has them.
    pub(crate) fn into_marks(self) -> Vec<bool>
        requires { IsSome self }
        ensures { self ≡ Some result.items }
    {
        self.marks.unwrap()
    }

    /// Whether a vertex is in the region.
    pub(crate) fn has(&self, v: Vertex) -> bool
        requires { 1 ≤ v }
        ensures { result ≡ in_region self.now v }
    {
        match &self.marks {
            Some(marks) => match marks.get(v.0 as usize - 1) {
                Some(mark) => *mark,
                None => false,
            },
            None => true,
        }
    }
}
