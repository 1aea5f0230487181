//! The vertices that a search has labelled, noted so that it can be put back.

ghost use Rattle.std.specs.Prelude.{◌≡◌, [], None, OnErr, OnOk, Some, false, length, option_map, replicate};
ghost use Rattle.path_plain.specs.Noting.{AreNoted, noted_if, noted_list};

use path_algebra::Labels;
use road_graph::{Memory, Vertex};
use std::alloc::{AllocError, Global};
use std::marker::Model;

/// A list of vertices, or none: a search that is used once notes nothing.
#[derive(Drop)]
pub(crate) struct Touched {
    list: Option<Vec<Vertex>>,
}

impl Model for Touched {
    ghost use Rattle.std.specs.Prelude.{ℕ, List, Option, option_map};

    ghost Value = { Option (List ℕ) };

    ghost view = { λ t. option_map (λ l. l.items) t.list };
}

impl Touched {
    /// No list.
    pub(crate) fn unnoted() -> Self
        ensures { result ≡ None }
    {
        Touched { list: None }
    }

    /// An empty list.
    pub(crate) fn new(alloc: Global) -> Self
        ensures { result ≡ Some [] }
    {
        Touched {
            list: Some(Vec::new(alloc)),
        }
    }

    /// Puts a vertex on the list, if there is one and the vertex is new to it.
    pub(crate) fn note_if(&mut self, v: Vertex, is_new: bool) -> Result<(), Memory>
        ensures noted { OnOk result (self.new ≡ noted_if is_new self.old v) }
        ensures kept { OnErr result (self.new ≡ self.old) }
    {
        match &mut self.list {
            Some(list) if is_new => list.push(v).map_err(AllocError::from)?,
            _ => {}
        }
        Ok(())
    }

    /// The vertices on the list.
    pub(crate) fn vertices(&self) -> &[Vertex]
        ensures { result.now ≡ noted_list self.now }
    {
        match &self.list {
            Some(list) => list.as_slice(),
            None => &[],
        }
    }

    /// Takes all vertices off the list.
    pub(crate) fn clear(&mut self)
        ensures { self.new ≡ option_map (λ _. []) self.old }
    {
        if let Some(list) = &mut self.list {
            list.clear();
        }
    }
}

/// Takes away the label and the mark of each vertex of a list. No other vertex has one.
pub(crate) fn put_back<V: Copy>(labels: &mut Labels<V>, settled: &mut Vec<bool>, list: &[Vertex])
    requires count { length settled.old.items ≡ length labels.old }
    requires noted { AreNoted (length labels.old) list.now labels.old settled.old.items }
    ensures labels { labels.new ≡ replicate (length labels.old) None }
    ensures marks { settled.new.items ≡ replicate (length labels.old) false }
{
    for v in list {
        labels.set(*v, None);
        settled[v.0 as usize - 1] = false;
    }
}
