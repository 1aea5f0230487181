//! The vertices of a part, and the place of each among them.
ghost use Rattle.std.specs.Prelude.{◌≡◌, ◌∷◌, ◌+◌, ◌-◌, ◌<◌, ◌≤◌, ◌^◌, length, get_or, slice_index, Contains};
ghost use Rattle.std.specs.List.{range_with_len};
ghost use Rattle.std.specs.List.Sorted.{IsStrictlyIncreasing};

use road_graph::Vertex;
use std::marker::Model;

/// How the vertices of a shard are kept.
#[derive(Drop)]
enum Places {
    /// As the first of them and their number, since they are consecutive: no list is made.
    Run { first: Vertex, count: u32 },
    /// As a list that begins with the environment. A vertex is found by a search in it.
    Listed(Vec<Vertex>),
}

/// The environment, then the vertices of a shard, ascending.
#[derive(Drop)]
pub struct LocalVertices {
    places: Places,
}

impl Model for LocalVertices {
    ghost use Rattle.std.specs.Prelude.{ℕ, List};
    ghost use Rattle.shard_store.specs.Tables.{listed, ArePlacesInRange};

    ghost Value = { List ℕ };

    ghost view = { λ o. listed o.places };

    ghost invariant = { λ o. ArePlacesInRange o.places };
}

impl LocalVertices {
    /// The environment, then `count` vertices from the first on.
    pub fn run(first: Vertex, count: u32) -> LocalVertices
        requires vertex { 1 ≤ first }
        requires within { first + count ≤ 2 ^ 32 }
        ensures { result ≡ 0 ∷ range_with_len first count }
    {
        LocalVertices {
            places: Places::Run { first, count },
        }
    }

    /// Those of a list.
    pub fn listed(list: Vec<Vertex>) -> LocalVertices
        ensures { result ≡ list.items }
    {
        LocalVertices {
            places: Places::Listed(list),
        }
    }

    /// How many they are, with the environment.
    pub fn len(&self) -> usize
        ensures { result ≡ length self.now }
    {
        match &self.places {
            Places::Run { count, .. } => *count as usize + 1,
            Places::Listed(list) => list.len(),
        }
    }

    /// The vertex at a place.
    pub fn vertex(&self, j: usize) -> Vertex
        requires { j < length self.now }
        ensures { result ≡ get_or self.now j 0 }
    {
        match &self.places {
            Places::Run { first, .. } => vertex_in_run(*first, j),
            Places::Listed(list) => list[j],
        }
    }

    /// The place of a vertex among them.
    pub fn find(&self, v: Vertex) -> usize
        requires increasing { IsStrictlyIncreasing self.now }
        requires contained { Contains self.now v }
        ensures inside { result < length self.now }
        ensures found { slice_index self.now result ≡ v }
    {
        match &self.places {
            Places::Run { first, .. } => place_in_run(*first, v),
            Places::Listed(list) => find_vertex(list, v),
        }
    }
}

/// The vertex at a place of a run; the environment is at place 0.
fn vertex_in_run(first: Vertex, j: usize) -> Vertex
    requires { first + j ≤ 2 ^ 32 }
    ensures environment { j ≡ 0 → result ≡ 0 }
    ensures behind { 1 ≤ j → result ≡ first + (j - 1) }
{
    if j == 0 {
        Vertex(0)
    } else {
        Vertex(first.0 + (j - 1) as u32)
    }
}

/// The place of a vertex in a run, and 0 for the environment.
fn place_in_run(first: Vertex, v: Vertex) -> usize
    ensures behind { first ≤ v → result ≡ v - first + 1 }
    ensures before { v < first → result ≡ 0 }
{
    if first.0 <= v.0 {
        (v.0 - first.0) as usize + 1
    } else {
        0
    }
}

/// The place of a vertex in an increasing list.
fn find_vertex(list: &[Vertex], v: Vertex) -> usize
    requires increasing { IsStrictlyIncreasing list.now }
    requires contained { Contains list.now v }
    ensures inside { result < length list.now }
    ensures found { slice_index list.now result ≡ v }
{
    // The list has the vertex, so the search finds it and never returns an insertion point.
    match list.binary_search(&v) {
        Ok(at) | Err(at) => at,
    }
}
