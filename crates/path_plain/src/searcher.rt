//! Pairs of one graph, one after the other: the lists of the search stay.

ghost use Rattle.std.specs.Prelude.{◌≡◌, ◌↔◌, ◌∷◌, [], IfOk, IsTrue, None, OnOk, Some, false};
ghost use Rattle.road_graph.specs.GraphData.{HasVertex};
ghost use Rattle.halting.specs.Halting.{CanHalt};
ghost use Rattle.path_plain.specs.Rounds.{Between};
ghost use Rattle.path_plain.specs.Searcher.{IsSearcher};
ghost use Rattle.path_plain.specs.Searching.{IsOfSame};
ghost use Rattle.path_plain.specs.UpTo.{AreBestUpTo};

use crate::search::Search;
use crate::touched::Touched;
use halting::Halt;
use path_algebra::{Labels, PathAlgebra};
use road_graph::{Memory, OutGraph, Vertex};
use std::alloc::Global;
use std::marker::Model;

/// A search for the pairs of a graph. Its lists of all vertices are made once.
///
/// Between two pairs only what the search has touched is put back, and nothing if their source is
/// the same: then the search goes on from where it stopped.
#[derive(Drop)]
pub struct Searcher<A: PathAlgebra> {
    search: Search<A>,
    /// Where the search began; none while it has not begun, or after a growth was refused.
    source: Option<Vertex>,
}

impl<A: PathAlgebra> Model for Searcher<A> {
    ghost use Rattle.path_plain.specs.Searcher.{SearcherState, IsSearcher};

    ghost Value = { SearcherState A A.Value };

    ghost view = { λ s. record { algebra = s.search.algebra; roads = s.search.roads; source = s.source; labels = s.search.labels } };

    ghost invariant = { λ s. IsSearcher (A.meaning s.search.algebra) s.search s.source };
}

/// Makes a search one from the source: it stays as it is if it came from there, and else begins
/// anew.
fn come_from<A: PathAlgebra>(
    search: &mut Search<A>,
    before: Option<Vertex>,
    source: Vertex,
) -> Result<(), Memory>
    requires searcher { IsSearcher (A.meaning search.old.algebra) search.old before }
    requires source { HasVertex search.old.roads source }
    ensures between { OnOk result (Between (A.meaning search.old.algebra) search.old.roads
        (source ∷ []) search.new.labels search.new.settled) }
    ensures of_same { IsOfSame search.old search.new }
{
    match before {
        Some(v) if v == source => Ok(()),
        _ => {
            search.clear();
            search.start(&[source])
        }
    }
}

impl<A: PathAlgebra> Searcher<A> {
    ghost use Rattle.path_plain.specs.Searcher.{IsOfSameGraph};

    /// A searcher for the pairs of this graph.
    pub fn new(alloc: Global, algebra: A, graph: &OutGraph) -> Result<Self, Memory>
        ensures algebra { IfOk result (λ s. s.algebra ≡ algebra) }
        ensures graph { IfOk result (λ s. s.roads ≡ graph.now) }
    {
        let search = Search::new(alloc, algebra, graph, Touched::new(alloc))?;
        Ok(Searcher {
            search,
            source: None,
        })
    }

    /// Finds labels that are best up to the target, over all walks from the source. After an error
    /// the next call is right too.
    pub fn solve_to(
        &mut self,
        graph: &OutGraph,
        source: Vertex,
        target: Vertex,
    ) -> Result<(), Memory>
        requires graph { graph.now ≡ self.old.roads }
        requires source { HasVertex graph.now source }
        requires target { HasVertex graph.now target }
        ensures labels { OnOk result (AreBestUpTo (A.meaning self.old.algebra) graph.now
            (source ∷ []) target self.new.labels) }
        ensures source { OnOk result (self.new.source ≡ Some source) }
        ensures same { IsOfSameGraph self.old self.new }
    {
        let before = self.source.take();
        come_from(&mut self.search, before, source)?;
        self.search.run(graph, Some(target))?;
        self.source = Some(source);
        Ok(())
    }

    /// Searches for labels that are best up to the target, unless it is to give up before. True if
    /// the labels are found; else the target is undecided, and a later call from the same source
    /// goes on from there. After an error the next call is right too.
    pub fn solve_unless(
        &mut self,
        graph: &OutGraph,
        source: Vertex,
        target: Vertex,
        halt: &mut Halt<'_>,
    ) -> Result<bool, Memory>
        requires graph { graph.now ≡ self.old.roads }
        requires source { HasVertex graph.now source }
        requires target { HasVertex graph.now target }
        ensures labels { IfOk result (λ found. IsTrue found → AreBestUpTo
            (A.meaning self.old.algebra) graph.now (source ∷ []) target self.new.labels) }
        ensures halts { IfOk result (λ found. found ≡ false → CanHalt halt.old) }
        ensures source { OnOk result (self.new.source ≡ Some source) }
        ensures same { IsOfSameGraph self.old self.new }
    {
        let before = self.source.take();
        come_from(&mut self.search, before, source)?;
        let found = self.search.run_unless(graph, target, halt)?;
        self.source = Some(source);
        Ok(found)
    }

    /// Its algebra.
    pub fn algebra(&self) -> A
        ensures { result ≡ self.now.algebra }
    {
        self.search.algebra()
    }

    /// Gives it another algebra. The next search begins anew.
    pub fn set_algebra(&mut self, algebra: A)
        ensures algebra { self.new.algebra ≡ algebra }
        ensures roads { self.new.roads ≡ self.old.roads }
        ensures source { self.new.source ≡ None }
    {
        self.source = None;
        self.search.set_algebra(algebra);
    }

    /// Whether its search came from this source, so that a pair from there goes on with it.
    pub fn is_from(&self, source: Vertex) -> bool
        ensures { IsTrue result ↔ (self.now.source ≡ Some source) }
    {
        match self.source {
            Some(v) => v == source,
            None => false,
        }
    }

    /// The labels of the question before.
    pub fn labels(&self) -> &Labels<A::Value>
        ensures { result.now ≡ self.now.labels }
    {
        self.search.labels()
    }
}
