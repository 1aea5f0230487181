//! Routes between pairs of one graph, one after the other: the lists of the search stay.

ghost use Rattle.std.specs.Prelude.{◌≡◌, ◌∷◌, [], IfErr, IfOk};
ghost use Rattle.road_graph.specs.GraphData.{HasVertex};
ghost use Rattle.path_plain.specs.UpTo.{AreBestUpTo};
ghost use Rattle.halting.specs.Halting.{CanHalt};
ghost use Rattle.route_tree.specs.Found.{IsFoundIfNear, IsPairFound};
ghost use Rattle.route_tree.specs.declared.found.Nearby.TheVariants.{Undecided};
ghost use Rattle.halting.specs.declared.unfinished.Unfinished.TheVariants.{Halted};

use crate::backward::marks_back;
use crate::found::{Found, Nearby};
use crate::lists::Lists;
use crate::region::Region;
use crate::routes::found_in;
use crate::tight_tree::tree_into;
use halting::{Halt, Unfinished};
use path_algebra::{Labels, PathAlgebra, laws_hold};
use path_plain::best_values_exist;
use road_graph::{InGraph, Memory, OutGraph, Vertex};
use std::alloc::Global;
use std::marker::Model;

/// A search for the routes of pairs, in graphs with one number of vertices. Its lists of all
/// vertices are made once.
///
/// Between two pairs only what the search has touched is put back. After a growth that was refused
/// the lists are made anew.
#[derive(Drop)]
pub struct RouteFinder {
    alloc: Global,
    vertices: u32,
    lists: Option<Lists>,
}

impl Model for RouteFinder {
    ghost use Rattle.std.specs.Prelude.{◌≡◌, ℕ, IfSome};

    ghost Value = { ℕ };

    ghost view = { λ f. f.vertices };

    ghost invariant = { λ f. IfSome f.lists (λ n. n ≡ f.vertices) };
}

impl RouteFinder {
    /// A finder for graphs of this number of vertices. It makes its lists at the first pair.
    pub fn new(alloc: Global, vertices: u32) -> Self
        ensures { result ≡ vertices }
    {
        RouteFinder {
            alloc,
            vertices,
            lists: None,
        }
    }

    /// The lists, which are kept or made.
    fn take_lists(&mut self) -> Result<Lists, Memory>
        ensures lists { IfOk result (λ lists. lists ≡ self.old) }
        ensures same { self.new ≡ self.old }
    {
        match self.lists.take() {
            Some(lists) => Ok(lists),
            None => Lists::new(self.alloc, self.vertices as usize),
        }
    }

    /// What is found of a pair, its source first, unless the search for the route is to give up.
    fn find<A: PathAlgebra>(
        &mut self,
        algebra: A,
        graph: &OutGraph,
        by_head: &InGraph,
        labels: &Labels<A::Value>,
        ends: (Vertex, Vertex),
        halt: &mut Halt<'_>,
    ) -> Result<Option<Found>, Unfinished>
        requires count { graph.now.vertices ≡ self.old }
        requires by_head { by_head.now ≡ graph.now }
        requires source { HasVertex graph.now ends.0 }
        requires target { HasVertex graph.now ends.1 }
        requires labels { AreBestUpTo (A.meaning algebra) graph.now (ends.0 ∷ []) ends.1 labels.now }
        ensures found { IfOk result (IsPairFound (A.meaning algebra) graph.now ends.0 ends.1) }
        ensures same { self.new ≡ self.old }
        ensures halts { IfErr result (λ e. e ≡ Halted → CanHalt halt.old) }
    {
        laws_hold(algebra);
        best_values_exist(algebra);
        graph.holds();
        let (source, target) = ends;
        let Some(value) = labels.of(target) else {
            return Ok(None);
        };
        let alloc = self.alloc;
        let (marks, blank) = self.take_lists()?.into_parts();
        let (marks, found) = marks_back(alloc, algebra, by_head, labels, ends, marks, halt)?;
        let region = Region::marked(marks);
        let tree = tree_into(
            alloc,
            algebra,
            graph,
            labels,
            &region,
            &[source],
            blank,
            halt,
        )?;
        let pair = found_in(alloc, &tree, algebra.code(value), target)?;
        self.lists = Some(Lists::put_back(region.into_marks(), tree, found.as_slice()));
        Ok(pair)
    }

    /// The best value of a pair's target, which is its second, and the route to it, for labels that
    /// are best up to the target; none if no walk has a value. `by_head` is the same graph, for
    /// steps back along its arcs. The search for the route may be told to give up: then the pair is
    /// undecided. The only error is `Memory`. After either the next call is right too.
    ///
    /// The route is that of the whole tree: a walk of tight arcs to the target passes only vertices
    /// whose labels are best.
    pub fn route<A: PathAlgebra>(
        &mut self,
        algebra: A,
        graph: &OutGraph,
        by_head: &InGraph,
        labels: &Labels<A::Value>,
        ends: (Vertex, Vertex),
        halt: &mut Halt<'_>,
    ) -> Result<Nearby, Memory>
        requires count { graph.now.vertices ≡ self.old }
        requires by_head { by_head.now ≡ graph.now }
        requires source { HasVertex graph.now ends.0 }
        requires target { HasVertex graph.now ends.1 }
        requires labels { AreBestUpTo (A.meaning algebra) graph.now (ends.0 ∷ []) ends.1 labels.now }
        ensures found { IfOk result (IsFoundIfNear (A.meaning algebra) graph.now ends.0 ends.1) }
        ensures same { self.new ≡ self.old }
        ensures halts { IfOk result (λ near. near ≡ Undecided → CanHalt halt.old) }
    {
        match self.find(algebra, graph, by_head, labels, ends, halt) {
            Ok(found) => Ok(Nearby::Decided(found)),
            Err(Unfinished::Halted) => Ok(Nearby::Undecided),
            Err(Unfinished::Memory) => Err(Memory),
        }
    }
}
