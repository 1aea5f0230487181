//! The check of a tree in three lists.
ghost use Rattle.std.specs.Prelude.{◌≡◌, ◌∷◌, [], pos, All, IfOk, IsSome};
ghost use Rattle.road_graph.specs.GraphData.{HasVertex};
ghost use Rattle.path_algebra.specs.Choices.{OfAlgebra, Under};
ghost use Rattle.answer_lists.specs.Answers.{HavePlaces, IsOneOf, ReportsListRefusals};
ghost use Rattle.answer_lists.specs.Tree.{AreJudged, AreTreeLists, IsFirstRefuted, IsSameReport};

use crate::algebra_number::AlgebraNumber;
use crate::lines::{ListedLines, ListedTree};
use crate::shared_graph::SharedGraph;
use crate::sources::{are_vertices, vertices_of};
use crate::status::{DONE, MEMORY, NO_ALGEBRA, NO_ROOM, NO_VERTEX, STOPPED, WRONG};
use answer_check::{Place, first_wrong_line};
use halting::{Stop, is_stopped};
use path_algebra::{AlgebraChoice, PathAlgebra, laws_hold, with_algebra};
use road_graph::{InGraph, Memory};
use std::alloc::Global;

/// The first wrong vertex, with the first reason; none if the lists are the tree.
fn judge<A: PathAlgebra>(
    alloc: Global,
    algebra: A,
    by_head: &InGraph,
    tree: &ListedTree<'_>,
) -> Result<Option<Place>, Memory>
    requires sources { All (HasVertex by_head.now) tree.now.sources.now }
    requires places { HavePlaces by_head.now.vertices tree.now.codes.now tree.now.hops.now tree.now.parents.now }
    ensures { IfOk result (AreJudged (A.meaning algebra) by_head.now tree.now.sources.now
        tree.now.codes.now tree.now.hops.now tree.now.parents.now) }
{
    laws_hold(algebra);
    by_head.holds();
    let list = vertices_of(alloc, tree.sources)?;
    let lines = ListedLines { tree: *tree };
    first_wrong_line(alloc, algebra, by_head, &list, &lines)
}

/// The same, by the chosen algebra.
fn judge_chosen(
    alloc: Global,
    chosen: AlgebraChoice,
    by_head: &InGraph,
    tree: &ListedTree<'_>,
) -> Result<Option<Place>, Memory>
    requires sources { All (HasVertex by_head.now) tree.now.sources.now }
    requires places { HavePlaces by_head.now.vertices tree.now.codes.now tree.now.hops.now tree.now.parents.now }
    ensures { Under chosen (λ V A. IfOk result (AreJudged A by_head.now tree.now.sources.now
        tree.now.codes.now tree.now.hops.now tree.now.parents.now)) }
{
    with_algebra!(chosen, |algebra| judge(alloc, algebra, by_head, tree))
}

/// Where the first wrong vertex is reported, with the number of the first reason.
#[derive(Drop)]
pub struct FirstRefuted<'a> {
    pub vertex: &'a mut u32,
    pub reason: &'a mut u32,
}

/// Judges a tree by the algebra of a number and reports the first wrong vertex, if each source is a
/// vertex, each list has a place for each vertex and there is such an algebra.
#[tactic(auto, using(path_algebra::proofs::Chosen::of_numbered))]
pub fn check_tree(
    by: AlgebraNumber,
    shared: &mut SharedGraph,
    stop: &Option<Stop>,
    tree: &ListedTree<'_>,
    first: &mut FirstRefuted<'_>,
) -> i32
    ensures graph { shared.new ≡ shared.old }
    ensures right { result ≡ pos 0 → OfAlgebra by.algebra by.limit (λ V A. AreTreeLists A
        shared.old.roads tree.now.sources.now tree.now.codes.now tree.now.hops.now
        tree.now.parents.now) }
    ensures wrong { result ≡ pos 6 → OfAlgebra by.algebra by.limit (λ V A. IsFirstRefuted A
        shared.old.roads tree.now.sources.now tree.now.codes.now tree.now.hops.now
        tree.now.parents.now first.new.vertex.now first.new.reason.now) }
    ensures same { IsSameReport first.old first.new }
    ensures kept { (result ≡ pos 6 → ⊥) → (first.new.vertex.now ≡ first.old.vertex.now) ×
        (first.new.reason.now ≡ first.old.reason.now) }
    ensures refusals { ReportsListRefusals (All (HasVertex shared.old.roads) tree.now.sources.now)
        (HavePlaces shared.old.roads.vertices tree.now.codes.now tree.now.hops.now
        tree.now.parents.now) by.algebra by.limit result }
    ensures stopped { result ≡ pos 45 → IsSome stop.now }
    ensures status { IsOneOf (0 ∷ 2 ∷ 3 ∷ 6 ∷ 17 ∷ 43 ∷ 45 ∷ []) result }
{
    if !are_vertices(shared.graph(), tree.sources) {
        return NO_VERTEX;
    }
    let n = shared.graph().vertices() as usize;
    if tree.codes.len() != n || tree.hops.len() != n || tree.parents.len() != n {
        return NO_ROOM;
    }
    let Some(chosen) = AlgebraChoice::numbered(by.algebra, by.limit) else {
        return NO_ALGEBRA;
    };
    let Ok(by_head) = shared.by_head() else {
        return MEMORY;
    };
    if is_stopped(stop) {
        return STOPPED;
    }
    match judge_chosen(shared.alloc(), chosen, &by_head, tree) {
        Ok(None) => DONE,
        Ok(Some(place)) => {
            *first.vertex = place.vertex;
            *first.reason = place.reason.number();
            WRONG
        }
        Err(Memory) => MEMORY,
    }
}
