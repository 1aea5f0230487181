//! The search from a target back over tight arcs, level by level, for the vertices that a route to
//! it may go through.

ghost use Rattle.std.specs.Prelude.{◌≡◌, ◌+◌, ◌-◌, ◌≤◌, ◌<◌, [], ◌∷◌, ◌++◌, All, Contains, IfErr, IfOk, OnOk, cond, eqb, false, length, replicate, slice_set, true};
ghost use Rattle.road_graph.specs.GraphData.{HasVertex};
ghost use Rattle.path_algebra.specs.Walks.{is_marked, is_tight};
ghost use Rattle.halting.specs.Halting.{CanHalt};
ghost use Rattle.route_tree.specs.Blank.{AreFound};
ghost use Rattle.route_tree.specs.Regions.{Covers, LeadTo, unmarked};
ghost use Rattle.route_tree.specs.Backward.{VisitsBack, VisitsAllBack, VisitsLevelBack, finds_tail};
ghost use Rattle.halting.specs.declared.unfinished.Unfinished.TheVariants.{Halted};

use crate::routes::push;
use crate::tightness::is_tight;
use halting::{Halt, Unfinished};
use path_algebra::{Labels, PathAlgebra};
use road_graph::{InGraph, Memory, OutRoad, Vertex};
use std::alloc::Global;
use std::marker::Model;
use std::mem;

/// The search in progress.
#[derive(Drop)]
struct Backward<'g, A: PathAlgebra> {
    algebra: A,
    by_head: &'g InGraph,
    labels: &'g Labels<A::Value>,
    /// Whether a vertex was found.
    marks: Vec<bool>,
    /// The vertices that were found.
    found: Vec<Vertex>,
    /// The vertices that were found last, from which the search goes on.
    next: Vec<Vertex>,
}

impl<'g, A: PathAlgebra> Model for Backward<'g, A> {
    ghost use Rattle.route_tree.specs.Backward.{BackwardState, IsBackward};

    ghost Value = { BackwardState A A.Value };

    ghost view = { λ s. record { over = record { algebra = s.algebra; roads = s.by_head.now; labels = s.labels.now }; marks = s.marks.items; next = s.next.items } };

    ghost invariant = { λ s. IsBackward s.by_head.now s.labels.now s.marks.items s.found.items s.next.items };
}

impl<'g, A: PathAlgebra> Backward<'g, A> {
    /// A search that has found the target alone. No vertex has a mark before.
    fn open(
        alloc: Global,
        algebra: A,
        by_head: &'g InGraph,
        labels: &'g Labels<A::Value>,
        target: Vertex,
        marks: Vec<bool>,
    ) -> Result<Self, Memory>
        requires target { HasVertex by_head.now target }
        requires labels { length labels.now ≡ by_head.now.vertices }
        requires marks { marks.items ≡ replicate by_head.now.vertices false }
        ensures over { IfOk result (λ s. s.over ≡ record {
          algebra = algebra;
          roads = by_head.now;
          labels = labels.now;
        }) }
        ensures marks { IfOk result
            (λ s. s.marks ≡ slice_set (replicate by_head.now.vertices false) (target - 1)
            true) }
        ensures next { IfOk result (λ s. s.next ≡ target ∷ []) }
    {
        by_head.holds();
        let mut marks = marks;
        marks[target.0 as usize - 1] = true;
        let found = list_of(alloc, target)?;
        let next = list_of(alloc, target)?;
        Ok(Backward {
            algebra,
            by_head,
            labels,
            marks,
            found,
            next,
        })
    }

    /// Whether a vertex was found.
    fn has(&self, v: Vertex) -> bool
        requires { HasVertex self.now.over.roads v }
        ensures { result ≡ is_marked self.now.marks v }
    {
        self.marks[v.0 as usize - 1]
    }

    /// Marks a vertex that is not marked as found.
    fn mark(&mut self, v: Vertex) -> Result<(), Memory>
        requires in_graph { HasVertex self.old.over.roads v }
        requires fresh { is_marked self.old.marks v ≡ false }
        ensures marks { OnOk result (self.new.marks ≡ slice_set self.old.marks (v - 1) true) }
        ensures next { OnOk result (self.new.next ≡ self.old.next ++ (v ∷ [])) }
        ensures over { OnOk result (self.new.over ≡ self.old.over) }
        ensures size { OnOk result (unmarked self.new.marks + length self.new.next ≡ unmarked
            self.old.marks + length self.old.next) }
    {
        push(&mut self.found, v)?;
        push(&mut self.next, v)?;
        self.marks[v.0 as usize - 1] = true;
        Ok(())
    }

    /// Goes back along an arc, given reversed, from a vertex that has this label.
    fn try_road(&mut self, road: OutRoad, far: Option<A::Value>) -> Result<(), Memory>
        requires { HasVertex self.old.over.roads road.head }
        ensures marks { OnOk result
            (self.new.marks ≡ cond (finds_tail (A.meaning self.old.over.algebra) self.old road.head
            road.weight far) (slice_set self.old.marks (road.head - 1) true) self.old.marks) }
        ensures next { OnOk result
            (self.new.next ≡ cond (finds_tail (A.meaning self.old.over.algebra) self.old road.head
            road.weight far) (self.old.next ++ (road.head ∷ [])) self.old.next) }
        ensures over { OnOk result (self.new.over ≡ self.old.over) }
        ensures size { OnOk result (unmarked self.new.marks + length self.new.next ≡ unmarked
            self.old.marks + length self.old.next) }
    {
        let tail = road.head;
        if !self.has(tail) && is_tight(self.algebra, self.labels.of(tail), road.weight, far) {
            self.mark(tail)
        } else {
            Ok(())
        }
    }

    /// Visits a vertex: goes back along the arcs that enter it.
    fn visit(&mut self, v: Vertex) -> Result<(), Memory>
        requires { HasVertex self.old.over.roads v }
        ensures visits { OnOk result (VisitsBack (A.meaning self.old.over.algebra) v self.old
            self.new) }
        ensures over { OnOk result (self.new.over ≡ self.old.over) }
        ensures size { OnOk result (unmarked self.new.marks + length self.new.next ≡ unmarked
            self.old.marks + length self.old.next) }
    {
        let far = self.labels.of(v);
        let by_head = self.by_head;
        for road in by_head.roads_into(v) {
            self.try_road(*road, far)?;
        }
        Ok(())
    }

    /// Visits each vertex of a list, each a step of what may be told to give up.
    fn visit_all(&mut self, list: &[Vertex], halt: &mut Halt<'_>) -> Result<(), Unfinished>
        requires { All (HasVertex self.old.over.roads) list.now }
        ensures visits { OnOk result (VisitsAllBack (A.meaning self.old.over.algebra) list.now
            self.old self.new) }
        ensures over { OnOk result (self.new.over ≡ self.old.over) }
        ensures size { OnOk result (unmarked self.new.marks + length self.new.next ≡ unmarked
            self.old.marks + length self.old.next) }
        ensures halts { IfErr result (λ e. e ≡ Halted → CanHalt halt.old) }
        ensures kind { CanHalt halt.new → CanHalt halt.old }
    {
        for v in list {
            self.visit(*v)?;
            if halt.is_due() {
                return Err(Unfinished::Halted);
            }
        }
        Ok(())
    }

    /// Whether no vertex is left to visit.
    fn is_done(&self) -> bool
        ensures { result ≡ eqb (length self.now.next) 0 }
    {
        self.next.is_empty()
    }

    /// Visits the vertices that were found last; those that it finds are one arc further from the
    /// target.
    fn visit_level(&mut self, alloc: Global, halt: &mut Halt<'_>) -> Result<(), Unfinished>
        requires waiting { 1 ≤ length self.old.next }
        ensures visits { OnOk result (VisitsLevelBack (A.meaning self.old.over.algebra) self.old
            self.new) }
        ensures over { OnOk result (self.new.over ≡ self.old.over) }
        ensures fewer { OnOk result (unmarked self.new.marks + length self.new.next < unmarked
            self.old.marks + length self.old.next) }
        ensures halts { IfErr result (λ e. e ≡ Halted → CanHalt halt.old) }
        ensures kind { CanHalt halt.new → CanHalt halt.old }
    {
        let level = mem::replace(&mut self.next, Vec::new(alloc));
        self.visit_all(&level, halt)
    }

    /// The marks, and the vertices that have one.
    fn into_parts(self) -> (Vec<bool>, Vec<Vertex>)
        ensures marks { result.0.items ≡ self.entry.marks }
        ensures count { length result.0.items ≡ self.entry.over.roads.vertices }
        ensures found { AreFound self.entry.over.roads result.0.items result.1.items }
    {
        (self.marks, self.found)
    }
}

/// A list of one vertex.
fn list_of(alloc: Global, v: Vertex) -> Result<Vec<Vertex>, Memory>
    ensures { IfOk result (λ list. list.items ≡ v ∷ []) }
{
    let mut list = Vec::new(alloc);
    push(&mut list, v)?;
    Ok(list)
}

/// Marks of the vertices from which walks of tight arcs lead to the target, level by level until
/// the source is among them; and a list of the source and these vertices. No vertex has a mark
/// before. It may be told to give up.
pub(crate) fn marks_back<A: PathAlgebra>(
    alloc: Global,
    algebra: A,
    by_head: &InGraph,
    labels: &Labels<A::Value>,
    ends: (Vertex, Vertex),
    marks: Vec<bool>,
    halt: &mut Halt<'_>,
) -> Result<(Vec<bool>, Vec<Vertex>), Unfinished>
    requires source { HasVertex by_head.now ends.0 }
    requires target { HasVertex by_head.now ends.1 }
    requires labels { length labels.now ≡ by_head.now.vertices }
    requires marks { marks.items ≡ replicate by_head.now.vertices false }
    ensures covers { IfOk result (λ r. Covers by_head.now (is_tight (A.meaning algebra)
        by_head.now labels.now) ends.0 ends.1 r.0.items) }
    ensures lead { IfOk result (λ r. LeadTo by_head.now (is_tight (A.meaning algebra)
        by_head.now labels.now) ends.1 r.0.items) }
    ensures count { IfOk result (λ r. length r.0.items ≡ by_head.now.vertices) }
    ensures found { IfOk result (λ r. AreFound by_head.now r.0.items r.1.items) }
    ensures source { IfOk result (λ r. Contains r.1.items ends.0) }
    ensures halts { IfErr result (λ e. e ≡ Halted → CanHalt halt.old) }
    ensures kind { CanHalt halt.new → CanHalt halt.old }
{
    by_head.holds();
    let (source, target) = ends;
    let mut search = Backward::open(alloc, algebra, by_head, labels, target, marks)?;
    while !search.is_done() && !search.has(source) {
        search.visit_level(alloc, halt)?;
    }
    let (marks, mut found) = search.into_parts();
    push(&mut found, source)?;
    Ok((marks, found))
}
