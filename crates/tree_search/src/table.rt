//! The marks of all vertices, in the lists that labels and trees are made of.
#![tactic(auto, using(crate::proofs::Rows::counts))]

ghost use Rattle.std.specs.Prelude.{◌≡◌, ◌<◌, cond, eqb, false, length, replicate, IfOk, None, Some, slice_index_or, slice_set};
ghost use Rattle.path_plain.specs.Noting.{AreNoted};
ghost use Rattle.route_tree.specs.Tree.{IsLinked};
ghost use Rattle.tree_search.specs.Marks.{is_better, is_lesser, values_in, hops_in, parents_in, parent_or_none};
ghost use Rattle.tree_search.specs.Rows.{number_of};

use crate::mark::Mark;
use path_algebra::{Labels, PathAlgebra};
use road_graph::{Memory, Vertex};
use route_tree::{NumberSlot, Tree};
use std::alloc::Global;
use std::marker::Model;

/// A mark or none for each place.
#[derive(Drop)]
pub(crate) struct MarkTable<A: PathAlgebra> {
    values: Vec<Option<A::Value>>,
    hops: Vec<NumberSlot>,
    parents: Vec<NumberSlot>,
}

impl<A: PathAlgebra> Model for MarkTable<A> {
    ghost use Rattle.std.specs.Prelude.{List, Option};
    ghost use Rattle.tree_search.specs.Rows.{AreMarkRows, marks_of};
    ghost use Rattle.tree_search.specs.declared.mark.Mark.{Mark};

    ghost Value = { List (Option (Mark A.Value)) };

    ghost view = { λ t. marks_of t.values.items t.hops.items t.parents.items };

    ghost invariant = { λ t. AreMarkRows t.values.items t.hops.items t.parents.items };
}

/// The number in a slot, or 0.
fn number(slot: NumberSlot) -> u32
    ensures { result ≡ number_of slot }
{
    slot.get().unwrap_or(0)
}

/// A vertex, or none for 0.
fn parent_slot(parent: u32) -> NumberSlot
    requires { parent < 4294967295 }
    ensures { result ≡ parent_or_none parent }
{
    if parent == 0 {
        NumberSlot::none()
    } else {
        NumberSlot::some(parent)
    }
}

impl<A: PathAlgebra> MarkTable<A> {
    /// No mark at n places.
    pub(crate) fn new(alloc: Global, n: usize) -> Result<Self, Memory>
        ensures { IfOk result (λ t. t ≡ replicate n None) }
    {
        let values: Vec<Option<A::Value>> = vec![in alloc; None; n]?;
        let hops = vec![in alloc; NumberSlot::none(); n]?;
        let parents = vec![in alloc; NumberSlot::none(); n]?;
        Ok(MarkTable {
            values,
            hops,
            parents,
        })
    }

    /// Whether a mark has a strictly better key than that of a place. Hops are looked at only if
    /// values tie.
    pub(crate) fn is_better(&self, i: usize, new: Mark<A::Value>) -> bool
        requires { i < length self.now }
        ensures { result ≡ is_better A.order (slice_index_or self.now i None) new }
    {
        let Some(old) = self.values[i] else {
            return true;
        };
        if !A::no_worse(old, new.value) {
            return true;
        }
        A::no_worse(new.value, old) && !(number(self.hops[i]) <= new.hops)
    }

    /// Whether a mark has as good a key as that of a place, and a lesser parent.
    pub(crate) fn is_lesser(&self, i: usize, new: Mark<A::Value>) -> bool
        requires { i < length self.now }
        ensures { result ≡ is_lesser A.order (slice_index_or self.now i None) new }
    {
        let Some(old) = self.values[i] else {
            return false;
        };
        if !A::no_worse(new.value, old) {
            return false;
        }
        if A::no_worse(old, new.value) && !(new.hops <= number(self.hops[i])) {
            return false;
        }
        !(number(self.parents[i]) <= new.parent)
    }

    /// Gives a place a mark.
    pub(crate) fn set(&mut self, i: usize, mark: Mark<A::Value>)
        requires place { i < length self.old }
        requires hops { mark.hops < 4294967295 }
        requires parent { mark.parent < 4294967295 }
        ensures { self.new ≡ slice_set self.old i (Some mark) }
    {
        self.values[i] = Some(mark.value);
        self.hops[i] = NumberSlot::some(mark.hops);
        self.parents[i] = parent_slot(mark.parent);
    }

    /// Takes the mark of a place away.
    fn clear(&mut self, i: usize)
        requires { i < length self.old }
        ensures { self.new ≡ slice_set self.old i None }
    {
        self.values[i] = None;
        self.hops[i] = NumberSlot::none();
        self.parents[i] = NumberSlot::none();
    }

    /// The value of a place.
    pub(crate) fn value(&self, i: usize) -> Option<A::Value>
        requires { i < length self.now }
        ensures { result ≡ slice_index_or (values_in self.now) i None }
    {
        self.values[i]
    }

    /// The hops of a place.
    pub(crate) fn hops(&self, i: usize) -> Option<u32>
        requires { i < length self.now }
        ensures { result ≡ slice_index_or (hops_in self.now) i None }
    {
        self.hops[i].get()
    }

    /// The parent of a place.
    pub(crate) fn parent(&self, i: usize) -> Option<u32>
        requires { i < length self.now }
        ensures { result ≡ slice_index_or (parents_in self.now) i None }
    {
        self.parents[i].get()
    }

    /// The values as labels, the hops and parents as a tree.
    pub(crate) fn into_labels_and_tree(self) -> (Labels<A::Value>, Tree)
        requires { IsLinked (record { hops = hops_in self; parents = parents_in self }) }
        ensures labels { result.0 ≡ values_in self }
        ensures tree { result.1 ≡ record { hops = hops_in self; parents = parents_in self } }
    {
        (
            Labels::from_vec(self.values),
            Tree::from_parts(self.hops, self.parents),
        )
    }
}

/// Takes away the mark of each vertex of a list, and that it is settled. No other vertex has one,
/// or is settled.
pub(crate) fn put_back<A: PathAlgebra>(
    marks: &mut MarkTable<A>,
    settled: &mut Vec<bool>,
    list: &[Vertex],
)
    requires count { length settled.old.items ≡ length marks.old }
    requires noted { AreNoted (length marks.old) list.now marks.old settled.old.items }
    ensures marks { marks.new ≡ replicate (length marks.old) None }
    ensures settled { settled.new.items ≡ replicate (length marks.old) false }
{
    for v in list {
        let i = v.0 as usize - 1;
        marks.clear(i);
        settled[i] = false;
    }
}
