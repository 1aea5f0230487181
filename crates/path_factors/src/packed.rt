//! The links of each place, one row after the other.
ghost use Rattle.std.specs.Prelude.{◌≡◌, ℕ, ◌<◌, ◌++◌, ◌∷◌, [], All, IfOk, OnOk, length, slice_index, slice_index_or};

use crate::better::better_of_walks;
use crate::edge::Edge;
use crate::heads::{Heads, row_between};
use crate::link::Link;
use path_algebra::{ComposingAlgebra, composition_holds};
use road_graph::Memory;
use std::alloc::{AllocError, Global};
use std::marker::Model;

/// The rows of all places, one after the other: that of place i lies at `starts[i]..starts[i + 1]`
/// of each list.
#[derive(Drop)]
pub(crate) struct PackedRows<W: Copy> {
    starts: Vec<u32>,
    /// The greater place of each edge.
    places: Vec<u32>,
    /// What the link to it is worth.
    leaving: Vec<W>,
    /// What the link from it is worth.
    entering: Vec<W>,
}

impl<W: Copy> Model for PackedRows<W> {
    ghost use Rattle.path_factors.specs.Edges.{LinkRows};
    ghost use Rattle.path_factors.specs.Packing.{rows_between, links_of, ArePackedBothWays};

    ghost Value = { LinkRows W };

    ghost view = { λ r. record { leaving = rows_between r.starts.items (links_of r.places.items r.leaving.items); entering = rows_between r.starts.items (links_of r.places.items r.entering.items) } };

    ghost invariant = { λ r. ArePackedBothWays r.starts.items r.places.items r.leaving.items r.entering.items };
}

/// The same walk so many times.
fn repeated<W: Copy>(alloc: Global, walk: W, count: usize) -> Result<Vec<W>, Memory>
    ensures count { IfOk result (λ walks. length walks.items ≡ count) }
    ensures all { IfOk result (λ walks. All (λ a. a ≡ walk) walks.items) }
{
    let mut walks = Vec::with_capacity(alloc, count)?;
    for _ in 0..count {
        walks.push(walk).map_err(AllocError::from)?;
    }
    Ok(walks)
}

/// The same walks once more: a clone is not known to be equal for every type.
fn copied<W: Copy>(alloc: Global, walks: &[W]) -> Result<Vec<W>, Memory>
    ensures { IfOk result (λ copy. copy.items ≡ walks.now) }
{
    let mut copy = Vec::with_capacity(alloc, walks.len())?;
    for walk in walks {
        copy.push(*walk).map_err(AllocError::from)?;
    }
    Ok(copy)
}

/// One more edge, with the link to its greater place and the worth of that from there.
fn put<W: Copy>(
    places: &mut Vec<u32>,
    leaving: &mut Vec<W>,
    entering: &mut Vec<W>,
    riser: Link<W>,
    back: W,
) -> Result<(), Memory>
    ensures places { OnOk result (places.new.items ≡ places.old.items ++ riser.place ∷ []) }
    ensures leaving { OnOk result (leaving.new.items ≡ leaving.old.items ++ riser.walk ∷ []) }
    ensures entering { OnOk result (entering.new.items ≡ entering.old.items ++ back ∷ []) }
{
    places.push(riser.place).map_err(AllocError::from)?;
    leaving.push(riser.walk).map_err(AllocError::from)?;
    entering.push(back).map_err(AllocError::from)?;
    Ok(())
}

impl<W: Copy> PackedRows<W> {
    ghost use Rattle.path_factors.specs.Factors.{row_of};
    ghost use Rattle.path_factors.specs.Edges.{AreBlank, AreBlanked, AreEdgesImproved, IsBlankedTo, IsReplaced};
    ghost use Rattle.path_factors.specs.Heads.{heads_in};
    ghost use Rattle.path_factors.specs.Pruning.{marked};

    /// An edge for each head, with the same walk both ways.
    pub(crate) fn blank(alloc: Global, heads: Heads, none: W) -> Result<Self, Memory>
        ensures count { IfOk result (λ rows. length rows.leaving ≡ length heads) }
        ensures leaving { IfOk result (λ rows. heads_in rows.leaving ≡ heads) }
        ensures entering { IfOk result (λ rows. heads_in rows.entering ≡ heads) }
        ensures risers { IfOk result (λ rows. AreBlank none rows.leaving) }
        ensures fallers { IfOk result (λ rows. AreBlank none rows.entering) }
    {
        let count = heads.places.len();
        let leaving = repeated(alloc, none, count)?;
        let entering = repeated(alloc, none, count)?;
        Ok(PackedRows {
            starts: heads.starts,
            places: heads.places,
            leaving,
            entering,
        })
    }

    /// No rows, with room for those of n places and so many edges.
    pub(crate) fn new(alloc: Global, n: usize, edges: usize) -> Result<Self, Memory>
        ensures leaving { IfOk result (λ rows. rows.leaving ≡ []) }
        ensures entering { IfOk result (λ rows. rows.entering ≡ []) }
    {
        let mut starts: Vec<u32> = Vec::with_capacity(alloc, n.saturating_add(1))?;
        starts.push(0).map_err(AllocError::from)?;
        Ok(PackedRows {
            starts,
            places: Vec::with_capacity(alloc, edges)?,
            leaving: Vec::with_capacity(alloc, edges)?,
            entering: Vec::with_capacity(alloc, edges)?,
        })
    }

    /// One more row: the marked edges of a place of other rows.
    pub(crate) fn push_marked(
        self,
        whole: &PackedRows<W>,
        v: usize,
        marks: &[bool],
    ) -> Result<Self, Memory>
        requires place { v < length whole.now.leaving }
        requires marks { length marks.now ≡ length (row_of whole.now.leaving v) }
        ensures leaving { IfOk result (λ rows.
            rows.leaving ≡ self.leaving ++ marked (row_of whole.now.leaving v) marks.now ∷ []) }
        ensures entering { IfOk result (λ rows.
            rows.entering ≡ self.entering ++ marked (row_of whole.now.entering v) marks.now ∷ []) }
    {
        let _ = whole.len();
        let mut starts = self.starts;
        let mut places = self.places;
        let mut leaving = self.leaving;
        let mut entering = self.entering;
        for j in 0..marks.len() {
            let riser = whole.riser(v, j);
            let faller = whole.faller(v, j);
            let is_marked = marks[j];
            if is_marked {
                put(&mut places, &mut leaving, &mut entering, riser, faller.walk)?;
            }
        }
        let Ok(end) = u32::try_from(places.len()) else {
            return Err(Memory);
        };
        starts.push(end).map_err(AllocError::from)?;
        Ok(PackedRows {
            starts,
            places,
            leaving,
            entering,
        })
    }

    /// The heads alone.
    pub(crate) fn into_heads(self) -> Heads
        ensures { result ≡ heads_in self.leaving }
    {
        Heads {
            starts: self.starts,
            places: self.places,
        }
    }

    /// How many edges there are.
    pub(crate) fn edges(&self) -> usize {
        self.places.len()
    }

    /// How many edges a place has.
    pub(crate) fn count(&self, i: usize) -> usize
        requires { i < length self.now.leaving }
        ensures leaving { result ≡ length (row_of self.now.leaving i) }
        ensures entering { result ≡ length (row_of self.now.entering i) }
    {
        let _ = self.len();
        self.heads(i).len()
    }

    /// One of the links to greater places.
    pub(crate) fn riser(&self, i: usize, j: usize) -> Link<W>
        requires place { i < length self.now.leaving }
        requires link { j < length (row_of self.now.leaving i) }
        ensures { result ≡ slice_index_or (row_of self.now.leaving i) j result }
    {
        let k = self.starts[i] as usize + j;
        Link {
            place: self.places[k],
            walk: self.leaving[k],
        }
    }

    /// One of the links from greater places.
    pub(crate) fn faller(&self, i: usize, j: usize) -> Link<W>
        requires place { i < length self.now.leaving }
        requires link { j < length (row_of self.now.entering i) }
        ensures { result ≡ slice_index_or (row_of self.now.entering i) j result }
    {
        let k = self.starts[i] as usize + j;
        Link {
            place: self.places[k],
            walk: self.entering[k],
        }
    }

    /// How many places there are.
    pub(crate) fn len(&self) -> usize
        ensures count { result ≡ length self.now.leaving }
        ensures entering { result ≡ length self.now.entering }
        ensures heads { heads_in self.now.entering ≡ heads_in self.now.leaving }
    {
        self.starts.len() - 1
    }

    /// The heads of a place.
    pub(crate) fn heads(&self, i: usize) -> &[u32]
        requires { i < length self.now.leaving }
        ensures { result.now ≡ row_of (heads_in self.now.leaving) i }
    {
        row_between(&self.starts, &self.places, i)
    }

    /// Makes both links of an edge of a place no worse than these, where `j` is its index.
    pub(crate) fn improve<A: ComposingAlgebra<Walk = W>>(
        &mut self,
        algebra: A,
        i: usize,
        j: usize,
        edge: Edge<W>,
    )
        requires row { i < length self.old.leaving }
        requires index { j < length (row_of self.old.leaving i) }
        requires head { slice_index (row_of (heads_in self.old.leaving) i) j ≡ edge.place }
        ensures improved { AreEdgesImproved (A.walks algebra) self.old i edge self.new }
        ensures heads { heads_in self.new.leaving ≡ heads_in self.old.leaving }
    {
        composition_holds(algebra);
        let k = self.starts[i] as usize + j;
        self.leaving[k] = better_of_walks(algebra, self.leaving[k], edge.leaving);
        self.entering[k] = better_of_walks(algebra, self.entering[k], edge.entering);
    }

    /// Takes away the walks of a link both ways.
    fn blank_link(&mut self, i: usize, j: usize, none: W)
        requires row { i < length self.old.leaving }
        requires index { j < length (row_of self.old.leaving i) }
        ensures leaving { IsReplaced none i j self.old.leaving self.new.leaving }
        ensures entering { IsReplaced none i j self.old.entering self.new.entering }
    {
        let k = self.starts[i] as usize + j;
        self.leaving[k] = none;
        self.entering[k] = none;
    }

    /// Takes away the walks of the links of a place.
    fn blank_row(&mut self, i: usize, none: W)
        requires { i < length self.old.leaving }
        ensures leaving { IsBlankedTo none i (length (row_of self.old.leaving i)) self.old.leaving
            self.new.leaving }
        ensures entering { IsBlankedTo none i (length (row_of self.old.entering i)) self.old.entering
            self.new.entering }
    {
        for j in 0..self.count(i) {
            self.blank_link(i, j, none);
        }
    }

    /// The same rows, without walks at the links of marked places.
    pub(crate) fn blanked(&self, alloc: Global, marks: &[bool], none: W) -> Result<Self, Memory>
        requires { length marks.now ≡ length self.now.leaving }
        ensures leaving { IfOk result (λ rows. AreBlanked none marks.now self.now.leaving rows.leaving) }
        ensures entering { IfOk result (λ rows. AreBlanked none marks.now self.now.entering rows.entering) }
    {
        let mut rows = PackedRows {
            starts: self.starts.to_vec(alloc)?,
            places: self.places.to_vec(alloc)?,
            leaving: copied(alloc, &self.leaving)?,
            entering: copied(alloc, &self.entering)?,
        };
        for i in 0..marks.len() {
            if marks[i] {
                rows.blank_row(i, none);
            }
        }
        Ok(rows)
    }
}
