//! The heads of each place, one row after the other.
ghost use Rattle.std.specs.Prelude.{◌≡◌, ℕ, ◌+◌, ◌<◌, ◌≤◌, ◌++◌, ◌∷◌, [], Contains, IfOk, length, slice_index};
ghost use Rattle.std.specs.List.Sorted.{IsStrictlyIncreasing};
ghost use Rattle.path_factors.specs.Factors.{row_of};
ghost use Rattle.path_factors.specs.Packing.{ArePacked, rows_between};

use road_graph::Memory;
use std::alloc::{AllocError, Global};
use std::marker::Model;

/// Rows of places, one after the other: that of place i lies at `starts[i]..starts[i + 1]`.
#[derive(Drop)]
pub(crate) struct Heads {
    pub(crate) starts: Vec<u32>,
    pub(crate) places: Vec<u32>,
}

impl Model for Heads {
    ghost use Rattle.std.specs.Prelude.{List, ℕ};
    ghost use Rattle.path_factors.specs.Packing.{rows_between, ArePacked};

    ghost Value = { List (List ℕ) };

    ghost view = { λ h. rows_between h.starts.items h.places.items };

    ghost invariant = { λ h. ArePacked h.starts.items h.places.items };
}

/// The row of a place.
pub(crate) fn row_between<'a>(starts: &[u32], places: &'a [u32], i: usize) -> &'a [u32]
    requires packed { ArePacked starts.now places.now }
    requires inside { i + 1 < length starts.now }
    ensures { result.now ≡ row_of (rows_between starts.now places.now) i }
{
    let start = starts[i] as usize;
    let end = starts[i + 1] as usize;
    &places[start..end]
}

impl Heads {
    /// No rows, with room for those of n places and so many heads.
    pub(crate) fn new(alloc: Global, n: usize, heads: usize) -> Result<Self, Memory>
        ensures { IfOk result (λ heads. heads ≡ []) }
    {
        let mut starts: Vec<u32> = Vec::with_capacity(alloc, n.saturating_add(1))?;
        starts.push(0).map_err(AllocError::from)?;
        Ok(Heads {
            starts,
            places: Vec::with_capacity(alloc, heads)?,
        })
    }

    /// One more row.
    pub(crate) fn push(self, row: &[u32]) -> Result<Self, Memory>
        ensures { IfOk result (λ heads. heads ≡ self ++ row.now ∷ []) }
    {
        let mut starts = self.starts;
        let mut places = self.places;
        places.extend_from_slice(row)?;
        let Ok(end) = u32::try_from(places.len()) else {
            return Err(Memory);
        };
        starts.push(end).map_err(AllocError::from)?;
        Ok(Heads { starts, places })
    }

    /// The row of a place.
    pub(crate) fn row(&self, i: usize) -> &[u32]
        requires { i < length self.now }
        ensures { result.now ≡ row_of self.now i }
    {
        row_between(&self.starts, &self.places, i)
    }
}

/// The index of a place, which is at an index or after it.
pub(crate) fn seek(heads: &[u32], from: usize, place: u32) -> usize
    requires { (m : ℕ) × (from ≤ m) × (m < length heads.now) × (slice_index heads.now m ≡ place) }
    ensures inside { result < length heads.now }
    ensures found { slice_index heads.now result ≡ place }
{
    let mut j = from;
    while heads[j] != place {
        j += 1;
    }
    j
}

/// The index of a place among ascending ones.
pub(crate) fn position(heads: &[u32], place: u32) -> usize
    requires ascending { IsStrictlyIncreasing heads.now }
    requires listed { Contains heads.now place }
    ensures inside { result < length heads.now }
    ensures found { slice_index heads.now result ≡ place }
{
    match heads.binary_search(&place) {
        Ok(at) | Err(at) => at,
    }
}
