//! Hash buckets: vertices whose lists may be the same.

use crate::lists::{NONE, at, put};
use road_graph::Memory;
use std::alloc::Global;

/// How many buckets there are.
const BUCKETS: u32 = 4096;

/// Vertices by index from 0, in a bucket for each remainder of their hashes.
#[derive(Drop)]
pub(crate) struct HashBuckets {
    /// The first vertex of each bucket.
    firsts: Vec<u32>,
    /// The vertex after each in its bucket.
    afters: Vec<u32>,
}

/// The bucket of a hash.
#[inline]
fn bucket_of(hash: u32) -> usize {
    (hash % BUCKETS) as usize
}

impl HashBuckets {
    /// Empty buckets for n vertices.
    pub(crate) fn new(alloc: Global, n: usize) -> Result<Self, Memory> {
        Ok(HashBuckets {
            firsts: vec![in alloc; NONE; BUCKETS as usize]?,
            afters: vec![in alloc; NONE; n]?,
        })
    }

    /// Puts a vertex in front of its bucket.
    #[inline]
    pub(crate) fn insert(&mut self, v: u32, hash: u32) {
        let first = at(&self.firsts, bucket_of(hash));
        put(&mut self.afters, v as usize, first);
        put(&mut self.firsts, bucket_of(hash), v);
    }

    /// The first vertex of the bucket of a hash, which is empty from then on; `NONE` if it was
    /// before.
    #[inline]
    pub(crate) fn take(&mut self, hash: u32) -> u32 {
        let first = at(&self.firsts, bucket_of(hash));
        put(&mut self.firsts, bucket_of(hash), NONE);
        first
    }

    /// The next vertex of the same bucket; `NONE` if it is the last.
    #[inline]
    pub(crate) fn after(&self, v: u32) -> u32 {
        at(&self.afters, v as usize)
    }
}
