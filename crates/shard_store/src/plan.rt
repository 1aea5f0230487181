//! Which shard each vertex belongs to.
ghost use Rattle.std.specs.Prelude.{◌≡◌, ℕ, ◌+◌, ◌-◌, ◌*◌, ◌/◌, ◌<◌, ◌≤◌, ◌^◌, length, slice_index_or, IfOk, MatchResult, MatchOption};
ghost use Rattle.shard_store.specs.Plans.{PlanData, IsPlan, shard_in, HasPlanned, IsBlocks, IsFirstBadEntry, IsBad, IsBelow};

use crate::shard::Shard;
use road_graph::{Memory, Vertex};
use std::alloc::{AllocError, Global};
use std::marker::Model;

/// Which shard each vertex of a graph belongs to.
#[derive(Debug, Drop)]
pub struct Plan {
    shards: u8,
    list: Vec<u8>,
}

impl Model for Plan {
    ghost use Rattle.shard_store.specs.Plans.{PlanData, IsPlan};

    ghost Value = { PlanData };

    ghost view = { λ p. record { shards = p.shards; list = p.list.items } };

    ghost invariant = { λ p. IsPlan (record { shards = p.shards; list = p.list.items }) };
}

/// Why a table is no plan.
#[derive(Clone, Copy, Debug, PartialEq, Eq)]
pub enum PlanFault {
    /// The first vertex whose entry is no shard.
    BadShard(Vertex),
}

impl Plan {
    /// Blocks of vertices of about the same size: vertex v of n is in shard (v - 1) * s / n,
    /// rounded down.
    pub fn blocks(alloc: Global, n: u32, s: u8) -> Result<Plan, Memory>
        requires vertices { n ≤ 2 ^ 25 }
        requires shards { (1 ≤ s) × (s ≤ 64) }
        ensures { IfOk result (λ p. IsBlocks n s p) }
    {
        let list = block_list(alloc, n, s)?;
        Ok(Plan { shards: s, list })
    }

    /// The plan that a list gives: entry i is the shard of vertex i + 1. Refused at the first entry
    /// that is s or more; the list comes back.
    pub fn table(s: u8, list: Vec<u8>) -> Result<Plan, (PlanFault, Vec<u8>)>
        requires vertices { length list.items ≤ 2 ^ 25 }
        requires shards { (1 ≤ s) × (s ≤ 64) }
        ensures { MatchResult result (λ p. p ≡ record { shards = s; list = list.items })
            (λ e. IsBad s list.items e.0 × (e.1.items ≡ list.items)) }
    {
        match first_bad(s, &list) {
            Some(v) => Err((PlanFault::BadShard(v), list)),
            None => Ok(Plan { shards: s, list }),
        }
    }

    /// How many shards there are.
    pub fn shards(&self) -> u8
        ensures count { result ≡ self.now.shards }
        ensures within { (1 ≤ result) × (result ≤ 64) }
        // What holds of every plan, for callers that rely on it.
        ensures plan { IsPlan self.now }
    {
        self.shards
    }

    /// How many vertices have a shard.
    pub fn vertices(&self) -> u32
        ensures count { result ≡ length self.now.list }
        ensures within { result ≤ 2 ^ 25 }
    {
        self.list.len() as u32
    }

    /// The shard of a vertex.
    pub fn shard_of(&self, v: Vertex) -> Shard
        requires { HasPlanned self.now v }
        ensures shard { result ≡ shard_in self.now v }
        ensures within { result < self.now.shards }
    {
        Shard(self.list[v.0 as usize - 1])
    }
}

/// The shard of the vertex i + 1 of n.
fn block_of(i: u32, s: u8, n: u32) -> u8
    requires inside { i < n }
    requires vertices { n ≤ 2 ^ 25 }
    requires shards { (1 ≤ s) × (s ≤ 64) }
    ensures block { result ≡ i * s / n }
    ensures within { result < s }
{
    (u64::from(i) * u64::from(s) / u64::from(n)) as u8
}

/// The shards of the vertices 1 to n.
fn block_list(alloc: Global, n: u32, s: u8) -> Result<Vec<u8>, AllocError>
    requires vertices { n ≤ 2 ^ 25 }
    requires shards { (1 ≤ s) × (s ≤ 64) }
    ensures { IfOk result (λ list. (length list.items ≡ n) ×
        ((i : ℕ) → i < n → (slice_index_or list.items i 0 ≡ i * s / n) ×
        (slice_index_or list.items i 0 < s))) }
{
    let mut list = Vec::with_capacity(alloc, n as usize)?;
    for i in 0..n {
        list.push(block_of(i, s, n))?;
    }
    Ok(list)
}

/// The first vertex whose entry is s or more.
fn first_bad(s: u8, list: &[u8]) -> Option<Vertex>
    requires { length list.now ≤ 2 ^ 25 }
    ensures { MatchOption result (IsBelow s list.now) (IsFirstBadEntry s list.now) }
{
    for (i, shard) in list.iter().enumerate() {
        if *shard >= s {
            return Some(Vertex(i as u32 + 1));
        }
    }
    None
}
