//! The tree that hops and parents make.

ghost use Rattle.std.specs.Prelude.{◌≡◌, ◌≤◌, IfOk, None, length, replicate};

use crate::slot::NumberSlot;
use road_graph::{Memory, Vertex};
use std::alloc::Global;
use std::marker::Model;

/// The hops and the parent of each vertex.
#[derive(Drop)]
pub struct Tree {
    pub(crate) hops: Vec<NumberSlot>,
    pub(crate) parents: Vec<NumberSlot>,
}

impl Model for Tree {
    ghost use Rattle.std.specs.Prelude.{ℕ, List, Option};
    ghost use Rattle.route_tree.specs.Tree.{Branches, IsLinked};

    ghost Value = { Branches };

    ghost view = { λ t. record { hops = t.hops.items; parents = t.parents.items } };

    ghost invariant = { λ t. IsLinked (record { hops = t.hops.items; parents = t.parents.items }) };
}

impl Tree {
    ghost use Rattle.route_tree.specs.Tree.{hops_of, parent_of, IsLinked};

    /// The tree of these hops and parents, as a solver found them while it searched.
    pub fn from_parts(hops: Vec<NumberSlot>, parents: Vec<NumberSlot>) -> Self
        requires { IsLinked (record { hops = hops.items; parents = parents.items }) }
        ensures { result ≡ record { hops = hops.items; parents = parents.items } }
    {
        Tree { hops, parents }
    }

    /// A tree of n vertices in which none has hops or a parent.
    pub(crate) fn blank(alloc: Global, n: usize) -> Result<Tree, Memory>
        ensures hops { IfOk result (λ tree. tree.hops ≡ replicate n None) }
        ensures parents { IfOk result (λ tree. tree.parents ≡ replicate n None) }
    {
        let hops = vec![in alloc; NumberSlot::none(); n]?;
        let parents = vec![in alloc; NumberSlot::none(); n]?;
        Ok(Tree::from_parts(hops, parents))
    }

    /// The hops and the parents.
    pub(crate) fn into_parts(self) -> (Vec<NumberSlot>, Vec<NumberSlot>)
        ensures hops { result.0.items ≡ self.hops }
        ensures parents { result.1.items ≡ self.parents }
    {
        (self.hops, self.parents)
    }

    /// The number of vertices, which are 1 to this number.
    pub fn vertices(&self) -> usize
        ensures { result ≡ length self.now.hops }
    {
        self.hops.len()
    }

    /// What holds of every tree: each parent has one hop less than its child. Nothing is computed.
    #[inline]
    pub fn holds(&self)
        ensures { IsLinked self.now }
    {
        // The invariant is known where a field is used.
        let _ = &self.hops;
    }

    /// The least number of arcs of a walk of tight arcs from a source; none if no walk has a value.
    pub fn hops(&self, v: Vertex) -> Option<u32>
        requires low { 1 ≤ v }
        requires high { v ≤ length self.now.hops }
        ensures { result ≡ hops_of self.now v }
    {
        self.hops[v.0 as usize - 1].get()
    }

    /// The least vertex with a tight arc to this one and one hop less; none at a source, and none
    /// if there are no hops.
    pub fn parent(&self, v: Vertex) -> Option<Vertex>
        requires low { 1 ≤ v }
        requires high { v ≤ length self.now.hops }
        ensures { result ≡ parent_of self.now v }
    {
        match self.parents[v.0 as usize - 1].get() {
            Some(u) => Some(Vertex(u)),
            None => None,
        }
    }
}
