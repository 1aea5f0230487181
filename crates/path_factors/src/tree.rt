//! The tree of an elimination: the parent of each place is its least head.
ghost use Rattle.std.specs.Prelude.{◌<◌, IfOk};
ghost use Rattle.path_factors.specs.Heads.{heads_in};
ghost use Rattle.path_factors.specs.Tree.{AreParentsTo, IsTreeParent};

use crate::weighing::Weighing;
use path_algebra::ComposingAlgebra;
use road_graph::Memory;
use std::alloc::{AllocError, Global};

impl<'g, A: ComposingAlgebra> Weighing<'g, A> {
    /// The least head of a place, or how many places there are if it has none.
    fn parent(&self, v: u32) -> u32
        requires { v < self.now.roads.vertices }
        ensures { IsTreeParent (heads_in self.now.factor.leaving) self.now.roads.vertices v result }
    {
        self.holds();
        let heads = self.rows.heads(v as usize);
        if 0 < heads.len() {
            heads[0]
        } else {
            self.graph.vertices()
        }
    }

    /// The parents of all places.
    pub(crate) fn parents(&self, alloc: Global) -> Result<Vec<u32>, Memory>
        ensures { IfOk result (λ parents. AreParentsTo (heads_in self.now.factor.leaving)
            self.now.roads.vertices self.now.roads.vertices parents.items) }
    {
        let n = self.graph.vertices();
        let mut parents = Vec::with_capacity(alloc, n as usize)?;
        for v in 0..n {
            parents.push(self.parent(v)).map_err(AllocError::from)?;
        }
        Ok(parents)
    }
}
