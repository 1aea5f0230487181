//! What is found of vertices, one after the other.
ghost use Rattle.std.specs.Prelude.{◌≡◌, ◌++◌, ◌∷◌, [], OnOk, IfOk};
ghost use Rattle.route_tree.specs.Tree.{IsLinked};

use path_algebra::Labels;
use road_graph::Memory;
use route_tree::{NumberSlot, Tree};
use std::alloc::{AllocError, Global};

/// The best value, the least hops and the least parent of a vertex, each of them if it has one.
#[derive(Clone, Copy)]
pub(crate) struct Finding<V: Copy> {
    pub(crate) value: Option<V>,
    pub(crate) hops: NumberSlot,
    pub(crate) parent: NumberSlot,
}

/// The findings of vertices 1, 2, .., in the lists that labels and trees are made of.
#[derive(Drop)]
pub(crate) struct Findings<V: Copy> {
    pub(crate) values: Vec<Option<V>>,
    pub(crate) hops: Vec<NumberSlot>,
    pub(crate) parents: Vec<NumberSlot>,
}

impl<V: Copy> Findings<V> {
    /// No finding, and room for n.
    pub(crate) fn new(alloc: Global, n: usize) -> Result<Self, Memory>
        ensures values { IfOk result (λ f. f.values.items ≡ []) }
        ensures hops { IfOk result (λ f. f.hops.items ≡ []) }
        ensures parents { IfOk result (λ f. f.parents.items ≡ []) }
    {
        let values = Vec::with_capacity(alloc, n)?;
        let hops = Vec::with_capacity(alloc, n)?;
        let parents = Vec::with_capacity(alloc, n)?;
        Ok(Findings {
            values,
            hops,
            parents,
        })
    }

    /// The finding of the next vertex.
    pub(crate) fn push(&mut self, finding: Finding<V>) -> Result<(), Memory>
        ensures values { OnOk result (self.new.values.items ≡ self.old.values.items ++ (finding.value ∷ [])) }
        ensures hops { OnOk result (self.new.hops.items ≡ self.old.hops.items ++ (finding.hops ∷ [])) }
        ensures parents { OnOk result (self.new.parents.items ≡ self.old.parents.items ++ (finding.parent ∷ [])) }
    {
        self.values.push(finding.value).map_err(AllocError::from)?;
        self.hops.push(finding.hops).map_err(AllocError::from)?;
        self.parents.push(finding.parent).map_err(AllocError::from)?;
        Ok(())
    }

    /// The values as labels, the hops and parents as a tree.
    pub(crate) fn into_labels_and_tree(self) -> (Labels<V>, Tree)
        requires { IsLinked (record { hops = self.hops.items; parents = self.parents.items }) }
        ensures labels { result.0 ≡ self.values.items }
        ensures tree { result.1 ≡ record { hops = self.hops.items; parents = self.parents.items } }
    {
        (
            Labels::from_vec(self.values),
            Tree::from_parts(self.hops, self.parents),
        )
    }
}
