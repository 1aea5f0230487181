//! The assembly tree: which vertex each is eliminated with, and which element absorbs its own.

use crate::lists::NONE;

/// A vertex in the assembly tree.
#[derive(Clone, Copy)]
pub(crate) struct TreeNode {
    /// The vertex that it was merged into, or that it was eliminated with; `NONE` if it became an
    /// element of its own.
    pub(crate) principal: u32,
    /// The vertex whose element absorbed its own, or the only member of its own; `NONE` at a root.
    pub(crate) parent: u32,
}

impl TreeNode {
    /// A vertex that is not eliminated.
    pub(crate) fn new() -> Self {
        TreeNode {
            principal: NONE,
            parent: NONE,
        }
    }
}
