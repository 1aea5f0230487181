//! What a search knows of a vertex that it has reached.

/// The value of a vertex, how many tight arcs lead to it, and the least vertex before it; 0 is
/// none.
#[derive(Clone, Copy)]
pub(crate) struct Mark<V: Copy> {
    pub(crate) value: V,
    pub(crate) hops: u32,
    pub(crate) parent: u32,
}
