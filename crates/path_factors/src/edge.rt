//! Both links between two places.

/// The links between a place and a greater one, both ways, as they are seen from the lesser.
#[derive(Clone, Copy)]
pub(crate) struct Edge<W: Copy> {
    /// The greater place.
    pub(crate) place: u32,
    /// What the link to it is worth.
    pub(crate) leaving: W,
    /// What the link from it is worth.
    pub(crate) entering: W,
}
