//! A walk between two places of an order.

/// A walk to or from another place, as it is seen from one place of the order.
#[derive(Clone, Copy)]
pub struct Link<W: Copy> {
    /// The other place.
    pub place: u32,
    /// What the walk is worth.
    pub walk: W,
}
