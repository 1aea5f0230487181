//! What entries of equal value are ordered by.

ghost use Rattle.std.specs.Prelude.{◌≡◌, ◌+◌, ◌*◌};

use ranked_queue::Rank;

/// Hops that a vertex was offered, and its place among the marks, which counts only if the hops
/// tie.
#[derive(Clone, Copy)]
pub(crate) struct HopsAndPlace {
    pub(crate) hops: u32,
    pub(crate) place: u32,
}

impl Rank for HopsAndPlace {
    ghost number = { λ k. k.hops * 4294967296 + k.place };

    fn number(self) -> u64 {
        u64::from(self.hops) * 4294967296 + u64::from(self.place)
    }
}
