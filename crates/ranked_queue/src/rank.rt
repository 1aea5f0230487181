//! What entries of equal value are ordered by.
ghost use Rattle.std.specs.Prelude.{◌≡◌, ℕ};

use road_graph::ArcNo;

/// What entries of equal value are ordered by: those of lesser numbers come first.
pub trait Rank: Copy {
    ghost number: { Self → ℕ };

    /// The number.
    fn number(self) -> u64
        ensures { result ≡ number self };
}

impl Rank for usize {
    ghost number = { λ n. n };

    fn number(self) -> u64 {
        self as u64
    }
}

impl Rank for ArcNo {
    ghost number = { λ a. a };

    fn number(self) -> u64 {
        u64::from(self.0)
    }
}
