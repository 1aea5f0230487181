//! Care: how much time an order may take.

/// How finely a graph is dissected.
#[derive(Clone, Copy, Debug, PartialEq, Eq)]
pub enum Care {
    /// It takes three to five times as long as approximate minimum degree.
    Fast,
    /// It takes half as long again, for a few links fewer.
    Careful,
}

impl Care {
    /// The degree up to which vertices are eliminated before the others are dissected. A vertex of
    /// a cut with three neighbours has one alone on a side, which could stand for it.
    pub(crate) fn degree(self) -> u32 {
        match self {
            Care::Fast => 4,
            Care::Careful => 3,
        }
    }

    /// How many vertices the largest piece has that is not cut, if so many are left in all.
    pub(crate) fn piece(self, left: usize) -> usize {
        match self {
            Care::Fast => (left / 64).min(400).max(100),
            Care::Careful => 100,
        }
    }

    /// How many of a hundred vertices of a piece are in each of the ends that are cut apart.
    pub(crate) fn percent(self) -> u32 {
        match self {
            Care::Fast => 35,
            Care::Careful => 30,
        }
    }
}
