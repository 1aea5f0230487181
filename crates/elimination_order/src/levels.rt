//! Levels: which vertices are eliminated before which others.

/// The level of each vertex, and the one that is eliminated at present.
#[derive(Drop)]
pub(crate) struct Levels {
    /// By index from 0; empty if there is only level 0.
    levels: Vec<u32>,
    /// Vertices of later levels are only neighbours until then.
    pub(crate) present: u32,
}

impl Levels {
    /// These levels, of which the first begins.
    pub(crate) fn new(levels: Vec<u32>) -> Self {
        Levels { levels, present: 0 }
    }

    /// The level of a vertex.
    #[inline]
    fn level(&self, v: u32) -> u32 {
        match self.levels.get(v as usize) {
            Some(level) => *level,
            None => 0,
        }
    }

    /// Whether a vertex is of the present level.
    #[inline]
    pub(crate) fn is_present(&self, v: u32) -> bool {
        self.level(v) == self.present
    }

    /// Whether two vertices are of the same level.
    #[inline]
    pub(crate) fn are_alike(&self, u: u32, v: u32) -> bool {
        self.level(u) == self.level(v)
    }
}
