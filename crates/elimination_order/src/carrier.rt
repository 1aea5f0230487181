//! A vertex in a flow, which carries one unit at most.

use crate::lists::NONE;

/// Where a unit that begins comes from, and one that ends goes to.
pub(crate) const OUTSIDE: u32 = NONE - 1;

/// The distance of a gate that no path goes through.
pub(crate) const CLOSED: u32 = NONE - 1;

/// The end of a piece that a vertex is in.
#[derive(Clone, Copy, PartialEq, Eq)]
pub(crate) enum End {
    Neither,
    First,
    Last,
}

/// A gate of a vertex: units come in at its entry and leave at its exit.
#[derive(Clone, Copy)]
pub(crate) enum Gate {
    Entry(u32),
    Exit(u32),
}

/// Which way a search goes: back from the last end, or on from the first.
#[derive(Clone, Copy)]
pub(crate) enum Way {
    Back,
    On,
}

impl Way {
    /// The gate of a vertex at which the search comes to it from others.
    #[inline]
    pub(crate) fn near(self, v: u32) -> Gate {
        match self {
            Way::Back => Gate::Exit(v),
            Way::On => Gate::Entry(v),
        }
    }

    /// The gate of a vertex from which the search goes to others.
    #[inline]
    pub(crate) fn far(self, v: u32) -> Gate {
        match self {
            Way::Back => Gate::Entry(v),
            Way::On => Gate::Exit(v),
        }
    }
}

/// What a vertex carries, and what the last search found.
#[derive(Clone, Copy)]
pub(crate) struct Carrier {
    pub(crate) end: End,
    /// The vertex that its unit comes from; `NONE` if it carries none.
    pub(crate) before: u32,
    /// The vertex that its unit goes to.
    pub(crate) after: u32,
    /// The distance of its entry; `NONE` if it is not reached.
    pub(crate) entry: u32,
    /// The distance of its exit.
    pub(crate) exit: u32,
    /// How many of its neighbours lead nowhere.
    pub(crate) tried: u32,
}

impl Carrier {
    /// A vertex in an end, with no unit.
    pub(crate) fn new(end: End) -> Self {
        Carrier {
            end,
            before: NONE,
            after: NONE,
            entry: CLOSED,
            exit: CLOSED,
            tried: 0,
        }
    }

    /// Whether it carries a unit.
    #[inline]
    pub(crate) fn carries(&self) -> bool {
        self.before != NONE
    }

    /// Whether a unit may begin here.
    #[inline]
    pub(crate) fn may_begin(&self) -> bool {
        self.end == End::First && self.before != OUTSIDE
    }

    /// Where its unit comes from or goes to, on the side that a search comes from.
    #[inline]
    pub(crate) fn joined(&self, way: Way) -> u32 {
        match way {
            Way::Back => self.after,
            Way::On => self.before,
        }
    }
}
