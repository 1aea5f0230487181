//! The status numbers of handles and graphs. Those of answers are in `answer_lists`.

/// The handle has no graph.
pub(crate) const CLOSED: i32 = 4;
/// The handle has a graph already.
pub(crate) const OPEN: i32 = 5;
/// There are too many vertices or arcs.
pub(crate) const LIMIT: i32 = 16;
/// The arcs are not those of the graph.
pub(crate) const OTHER_ARCS: i32 = 46;
/// The arcs of the graph were not numbered.
pub(crate) const NO_NUMBERS: i32 = 47;
