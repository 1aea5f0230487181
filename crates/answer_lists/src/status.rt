//! The status numbers of answers.

/// The answer is written.
pub const DONE: i32 = 0;
/// No walk to the target has a value.
pub const NO_ROUTE: i32 = 1;
/// The room for the answer is too short, or a list does not have just one place for each vertex.
pub const NO_ROOM: i32 = 2;
/// Out of memory.
pub const MEMORY: i32 = 3;
/// The lists are not the tree.
pub const WRONG: i32 = 6;
/// So many arcs join the vertices that factors would not pay.
pub const DENSE: i32 = 7;
/// The weights are so great that a sum with its hops may not fit into 63 bits.
pub const HEAVY: i32 = 8;
/// The algebra has no factors.
pub const NO_FACTORS: i32 = 9;
/// A vertex or an arc's end is out of range.
pub const NO_VERTEX: i32 = 17;
/// The number names no algebra, or its limit is too great.
pub const NO_ALGEBRA: i32 = 43;
/// An arc joins vertices between which factors have no link.
pub const NO_LINK: i32 = 44;
/// The stop was set before there was an answer.
pub const STOPPED: i32 = 45;
/// A list of places does not have each place once.
pub const NO_ORDER: i32 = 48;
