//! Events of the computation.

use road_graph::ArcNo;

/// One event of the computation. Arc 0 leads from the environment to the source.
#[derive(Clone, Copy, Debug, PartialEq, Eq)]
pub enum Event {
    /// The message on this arc is handled at the arc's head.
    Deliver(ArcNo),
    /// The signal on this arc is handled at the arc's tail.
    Accept(ArcNo),
}
