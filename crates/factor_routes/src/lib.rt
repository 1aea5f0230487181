//! Routes from a factored graph, for algebras whose best values are least sums of costs.
//!
//! The graph is factored for numbers that carry hops: the sum of what a walk's arcs cost above the
//! low bits, and in them how many arcs it has. A best number says the best value and the hops of a
//! vertex, and its parent is the least tail whose number and arc add up to it. So trees are found
//! by two sweeps and a pass over the arcs, and a route by steps back from its target alone.
#![tactic(auto)]

mod carried;
mod findings;
mod fitting;
mod least_tail;
mod near;
mod numbers;
mod pairs;
mod reweighed;
mod road_factors;
mod solve;

pub use near::find_near;
pub use pairs::Pair;
pub use reweighed::Unweighed;
pub use road_factors::{RoadFactors, RouteAsker, Unfactored};
