//! Route trees: for labels that are best from some sources, the least hops and the least parent of
//! each vertex, and routes along them.
//!
//! An arc is tight if extending the label of its tail gives the label of its head. The hops of a
//! vertex are the least number of arcs of a walk of tight arcs from a source to it. Its parent is
//! the least vertex with one hop less from which a tight arc leads to it. A tree is made in one
//! pass over the arcs that leave reached vertices. One route is found without the whole tree, by a
//! search from its target back.
#![tactic(auto)]

mod backward;
mod breadth_first;
mod found;
mod hops_and_parents;
mod laws;
mod lists;
mod pair_searcher;
mod region;
mod route_finder;
mod routes;
mod slot;
mod tight_tree;
mod tightness;

pub use found::{Found, Nearby};
pub use hops_and_parents::Tree;
pub use laws::{hops_tell_reached, labels_and_trees_agree, routes_follow_parents, trees_exist};
pub use pair_searcher::PairSearcher;
pub use route_finder::RouteFinder;
pub use routes::{route, route_between};
pub use slot::NumberSlot;
pub use tight_tree::{tree, tree_outgoing};
