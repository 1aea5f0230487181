//! Carré's elimination: a graph is factored once, by an order of its vertices, and then answered by
//! substitution.
//!
//! Any order gives right answers, a good one few links. A factor's links go between places of the
//! order; each is worth a walk of the graph, and two that meet at a lesser place are no better than
//! a way past it. So two sweeps over the links, up and down, find the best value of each vertex.
#![tactic(auto)]

mod asker;
mod better;
mod by_order;
mod chains;
mod climb;
mod edge;
mod factors;
mod few_weights;
mod find;
mod fits;
mod heads;
mod label_slot;
mod link;
mod load;
mod outline;
mod packed;
mod prune;
mod reweigh;
mod solve;
mod tree;
mod upward;
mod weighing;

pub use asker::Asker;
pub use factors::Factors;
pub use label_slot::CompactAlgebra;
pub use link::Link;
pub use prune::{Links, Making};
pub use reweigh::Unfit;
