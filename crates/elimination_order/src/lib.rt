//! An order in which to eliminate the vertices of a graph, sought so that few links come about.
//!
//! It is by approximate minimum degree (Amestoy, Davis and Duff, SIAM J. Matrix Anal. Appl. 17,
//! 1996), over a quotient graph: an eliminated vertex becomes an element, whose members are
//! neighbours of each other with no list of that; degrees are upper bounds; an element that another
//! one contains is absorbed; indistinguishable vertices are merged into one, a supervariable; and
//! dense rows, vertices with very many neighbours, go last. The order is a postorder of the
//! assembly tree.
//!
//! Or it is by nested dissection (George, SIAM J. Numer. Anal. 10, 1973): first vertices of low
//! degree are eliminated, and then what is left is cut, again and again. Each cut is a least one
//! between two ends, by a flow, and goes after what it parts, so that a vertex has few others above
//! it in the tree. Flows are given up after a bounded work, and what is not cut by then stays whole.
//!
//! Any order gives right answers. Of one that is found it is claimed that it has each vertex once, on
//! which graph it was found, and how, as no other crate can claim; not that it is a good one.
//! The links and triangles that it makes are counted as it comes about, and a graph with too many is
//! given up; that the counts are those of the order is not claimed.
#![tactic(auto)]

mod assembly_tree;
mod augmenting;
mod care;
mod carrier;
mod counts;
mod cut;
mod degree_lists;
mod degree_update;
mod dissection;
mod dissection_order;
mod distances;
mod elimination;
mod flow;
mod hash_buckets;
mod levels;
mod lists;
mod minimum_degree;
mod neighbours;
mod node;
mod order;
mod order_builder;
mod ordered;
mod piece;
mod pivot;
mod plane;
mod postorder;
mod quotient_graph;
mod ranking;
mod remainder;
mod residual;
mod supervariables;

pub use care::Care;
pub use counts::Counts;
pub use dissection_order::nested_dissection;
pub use minimum_degree::approximate_minimum_degree;
pub use order::Order;
pub use order_builder::OrderBuilder;
pub use ordered::{FoundOrder, Ordered};
