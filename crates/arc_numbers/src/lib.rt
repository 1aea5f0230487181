//! The numbers of the arcs of a graph by tail, and the arcs that a route takes.
//!
//! A route is a list of vertices. Where several arcs join two of them, the route takes the one that
//! extends its value best, and of those that do the one with the least number: so the code of a
//! route is that of its arcs. The numbers are kept beside the graph, in 4 bytes for each arc and 4
//! for each vertex.
#![tactic(auto)]

mod best_road;
mod numbers;
mod route_arcs;
mod rows;
mod same_roads;

pub use numbers::ArcNumbers;
