//! The engine for callers in C: a graph behind a handle, routes, trees, tables and what is near by
//! six algebras, and whether a tree is right.
#![tactic(auto)]

ghost use Rattle.std.specs.Prelude.{◌≡◌};

mod arcs;
mod box_pointer;
mod factors;
mod graphs;
mod handle;
mod held;
mod joining;
mod leaving;
mod near;
mod numbers;
mod opening;
mod owners;
mod questions;
mod reading;
mod reweigh;
mod status;
mod stops;
mod tables;

pub use arcs::DiffuseArc;
pub use factors::{diffuse_graph_factor, diffuse_graph_factor_by};
pub use graphs::{
    diffuse_graph_arcs, diffuse_graph_close, diffuse_graph_open, diffuse_graph_share,
    diffuse_graph_vertices,
};
pub use handle::DiffuseGraph;
pub use leaving::diffuse_graph_arcs_from;
pub use near::diffuse_graph_near;
pub use numbers::{diffuse_graph_number, diffuse_graph_route_arcs};
pub use questions::{diffuse_graph_check, diffuse_graph_route, diffuse_graph_tree};
pub use reading::diffuse_graph_read;
pub use reweigh::diffuse_graph_reweigh;
pub use stops::{
    DiffuseStop, diffuse_graph_stop_by, diffuse_stop_clear, diffuse_stop_free, diffuse_stop_new,
    diffuse_stop_set,
};
pub use tables::diffuse_graph_table;

/// The library's version: 10,000 times the first number, 100 times the second, and the third.
#[unsafe(no_mangle)]
pub extern "C" fn diffuse_version() -> u32
    ensures { result ≡ 10200 }
{
    10_200
}
