//! The one-thread solver: best values from a list of sources, vertices settled best first, for
//! every lawful algebra.
//!
//! The running engine is measured against it, and the checker finds best values by it.
#![tactic(auto)]

mod laws;
mod search;
mod searcher;
mod solve;
mod touched;

pub use laws::{best_values_exist, labels_serve_nearer_targets};
pub use searcher::Searcher;
pub use solve::{solve_one, solve_outgoing, solve_to};
