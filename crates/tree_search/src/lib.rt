//! The one-thread solver that finds hops and parents while it searches: best values and their tree
//! from one pass.
//!
//! Vertices are settled by value, and by hops if values tie. Along a tight arc the value gets no
//! better and the hops grow, so a settled vertex never changes, even if an arc costs nothing, and
//! no second pass over the tight arcs is made. For algebras whose values mostly tie, the two passes
//! of `path_plain` and `route_tree` take less time, and are used.
#![tactic(auto)]

mod hops_and_place;
mod mark;
mod search;
mod searcher;
mod solve;
mod step;
mod table;

pub use searcher::TreeSearcher;
pub use solve::{solve_with_tree, solve_with_tree_unless};
