//! Solves questions by searches and by the factors of their graph.
#![tactic(auto)]

mod ahead;
mod askers;
mod factor_solver;
mod factors;
mod order_care;
mod pair_search;
mod pair_solver;
mod pairs;
mod plain;
mod plain_solver;
mod searched;
mod side_by_side;
mod solved;
mod task;

pub use elimination_order::Counts;
pub use factor_solver::{FactorSolver, Factoring, NoFactors};
pub use factors::{factor, seek_order, solve_next_by_factors, start_factors};
pub use plain::{solve_next_plainly, start_plain};
pub use plain_solver::PlainSolver;
pub use solved::Solved;
pub use task::Task;
