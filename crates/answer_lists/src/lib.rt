//! Routes, trees, tables, what is near and the check of a tree, in lists of numbers that a caller
//! lends.
#![tactic(auto)]

// The value of an expression with the searchers that are kept, whatever their algebra.
macro_rules! with_kept {
    ($kept:expr, |$searchers:ident| $value:expr) => {
        match $kept {
            $crate::kept::Kept::Shortest($searchers) => $value,
            $crate::kept::Kept::Widest($searchers) => $value,
            $crate::kept::Kept::Reach($searchers) => $value,
            $crate::kept::Kept::Hops($searchers) => $value,
            $crate::kept::Kept::Reliable($searchers) => $value,
            $crate::kept::Kept::Within($searchers) => $value,
        }
    };
}

mod algebra_number;
mod codes;
mod factored_graph;
mod factoring;
mod factoring_by;
mod judging;
mod kept;
mod lines;
mod near;
mod near_lists;
mod reweigh;
mod route;
mod route_arcs;
mod shared_graph;
mod sources;
mod status;
mod table;
mod table_rows;
mod tree;
mod tree_lists;

pub use algebra_number::AlgebraNumber;
pub use factoring::factor_graph;
pub use factoring_by::factor_graph_by;
pub use judging::{FirstRefuted, check_tree};
pub use lines::ListedTree;
pub use near::answer_near;
pub use near_lists::NearLists;
pub use reweigh::reweigh_graph;
pub use route::{RouteRoom, answer_route};
pub use route_arcs::{RouteArcsRoom, answer_route_arcs};
pub use shared_graph::SharedGraph;
pub use status::{
    DENSE, DONE, HEAVY, MEMORY, NO_ALGEBRA, NO_FACTORS, NO_LINK, NO_ORDER, NO_ROOM, NO_ROUTE,
    NO_VERTEX, STOPPED, WRONG,
};
pub use table::{TableEnds, answer_table};
pub use tree::answer_tree;
pub use tree_lists::TreeLists;
