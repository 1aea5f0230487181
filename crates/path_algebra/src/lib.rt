//! Path algebras: what a route is worth, which of two routes is better, and the labels that the
//! vertices of a graph get.
//!
//! A `PathAlgebra` gives values to walks: the walk of no arcs has the origin, each further arc
//! extends a value or refuses it, and a total order says which of two values is no worse. Six
//! algebras are given, and a caller's own serves just like them once its implementation has proved
//! the laws. Solvers, engine, trees and checker rest on these laws and on the theorems of `laws`.
#![tactic(auto)]

mod algebra;
mod choice;
mod composing;
mod counted_sums;
mod hops;
mod labels;
mod laws;
mod name;
mod numbers;
mod reach;
mod reliable;
mod shortest;
mod widest;
mod within;

pub use algebra::PathAlgebra;
pub use choice::AlgebraChoice;
pub use composing::{ComposingAlgebra, composition_holds};
pub use counted_sums::{Cost, CountedSums};
pub use hops::Hops;
pub use labels::{Labels, better_label};
pub use laws::{
    best_values_are_unique, closed_labels_are_best, laws_hold, merged_labels_are_best,
    names_are_read_back, shortest_values_are_least_sums, simple_walks_are_listed, tight_arcs_reach,
    width_then_hops_is_not_lawful,
};
pub use name::AlgebraName;
pub use numbers::best_numbers_carry_hops;
pub use reach::Reach;
pub use reliable::Reliable;
pub use shortest::Shortest;
pub use widest::Widest;
pub use within::Within;
