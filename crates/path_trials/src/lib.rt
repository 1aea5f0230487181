//! The tests of the graph, the algebras, the queue, the solver, the trees and the engine, through
//! what these crates make public.
//!
//! They are here and not in each crate, so that no crate is proved a second time with its tests.
#![tactic(auto)]

#[cfg(test)]
mod algebras;
#[cfg(test)]
mod cores;
#[cfg(test)]
mod ends;
#[cfg(test)]
mod graphs;
#[cfg(test)]
mod near;
#[cfg(test)]
mod plain_solver;
#[cfg(test)]
mod queues;
mod samples;
#[cfg(test)]
mod trees;

pub use samples::{FIVE, PARALLEL, is_found, made};
