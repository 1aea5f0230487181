//! Checks an answer list against its graph and questions, without solving what the list itself
//! certifies.
//!
//! An answer for all vertices carries its own certificate: each line is judged by the lines of the
//! vertices with an arc to it. Vertices are judged in parallel, and the verdict is the same as with
//! one thread.
#![tactic(auto)]

mod answers;
mod case;
mod checking;
mod chunks;
mod evidence;
mod laws;
mod lines;
mod pairs;
mod pass;
mod place;
mod suspects;
mod verdict;
mod vertex_lines;
mod vertices;

pub use checking::check;
pub use laws::right_lines_are_certified;
pub use lines::first_wrong_line;
pub use place::Place;
pub use verdict::{Reason, Verdict};
pub use vertex_lines::VertexLines;
