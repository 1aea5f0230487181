//! Road graphs as files of lines. Readers return the graph of a file or its first fault; the writer
//! gives each graph its one spelling. Bundles, and questions over a graph, are in the crate above.
#![tactic(auto)]

mod from_arcs;
mod graph_builder;
mod graph_files;
mod graph_maker;
mod graph_parser;
mod laws;
mod number_fields;
pub mod rules;
mod writing;

pub use from_arcs::FromArcs;
pub use graph_builder::GraphBuilder;
pub use graph_files::{read_gr, read_gr_as};
pub use graph_parser::GraphParser;
pub use laws::{graph_read_again, lines_say_the_graph};
pub use number_fields::{number_up_to, vertex_of};
pub use writing::write_gr;
