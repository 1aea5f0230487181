//! Questions over a road graph, and bundles of a graph and questions, as files of lines. Readers
//! return the value of a file or its first fault; writers give each value its one spelling.
#![tactic(auto)]

mod bundle_files;
mod bundle_parser;
mod bundle_part;
mod laws;
mod present_list;
mod question_files;
mod question_parser;
mod questions;
mod questions_builder;
mod request_parser;
mod writing;
mod written_lines;

pub use bundle_files::{read_bundle, read_bundle_as};
pub use graph_text::rules;
pub use laws::{bundle_read_again, questions_read_again};
pub use question_files::{read_ms, read_p2p, read_questions, read_ss};
pub use questions::{Kind, Questions, are_same};
pub use request_parser::{Ended, LineDone, RequestParser};
pub use writing::{write_list, write_ms, write_p2p, write_ss};
