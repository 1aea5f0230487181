//! Answers to questions over a road graph: what the right answers are, and their text both ways.
#![tactic(auto)]

mod answer_lines;
mod answer_parser;
mod answers;
mod answers_builder;
mod laws;
mod lines;
mod number_fields;
mod present_numbers;
mod reading;
pub mod rules;
mod vertex_lines;
mod writing;

pub use answers::{Answer, Answers, Reached};
pub use laws::{
    an_answer_is_one, answers_are_one, first_answers_begin_all, right_answers_are_read_again,
    written_answers_are_read_again,
};
pub use reading::read_answers;
pub use vertex_lines::VertexLine;
pub use writing::{
    MAX_ANSWERS, write_answer, write_answers, write_header, write_source_line, write_sources_line,
    write_vertex_line,
};
