//! Writes the right answers to questions that are solved.
mod answer;
mod lines;

pub(crate) use answer::{answer_at, source_text};
