//! Orders of elimination as files of lines: line v has the place of vertex v, counted from 0. This
//! is the form in which `ndmetis` writes them.
#![tactic(auto)]

mod order_files;
mod order_parser;
mod writing;

pub use order_files::read_order;
pub use writing::write_order;
