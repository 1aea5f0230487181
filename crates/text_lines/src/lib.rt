//! Texts of lines: what they are read from and written to, their lines, fields and numbers, one
//! reader for every kind of text, and writers of lines. The kinds of texts are defined in the
//! crates above.
#![tactic(auto)]

mod buffered;
mod ends;
mod faults;
mod field_taker;
mod fields_of;
mod laws;
mod line_cutter;
mod line_parser;
mod line_words;
mod lists;
mod number_fields;
mod pieces;
mod plain;
mod reader;
mod reading;
mod runs;
mod scanner;
mod short_lines;
mod slots;

pub use buffered::{BUFFERED, Buffered};
pub use ends::{ReadFailed, RoadRead, RoadWrite, WriteFault};
pub use faults::{Halt, LineFault, MEMORY, READ_FAILED, ReadFault, Rule, TOO_LONG};
pub use field_taker::FieldTaker;
pub use laws::{finds_first_fault, numbers_read_again, text_read_again};
pub use line_cutter::LineCutter;
pub use line_parser::LineParser;
pub use line_words::{Line, push_number, push_spaced};
pub use lists::push_item;
pub use number_fields::limited_number;
pub use pieces::write_bytes;
pub use plain::Plain;
pub use reader::MAX_BYTES;
pub use reading::{read_text, read_whole};
pub use scanner::Scanner;
pub use slots::Slot;
