//! How long a command reads, solves and writes.

mod phases;
mod shown;
mod stopwatch;
mod timed_writer;

pub use phases::Phase;
pub use shown::{Times, show_times};
pub use stopwatch::Stopwatch;
pub use timed_writer::TimedWriter;
