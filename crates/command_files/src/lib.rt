//! What a command works with: its files and streams, opened as its words ask, and its stopwatch.
#![tactic(auto)]

mod creating;
mod files;
mod host;
mod opened_input;
mod opening;
mod refusal;
mod times;

pub use creating::{ERRORS_NAME, OUTPUT_NAME, create_accounts};
pub use files::{FileSystem, HostFiles};
pub use host::{Host, Streams};
pub use opened_input::OpenedInput;
pub use opening::{STDIN_NAME, choose, open_pair, open_to_bundle, open_to_check, open_to_order};
pub use refusal::{Refusal, refuse};
pub use times::{Phase, Stopwatch, TimedWriter, Times, show_times};
