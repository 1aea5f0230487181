//! How a call ends before it has its answer: by a stop that its caller sets, or after some steps.
#![tactic(auto)]

mod halt;
mod stop;
mod unfinished;

pub use halt::Halt;
pub use stop::{Stop, is_stopped, look_at};
pub use unfinished::Unfinished;
