//! Judges answers, and writes the verdict.

mod answers;
mod verdicts;

pub use answers::judge;
pub(crate) use verdicts::end_check;
pub use verdicts::write_verdict;
