//! What a command may write beside its answers: accounts of the diffusions, and progress.

mod accounts;
mod progress;
mod watcher;

pub(crate) use progress::PATIENCE;
pub(crate) use watcher::CommandWatcher;
