//! A service over a graph, from bytes to bytes. The graph is read once, and each request is
//! answered as soon as it is whole.
#![tactic(auto)]

mod batch_answers;
mod fault_lines;
mod feeding;
mod graph_input;
mod laws;
mod read_watcher;
mod replies;
mod run;
mod service;
mod serving;

pub use laws::{files_are_requests, lines_do_what_is_said, requests_are_texts, requests_stay};
pub use read_watcher::ReadWatcher;
pub use run::{run_service, run_service_watched};
