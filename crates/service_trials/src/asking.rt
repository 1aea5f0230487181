//! Graphs, requests and replies for the tests of services, and a service over it.
use batch_run::{Gate, Run, RunFault, Settings};
use path_algebra::Shortest;
use service::run_service;
use std::sync::Wait;
use std::thread::Threads;
use text_lines::RoadWrite;
use text_trials::Pieces;

/// Five vertices. No arc leads to the last.
pub(crate) const FIVE: &str =
    "p sp 5 7\na 1 2 4\na 1 3 1\na 3 2 2\na 2 4 5\na 3 4 8\na 4 4 0\na 5 1 3\n";

/// Requests of all three kinds, and the replies to them over `FIVE`.
pub(crate) const ALL_KINDS: &str =
    "c three requests\n\np aux sp ss 1\ns 1\np aux sp p2p 3\n\nq 1 4\nq 4 1\nc the last\nq 5 5\n\np aux sp ms 2\r\nm 4 5\r\nm 5 2\r\n";

pub(crate) const ALL_REPLIES: &str =
    "p ans ss 1 shortest\ns 1\nd 1 0 0 0\nd 2 3 2 3\nd 3 1 1 1\nd 4 8 3 2\nu 5\np ans p2p 3 shortest\nq 1 4\nd 8 3\nr 1 3 2 4\nq 4 1\nu\nq 5 5\nd 0 0\nr 5\np ans ms 2 shortest\nm 4 5\nd 1 3 1 5\nd 2 6 3 3\nd 3 4 2 1\nd 4 0 0 0\nd 5 0 0 0\nm 5 2\nd 1 3 1 5\nd 2 0 0 0\nd 3 4 2 1\nd 4 5 1 2\nd 5 0 0 0\n";

/// One request, and the reply to it over `FIVE`.
pub(crate) const ONE: &str = "p aux sp p2p 1\nq 1 4\n";

pub(crate) const ONE_REPLY: &str = "p ans p2p 1 shortest\nq 1 4\nd 8 3\nr 1 3 2 4\n";

/// The settings of a service without workers.
pub(crate) fn plain() -> Settings {
    Settings {
        plain: true,
        ..Settings::default()
    }
}

/// How a service over `FIVE` ends.
pub(crate) fn serve<W: RoadWrite, R: AllocGlobal + Threads + Wait + Sync, T: Gate>(
    rt: &R,
    settings: &Settings,
    gate: &T,
    requests: &mut Pieces<'_>,
    out: &mut W,
) -> Result<(), RunFault> {
    let mut graph = Pieces::new(FIVE.as_bytes(), 64, false);
    let run = Run {
        rt,
        alloc: rt.alloc(),
        settings,
        gate,
    };
    run_service(&run, Shortest, &mut graph, &mut None, requests, out)
}
