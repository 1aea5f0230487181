//! What a batch reports while it runs, and to whom.
ghost use Rattle.batch_run.specs.declared.watcher.Progress.{Progress};

use question_solvers::{Counts, Factoring};
use road_graph::Vertex;
use shard_part::Tally;

/// What a batch reports while it runs.
#[derive(Clone, Copy, Debug, PartialEq, Eq)]
pub enum Progress {
    /// The questions were read: so many, over so many diffusions (none with `plain`).
    Begun {
        questions: u32,
        diffusions: u64,
    },
    /// With factors, if an order of elimination was sought and found: what it counted.
    Ordered {
        counts: Counts,
    },
    /// With factors, before the first question: the graph was factored, or was refused and why.
    Factored {
        became: Factoring,
    },
    /// The diffusion for this question, numbered from 1, from this source was gathered: its counts.
    Gathered {
        question: u32,
        source: Vertex,
        tally: Tally,
    },
    /// So many questions have been answered.
    Answered {
        questions: u32,
    },
}

/// Takes the reports of a batch as it goes; it can't stop it.
pub trait Watcher {
    // Given this report in the one state, it may be in the other afterwards.
    ghost may_become: { Self → Progress → Self → Type 0 };

    /// Takes note of a report.
    fn report(&mut self, report: Progress)
        ensures { may_become self.old report self.new };
}

/// The watcher that does nothing.
#[derive(Clone, Copy, Debug, Default, Drop)]
pub struct Unwatched;

impl Watcher for Unwatched {
    ghost may_become = { λ _ _ _. Unit {0} };

    fn report(&mut self, _report: Progress) {}
}
