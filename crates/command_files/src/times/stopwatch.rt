//! Measures how long a command reads, solves and writes.

use crate::times::phases::Phase;
use crate::times::shown::Times;
use std::cell::Cell;
use std::time::{Clock, Duration};

/// A stopwatch for the phases of a command. Until it is started it measures nothing.
#[derive(Drop)]
pub struct Stopwatch<'c, C> {
    clock: &'c C,
    /// What the command does now, if that is measured.
    phase: Cell<Option<Phase>>,
    /// When it began that.
    since: Cell<Duration>,
    read: Cell<Duration>,
    solved: Cell<Duration>,
    wrote: Cell<Duration>,
}

/// A time in milliseconds.
fn milliseconds(time: Duration) -> u64 {
    time.as_secs()
        .saturating_mul(1_000)
        .saturating_add(u64::from(time.subsec_millis()))
}

impl<'c, C: Clock> Stopwatch<'c, C> {
    /// A stopwatch by this clock.
    pub fn new(clock: &'c C) -> Self {
        Stopwatch {
            clock,
            phase: Cell::new(None),
            since: Cell::new(Duration::ZERO),
            read: Cell::new(Duration::ZERO),
            solved: Cell::new(Duration::ZERO),
            wrote: Cell::new(Duration::ZERO),
        }
    }

    /// Begins to measure: the command reads.
    pub fn start(&self) {
        self.go_on(Some(Phase::Reading));
    }

    /// The command begins this, and ends what it did before.
    pub fn enter(&self, phase: Phase) {
        if self.phase.get().is_some() {
            self.go_on(Some(phase));
        }
    }

    /// Whether the command solves now.
    pub fn solves(&self) -> bool {
        self.phase.get() == Some(Phase::Solving)
    }

    /// Ends the measuring, and gives the times, if any were measured.
    pub fn stop(&self) -> Option<Times> {
        self.phase.get()?;
        self.go_on(None);
        Some(Times {
            read: milliseconds(self.read.get()),
            solve: milliseconds(self.solved.get()),
            write: milliseconds(self.wrote.get()),
        })
    }

    /// Adds the time since the last phase began to that phase, and begins the next. A clock that
    /// can't be read stands still.
    fn go_on(&self, next: Option<Phase>) {
        let since = self.since.get();
        let now = self.clock.monotonic().unwrap_or(since);
        let took = now.saturating_sub(since);
        match self.phase.get() {
            Some(Phase::Reading) => self.read.set(self.read.get().saturating_add(took)),
            Some(Phase::Solving) => self.solved.set(self.solved.get().saturating_add(took)),
            Some(Phase::Writing) => self.wrote.set(self.wrote.get().saturating_add(took)),
            None => {}
        }
        self.since.set(now);
        self.phase.set(next);
    }
}
