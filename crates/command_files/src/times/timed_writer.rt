//! The output of a command whose phases are measured.
ghost use Rattle.std.specs.Prelude.{◌≡◌, refl};

use crate::times::phases::Phase;
use crate::times::stopwatch::Stopwatch;
use std::time::Clock;
use text_lines::{RoadWrite, WriteFault};

/// An output that tells a stopwatch when solving ends and an answer is written.
#[derive(Drop)]
pub struct TimedWriter<'s, 'c, W, C> {
    inner: W,
    stopwatch: &'s Stopwatch<'c, C>,
}

impl<'s, 'c, W: RoadWrite, C: Clock> TimedWriter<'s, 'c, W, C> {
    /// This output, before this stopwatch.
    pub fn new(inner: W, stopwatch: &'s Stopwatch<'c, C>) -> Self
        ensures { result.inner ≡ inner }
    {
        TimedWriter { inner, stopwatch }
    }

    /// Something is written: if questions were solved before, that has ended.
    #[inline(always)]
    fn writes(&self) {
        if self.stopwatch.solves() {
            self.stopwatch.enter(Phase::Writing);
        }
    }
}

impl<W: RoadWrite, C: Clock> RoadWrite for TimedWriter<'_, '_, W, C> {
    ghost seen = { λ t. record {
      state = t;
      written = (W.seen t.inner).written;
      held = (W.seen t.inner).held;
      failures = (W.seen t.inner).failures;
    } };

    #[inline(always)]
    fn write(&mut self, buf: &[u8]) -> Result<usize, WriteFault> {
        self.writes();
        self.inner.write(buf)
    }

    fn flush(&mut self) -> Result<(), WriteFault> {
        self.writes();
        self.inner.flush()
    }

    ghost itself = { λ _. refl };
}
