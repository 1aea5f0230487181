//! The ends that texts are read from and written to.
ghost use Rattle.std.specs.Prelude.{◌≡◌, ℕ, zero, ◌+◌, ◌≤◌, ◌<◌, [], length, IfOk, OnOk, OnErr};
ghost use Rattle.std.specs.Io.KnownBytes.{ReadConsumes, WriteAppends, Keeps};
ghost use Rattle.text_lines.specs.Streams.{Input, Output};

use thiserror::Error;

/// A read that failed.
#[derive(Clone, Copy, Debug, PartialEq, Eq, Error)]
#[error("the reader failed")]
pub struct ReadFailed;

/// A write or a flush that failed.
#[derive(Clone, Copy, Debug, PartialEq, Eq, Error)]
#[error("the writer failed")]
pub struct WriteFault;

/// What texts are read from.
pub trait RoadRead {
    // The state, the bytes that later reads will give, if they are known, how many reads have
    // failed, and how many were asked for.
    ghost seen: { Self → Input Self };

    /// Reads some bytes into the start of the buffer and returns how many: none only at the end.
    fn read(&mut self, buf: &mut [u8]) -> Result<usize, ReadFailed>
        ensures bound { IfOk result (λ n. n ≤ length buf.new) }
        ensures bytes { ReadConsumes (seen self.old).left (seen self.new).left result buf.new }
        ensures sound { OnOk result ((seen self.new).failures ≡ (seen self.old).failures) }
        ensures failed { OnErr result ((seen self.new).failures ≡ (seen self.old).failures + 1) }
        ensures counted { (seen self.new).asked ≡ (seen self.old).asked + 1 };

    // The state is the reader itself.
    ghost itself: { (x : Self) → (seen x).state ≡ x };
}

/// What texts are written to.
pub trait RoadWrite: Drop {
    // The state, the bytes that were taken so far, if they are known, the last of them, which are
    // still buffered here, and how many writes and flushes have failed.
    ghost seen: { Self → Output Self };

    /// Takes a prefix of the bytes and returns its length: at least 1 if there are any bytes.
    fn write(&mut self, buf: &[u8]) -> Result<usize, WriteFault>
        ensures bound { IfOk result (λ n. n ≤ length buf.now) }
        ensures some { IfOk result (λ n. 0 < length buf.now → 0 < n) }
        ensures bytes { WriteAppends (seen self.old).written (seen self.new).written result buf.now }
        ensures sound { OnOk result ((seen self.new).failures ≡ (seen self.old).failures) }
        ensures failed { OnErr result ((seen self.new).failures ≡ (seen self.old).failures + 1) };

    /// Passes on what is buffered.
    fn flush(&mut self) -> Result<(), WriteFault>
        ensures bytes { Keeps (seen self.old).written (seen self.new).written }
        ensures empty { OnOk result ((seen self.new).held ≡ []) }
        ensures sound { OnOk result ((seen self.new).failures ≡ (seen self.old).failures) }
        ensures failed { OnErr result ((seen self.new).failures ≡ (seen self.old).failures + 1) };

    // The state is the writer itself.
    ghost itself: { (x : Self) → (seen x).state ≡ x };
}
