//! Any reader or writer of std as an end of texts.
ghost use Rattle.std.specs.Prelude.{◌≡◌, ℕ, ◌+◌, ◌≤◌, ◌<◌, List, [], length, refl};

use crate::ends::{ReadFailed, RoadRead, RoadWrite, WriteFault};
use ghost_count::Count;
use std::io::{Read, Write};

/// A reader or writer of std. Each of its errors is a failure, and so is a write of some bytes that
/// takes none.
#[derive(Drop)]
pub struct Plain<T> {
    inner: T,
    failed: Count,
    reads: Count,
}

impl<T> Plain<T> {
    /// This reader or writer, with no failure so far.
    pub fn new(inner: T) -> Self
        ensures inner { result.inner ≡ inner }
        ensures sound { result.failed.total ≡ 0 }
        ensures asked { result.reads.total ≡ 0 }
    {
        Plain {
            inner,
            failed: Count::new(),
            reads: Count::new(),
        }
    }

    /// The reader or writer itself.
    pub fn into_inner(self) -> T
        ensures { result ≡ self.inner }
    {
        self.inner
    }
}

impl<T: Read> RoadRead for Plain<T> {
    ghost seen = { λ p. record { state = p; left = T.remaining p.inner; failures = p.failed.total; asked = p.reads.total } };

    fn read(&mut self, buf: &mut [u8]) -> Result<usize, ReadFailed> {
        self.reads = self.reads.next();
        match self.inner.read(buf) {
            Ok(n) => Ok(n),
            Err(_) => {
                self.failed = self.failed.next();
                Err(ReadFailed)
            }
        }
    }

    ghost itself = { λ _. refl };
}

impl<T: Write + Drop> RoadWrite for Plain<T> {
    ghost seen = { λ p. record { state = p; written = T.contents p.inner; held = []; failures = p.failed.total } };

    fn write(&mut self, buf: &[u8]) -> Result<usize, WriteFault> {
        match self.inner.write(buf) {
            Ok(n) if n > 0 || buf.is_empty() => Ok(n),
            _ => {
                self.failed = self.failed.next();
                Err(WriteFault)
            }
        }
    }

    fn flush(&mut self) -> Result<(), WriteFault> {
        match self.inner.flush() {
            Ok(()) => Ok(()),
            Err(_) => {
                self.failed = self.failed.next();
                Err(WriteFault)
            }
        }
    }

    ghost itself = { λ _. refl };
}
