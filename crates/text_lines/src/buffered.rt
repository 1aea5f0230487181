//! Collects small writes into large ones.
ghost use Rattle.std.specs.Prelude.{◌≡◌, ℕ, ◌+◌, ◌≤◌, ◌<◌, List, [], ◌++◌, drop, take, length, OnOk, OnErr, IfOk, vec_len, vec_capacity, refl};
ghost use Rattle.std.specs.Io.KnownBytes.{append_known, WriteAppends, Appends, Keeps};

use crate::ends::{RoadWrite, WriteFault};
use std::alloc::{AllocError, Global};

/// How many bytes are buffered before they are passed on.
pub const BUFFERED: usize = 65_536;

/// A writer with a buffer before it. Flush it before it is dropped: what is still buffered then is
/// lost.
#[derive(Drop)]
pub struct Buffered<W> {
    inner: W,
    buf: Vec<u8>,
}

impl<W> Buffered<W> {
    /// An empty buffer before this writer. All its memory is reserved here.
    pub fn new(alloc: Global, inner: W) -> Result<Self, AllocError>
    where
        W: Drop,
        ensures inner { IfOk result (λ g. g.inner ≡ inner) }
        ensures empty { IfOk result (λ g. g.buf.items ≡ []) }
        ensures room { IfOk result (λ g. BUFFERED ≤ vec_capacity g.buf) }
    {
        Ok(Buffered {
            inner,
            buf: Vec::with_capacity(alloc, BUFFERED)?,
        })
    }

    /// The inner writer.
    pub fn inner(&self) -> &W
        ensures { result.now ≡ self.now.inner }
    {
        &self.inner
    }
}

impl<W: RoadWrite> Buffered<W> {
    /// Writes the buffered bytes to the inner writer. What a failed write leaves stays buffered.
    fn pass_on(&mut self) -> Result<(), WriteFault>
        ensures bytes { Keeps (append_known (W.seen self.old.inner).written self.old.buf.items)
            (append_known (W.seen self.new.inner).written self.new.buf.items) }
        ensures empty { OnOk result (self.new.buf.items ≡ []) }
        ensures room { OnOk result (vec_len self.new.buf ≡ 0) }
        ensures capacity { vec_capacity self.new.buf ≡ vec_capacity self.old.buf }
        ensures sound { OnOk result ((W.seen self.new.inner).failures ≡
            (W.seen self.old.inner).failures) }
        ensures failed { OnErr result ((W.seen self.new.inner).failures ≡
            (W.seen self.old.inner).failures + 1) }
    {
        let (written, result) = write_out(self.buf.as_slice(), &mut self.inner);
        remove_prefix(&mut self.buf, written);
        result
    }

    #[cold]
    #[inline(never)]
    fn write_cold(&mut self, buf: &[u8]) -> Result<usize, WriteFault>
        ensures bound { IfOk result (λ n. n ≤ length buf.now) }
        ensures some { IfOk result (λ n. 0 < length buf.now → 0 < n) }
        ensures bytes { WriteAppends (append_known (W.seen self.old.inner).written
            self.old.buf.items) (append_known (W.seen self.new.inner).written self.new.buf.items)
            result buf.now }
        ensures sound { OnOk result ((W.seen self.new.inner).failures ≡
            (W.seen self.old.inner).failures) }
        ensures failed { OnErr result ((W.seen self.new.inner).failures ≡
            (W.seen self.old.inner).failures + 1) }
    {
        self.pass_on()?;
        if buf.len() >= self.buf.capacity() {
            return self.inner.write(buf);
        }
        append(&mut self.buf, buf);
        Ok(buf.len())
    }
}

impl<W: RoadWrite> RoadWrite for Buffered<W> {
    ghost seen = { λ g. record {
      state = g;
      written = append_known (W.seen g.inner).written g.buf.items;
      held = (W.seen g.inner).held ++ g.buf.items;
      failures = (W.seen g.inner).failures;
    } };

    #[inline(always)]
    fn write(&mut self, buf: &[u8]) -> Result<usize, WriteFault> {
        if buf.len() <= self.buf.capacity() - self.buf.len() {
            append(&mut self.buf, buf);
            return Ok(buf.len());
        }
        self.write_cold(buf)
    }

    fn flush(&mut self) -> Result<(), WriteFault> {
        self.pass_on()?;
        self.inner.flush()
    }

    ghost itself = { λ _. refl };
}

/// Writes until all is written or a write fails, and returns how many bytes were written.
fn write_out<W: RoadWrite>(bytes: &[u8], to: &mut W) -> (usize, Result<(), WriteFault>)
    ensures bound { result.0 ≤ length bytes.now }
    ensures all { OnOk result.1 (result.0 ≡ length bytes.now) }
    ensures bytes { Appends (W.seen to.old).written (W.seen to.new).written
        (take result.0 bytes.now) }
    ensures sound { OnOk result.1 ((W.seen to.new).failures ≡ (W.seen to.old).failures) }
    ensures failed { OnErr result.1 ((W.seen to.new).failures ≡ (W.seen to.old).failures + 1) }
{
    let mut written = 0;
    while written < bytes.len() {
        match to.write(&bytes[written..]) {
            Ok(n) => written += n,
            Err(fault) => return (written, Err(fault)),
        }
    }
    (written, Ok(()))
}

fn remove_prefix(buf: &mut Vec<u8>, n: usize)
    requires { n ≤ vec_len buf.old }
    ensures items { buf.new.items ≡ drop n buf.old.items }
    ensures len { vec_len buf.new + n ≡ vec_len buf.old }
    ensures capacity { vec_capacity buf.new ≡ vec_capacity buf.old }
{
    let len = buf.len();
    buf.as_mut_slice().copy_within(n..len, 0);
    buf.truncate(len - n);
}

#[inline(always)]
fn append(buf: &mut Vec<u8>, bytes: &[u8])
    requires { vec_len buf.old + length bytes.now ≤ vec_capacity buf.old }
    ensures { buf.new.items ≡ buf.old.items ++ bytes.now }
{
    let Ok(()) = buf.extend_from_slice(bytes) else {
        unreachable!()
    };
}
