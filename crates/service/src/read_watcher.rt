//! Who is told at each read of a service.
ghost use Rattle.text_lines.specs.Streams.{Input, Output};

use std::marker::PhantomData;
use text_lines::{RoadRead, RoadWrite};

/// Is told at each read of requests, before it; it can't stop it.
pub trait ReadWatcher {
    /// What the service reads from.
    type Reader: RoadRead;

    /// What its replies are written to.
    type Writer: RoadWrite;

    // Told while the input and the output are in these states, in the one state, it may be in the
    // other afterwards.
    ghost may_become: { Self → Input Self.Reader → Output Self.Writer → Self → Type 0 };

    /// Takes note that the input is about to be read, while the output is as it is.
    fn before_read(&mut self, requests: &Self::Reader, out: &Self::Writer)
        ensures { may_become self.old (Self.Reader.seen requests.now) (Self.Writer.seen out.now)
            self.new };
}

/// Takes note of no read.
#[derive(Drop)]
pub(crate) struct NoReadWatcher<I, W> {
    pub(crate) of: PhantomData<(I, W)>,
}

impl<I: RoadRead, W: RoadWrite> ReadWatcher for NoReadWatcher<I, W> {
    type Reader = I;

    type Writer = W;

    ghost may_become = { λ _ _ _ _. Unit {0} };

    fn before_read(&mut self, _requests: &I, _out: &W) {}
}
