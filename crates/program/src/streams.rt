//! Standard streams that are closed.

use std::fs;
use std::rt::Files;

/// What takes the numbers of the standard streams that are closed.
#[derive(Drop)]
pub(crate) struct TakenStreams<F> {
    _input: Option<F>,
    _output: Option<F>,
    _errors: Option<F>,
}

/// Opens what can neither be read nor written, if the stream of this name is closed. It gets the
/// least free number.
fn take_if_closed<R: Files>(rt: &R, stream: &str) -> Option<R::File> {
    if fs::metadata(rt, stream).is_ok() {
        return None;
    }
    fs::File::open(rt, "/").ok()
}

/// Takes the numbers of the standard streams that are closed, which otherwise the next files that
/// are opened would get.
pub(crate) fn take_closed_streams<R: Files>(rt: &R) -> TakenStreams<R::File> {
    TakenStreams {
        _input: take_if_closed(rt, "/dev/fd/0"),
        _output: take_if_closed(rt, "/dev/fd/1"),
        _errors: take_if_closed(rt, "/dev/fd/2"),
    }
}
